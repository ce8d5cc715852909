// The calls that a firmware links. Each lends what it is lent on, answers a number, and writes the rest through references, since a
// returned struct passes differently on 32-bit machines.

#![tactic(auto)]

ghost use Rattle.vwrite.specs.Calls.{Writes, ReadsStaged, TellsPair, TellsRecord, TellsBoot, TellsFat1, TellsFrozen};
ghost use Rattle.vwrite.specs.Calls.{TellsChain, ChecksBody, TellsCrc, TellsStrict, TellsOwner, TellsKind, TellsClusters};

use crc::crc16_upd;
use file_table::VF;
use refusals::told;
use state::queries::{boot_state, fat1, frozen};
use state::w::{NST, W};
use state_calls::{
    OwnRow, body_check, complete, dir_kind, owner, pair, root_rec, staged_read, strict_name,
};
use vdisk::drive::nclus;
use write::write;

// A written sector is judged: the refusal number, 0 where it is taken.
#[unsafe(no_mangle)]
pub extern "C" fn vwrite_write(
    w: &mut W,
    files: &mut [VF],
    lba: u32,
    shown: &[u8],
    written: &[u8],
    busy: bool,
    fat: &[u16],
    area: &mut [u8],
) -> u8
    ensures { Writes lba shown.now written.now busy fat.now area.old w.old files.old
        result w.new files.new area.new }
{
    told(write(w, files, lba, shown, written, busy, fat, area))
}

// A sector of a staged cluster into `out`, zeros where the host wrote none: the refusal number, and whether the cluster is staged.
#[unsafe(no_mangle)]
pub extern "C" fn vwrite_staged_read(
    w: &W,
    fat: &[u16],
    area: &[u8],
    c: u32,
    s: u32,
    out: &mut [u8],
    staged: &mut bool,
) -> u8
    ensures { ReadsStaged fat.now area.now w.now c s out.old result staged.new out.new }
{
    staged_read(&w.st, fat, area, c, s, out, staged)
}

// The host's FAT entry of a cluster: is there one, and its value.
#[unsafe(no_mangle)]
pub extern "C" fn vwrite_pair(w: &W, c: u32, v: &mut u16) -> bool
    ensures { TellsPair w.now c result v.new }
{
    pair(&w.pair, c, v)
}

// The host's record in a root slot: is there one, and its bytes.
#[unsafe(no_mangle)]
pub extern "C" fn vwrite_root_rec(w: &W, slot: usize, e: &mut [u8; 32]) -> bool
    ensures { TellsRecord w.now slot result e.new }
{
    root_rec(&w.rec, slot, e)
}

// The boot byte as the host wrote it.
#[unsafe(no_mangle)]
pub extern "C" fn vwrite_boot_state(w: &W) -> u8
    ensures { TellsBoot w.now result }
{
    boot_state(w)
}

// FAT[1] as the host wrote it, 65535 if it didn't.
#[unsafe(no_mangle)]
pub extern "C" fn vwrite_fat1(w: &W) -> u16
    ensures { TellsFat1 w.now result }
{
    fat1(w)
}

// The layout must not change under the host.
#[unsafe(no_mangle)]
pub extern "C" fn vwrite_frozen(w: &W, mounted: bool) -> bool
    ensures { TellsFrozen w.now mounted result }
{
    frozen(w, mounted)
}

// The chain of a file by its start and size: is it whole, the slots of its clusters and how many they are.
#[unsafe(no_mangle)]
pub extern "C" fn vwrite_complete(
    w: &W,
    start: u32,
    size: u32,
    slots: &mut [u8; NST],
    n: &mut usize,
) -> bool
    ensures { TellsChain w.now start size result slots.new n.new }
{
    complete(&w.pair, &w.st, start, size, slots, n)
}

// The body of the update file with that start and size: the refusal number, and whether it is valid.
#[unsafe(no_mangle)]
pub extern "C" fn vwrite_body_check(
    w: &W,
    fat: &[u16],
    area: &[u8],
    start: u32,
    size: u32,
    valid: &mut bool,
) -> u8
    ensures { ChecksBody fat.now area.now w.now start size result valid.new }
{
    body_check(&w.pair, &w.st, fat, area, start, size, valid)
}

// The update file's CRC of more bytes, after `c`.
#[unsafe(no_mangle)]
pub extern "C" fn vwrite_crc16(c: u16, bytes: &[u8]) -> u16
    ensures { TellsCrc c bytes.now result }
{
    crc16_upd(c, bytes)
}

// Is the strict long name of a root slot, given its sector, housekeeping: the refusal number, and whether it is.
#[unsafe(no_mangle)]
pub extern "C" fn vwrite_strict_name(
    w: &W,
    sector: &[u8],
    slot: usize,
    housekeeping: &mut bool,
) -> u8
    ensures { TellsStrict w.now sector.now slot result housekeeping.new }
{
    strict_name(&w.rec, sector, slot, housekeeping)
}

// The owner of a cluster: the refusal number, and who it is; `first` is the first session cluster.
#[unsafe(no_mangle)]
pub extern "C" fn vwrite_owner(files: &[VF], first: u32, c: u32, own: &mut OwnRow) -> u8
    ensures { TellsOwner files.now first c result own.new }
{
    owner(files, first, c, own)
}

// The directory that a cluster is: is it one, and its file kind.
#[unsafe(no_mangle)]
pub extern "C" fn vwrite_dir_kind(c: u32, kind: &mut u16) -> bool
    ensures { TellsKind c result kind.new }
{
    dir_kind(c, kind)
}

// Clusters of a file of so many bytes.
#[unsafe(no_mangle)]
pub extern "C" fn vwrite_nclus(size: u32) -> u32
    ensures { TellsClusters size result }
{
    nclus(size)
}
