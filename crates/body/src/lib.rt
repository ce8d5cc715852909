// The check of an update file's body.

#![tactic(auto)]

ghost use Rattle.std.specs.Prelude.{◌≡◌, ◌-◌, ◌*◌, ◌/◌, ◌%◌, ◌≤◌, false, min, eqb, length};
ghost use Rattle.loops.specs.Loops.{pick};
ghost use Rattle.refusals.specs.Refusals.{told, value_or};
ghost use Rattle.medium.specs.Reads.{sector_of};
ghost use Rattle.crc.specs.Crc.{crc_of};
ghost use Rattle.body.specs.Body.{body_fits, body_of, file_bytes};
ghost use Rattle.body.specs.Summed.{covered_from, summed};
ghost use Rattle.body.specs.LoopLaws.{HoldsFile};

use chains::{Chain, complete};
use crc::crc16_upd;
use decode::decode_block;
use medium::reads::read_sector;
use refusals::Refusal;
use sector::le32;
use state::w::{NPAIR, NST, Pair, St};
use vdisk::drive::SPC;

// What the file's bytes so far give: the header's words at 4 and at 8, and the CRC.
#[derive(Clone, Copy)]
struct Sum {
    word1: u32,
    word2: u32,
    crc: u16,
}

// Bytes of the header, and where the marker lies that the CRC leaves out.
const HEAD: u32 = 12;

const MARKER: u32 = 12 + 0x4000;

const MARKER_END: u32 = 12 + 0x400C;

// How many of `len` bytes from file offset `at` on lie before `mark`.
fn bytes_before(mark: u32, at: u32, len: usize) -> usize
    ensures { result ≡ min (mark - at) len }
{
    if mark <= at {
        return 0;
    }
    let n = (mark - at) as usize;
    if len <= n {
        return len;
    }
    n
}

// The CRC of more bytes of the file, from offset `at` on.
fn covered_crc(crc: u16, p: &[u8], at: u32) -> u16
    ensures { result ≡ crc_of crc (covered_from at p.now) }
{
    let len = p.len();
    let head = bytes_before(HEAD, at, len);
    let marker = bytes_before(MARKER, at, len);
    let after = bytes_before(MARKER_END, at, len);
    let c = crc16_upd(crc, &p[head..marker]);
    crc16_upd(c, &p[after..len])
}

// More bytes of the file; the first of them have the whole header.
fn summed_up(sum: Sum, p: &[u8], at: u32) -> Sum
    requires { at ≡ 0 → 12 ≤ length p.now }
    ensures { result ≡ summed sum at p.now }
{
    let crc = covered_crc(sum.crc, p, at);
    if at != 0 {
        return Sum {
            word1: sum.word1,
            word2: sum.word2,
            crc: crc,
        };
    }
    let word1 = le32(p, 4);
    let word2 = le32(p, 8);
    Sum {
        word1: word1,
        word2: word2,
        crc: crc,
    }
}

// A sector is read where block `q` of the file is its first.
fn read_first(fat: &[u16], area: &[u8], x: &St, q: u32, sec: &mut [u8])
    requires { length sec.old ≡ 512 }
    ensures { sec.new ≡ pick (eqb (q % 4) 0) (sector_of fat.now area.now x.now (q / 4 % 64)) sec.old }
{
    if q % 4 != 0 {
        return;
    }
    read_sector(fat, area, x, q / 4 % SPC, sec);
}

// Every block decodes, the word at 4 is the size without the header, and the CRC is the low half of the word at 8.
fn check(fat: &[u16], area: &[u8], st: &[St; NST], chain: Chain, size: u32) -> bool
    requires { (128 ≤ size) × HoldsFile chain size }
    ensures { result ≡ body_fits size (file_bytes fat.now area.now st.now chain size) }
{
    let blocks = (size + 127) / 128;
    let mut sec = [0u8; 512];
    let mut sum = Sum {
        word1: 0,
        word2: 0,
        crc: 0xFFFF,
    };
    for q in 0..blocks {
        let i = chain.slots[(q / 4 / SPC) as usize] as usize;
        read_first(fat, area, &st[i], q, &mut sec);
        let from = (q % 4) as usize * 128;
        let end = from + (size - q * 128).min(128) as usize;
        if !decode_block(&mut sec[from..end]) {
            return false;
        }
        sum = summed_up(sum, &sec[from..end], q * 128);
    }
    if sum.word1 != size - HEAD {
        return false;
    }
    sum.crc as u32 == sum.word2 % 65536
}

// Is the body of the file with that start and size valid.
pub fn body(
    fat: &[u16],
    area: &[u8],
    pair: &[Pair; NPAIR],
    st: &[St; NST],
    start: u32,
    size: u32,
) -> Result<bool, Refusal>
    ensures number { told result ≡ (body_of fat.now area.now pair.now st.now start size).no }
    ensures valid { value_or false result ≡ (body_of fat.now area.now pair.now st.now start size).valid }
{
    if size < 128 {
        return Err(Refusal::BodySize);
    }
    let chain = complete(pair, st, start, size);
    if !chain.found {
        return Err(Refusal::NoChain);
    }
    Ok(check(fat, area, st, chain, size))
}
