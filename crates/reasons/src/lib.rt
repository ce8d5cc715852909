// Why a file is handed to deletion, or what is missing: what demand 3 asks of the calls, kept up from call to call.

#![tactic(auto)]

ghost use Rattle.std.specs.Prelude.{◌≡◌, [], ◌∷◌, ◌<◌, true, false};
ghost use Rattle.vdisk.specs.Drive.{dir_kind_of};
ghost use Rattle.marks.specs.Seen.{turns_in, all_zero, zeroes_in};
ghost use Rattle.reasons.specs.Reasons.{file_alone, no_reason, with_seen, moved_then, after_write, after_end, after_gone};

use sector::Sector;
use vdisk::drive::{Place, dir_kind, nclus, place_of};
use vdisk::ids::{id_dir, is_unmarked};

// What the calls held of one file since the start, or since the completed release that last left it unmarked: a turn of its slot, its
// entries zeroed, a staged sector that named it at the turn or was staged after it, one that named it so at a release after that, a report
// that it is gone.
#[repr(C)]
#[derive(Clone, Copy)]
pub struct Reason {
    pub turned: bool,
    pub zeroed: bool,
    pub moved: bool,
    pub named: bool,
    pub gone: bool,
}

// At the start.
pub fn no_reason() -> Reason
    ensures { result ≡ no_reason }
{
    Reason {
        turned: false,
        zeroed: false,
        moved: false,
        named: false,
        gone: false,
    }
}

// Does sector `s` of cluster `c` turn the file's slot.
fn turns(id: u16, slot: u16, c: u32, s: u32, shown: &Sector, written: &Sector) -> bool
    ensures { result ≡ turns_in (file_alone id slot 0 0) 0 s shown.now written.now (dir_kind_of c) }
{
    match dir_kind(c) {
        Some(k) => {
            if id_dir(id) != k {
                return false;
            }
            if slot as u32 / 16 != s {
                return false;
            }
            slots::dates::is_turn(shown, written, slot as usize % 16 * 32)
        }
        None => false,
    }
}

// Are the file's entries in FAT sector `s` all 0: those from its first cluster in the sector to its last.
fn all_zero(start: u16, size: u32, s: u32, sector: &Sector) -> bool
    requires { s < 254 }
    ensures { result ≡ all_zero (start ∷ []) (size ∷ []) 0 s sector.now }
{
    let first = start as u32;
    let end = first + nclus(size);
    let base = s * 256;
    let from = first.max(base);
    let last = end.min(base + 256);
    for c in from..last {
        let at = (c - base) as usize * 2;
        if sector::le16(sector, at) != 0 {
            return false;
        }
    }
    true
}

// Does FAT sector `s` zero the file's entries, one of them shown otherwise.
fn zeroes(start: u16, size: u32, s: u32, shown: &Sector, written: &Sector) -> bool
    requires { s < 254 }
    ensures { result ≡ zeroes_in (file_alone 0 0 start size) 0 s shown.now written.now }
{
    if !all_zero(start, size, s, written) {
        return false;
    }
    !all_zero(start, size, s, shown)
}

// Has the file moved: before, or as data that names it is staged after its turn.
fn moved_by(
    moved: bool,
    turned: bool,
    start: u16,
    size: u32,
    written: &Sector,
    staged: bool,
) -> bool
    ensures { result ≡ moved_then start size written.now staged turned moved }
{
    if moved {
        return true;
    }
    if !turned {
        return false;
    }
    if !staged {
        return false;
    }
    if sector::is_zero(written) {
        return false;
    }
    slots::refers::refers(written, start, size)
}

// A turn, which moves the file where a staged sector names it already.
fn at_turn(mut r: Reason, named: bool) -> Reason
    ensures { result ≡ with_seen r true false named }
{
    r.turned = true;
    if named {
        r.moved = true;
    }
    r
}

// After a write that answered `number`. Of the id only the directory is read, so its marks don't matter. `named` says whether a sector staged
// before the write named the file, as the medium stood then; `staged` whether the write staged its sector.
pub fn after_write(
    mut r: Reason,
    id: u16,
    slot: u16,
    start: u16,
    size: u32,
    number: u8,
    lba: u32,
    shown: &[u8],
    written: &[u8],
    named: bool,
    staged: bool,
) -> Reason
    ensures { result ≡ after_write r id slot start size number lba shown.now written.now named staged }
{
    if number != 0 {
        return r;
    }
    let Some(shown) = shown.as_array::<512>() else {
        return r;
    };
    let Some(written) = written.as_array::<512>() else {
        return r;
    };
    r.moved = moved_by(r.moved, r.turned, start, size, written, staged);
    match place_of(lba) {
        Place::Boot => r,
        Place::Fat(s) => {
            if zeroes(start, size, s, shown, written) {
                r.zeroed = true;
            }
            r
        }
        Place::Root(s) => r,
        Place::Data(c, s) => {
            if turns(id, slot, c, s, shown, written) {
                return at_turn(r, named);
            }
            r
        }
        Place::Outside => r,
    }
}

// After a poll, a release or a bus reset that answered `ended`, 1 where a release ran to its end: `id` is the file's id then, and `named`
// says whether a staged sector named it, as the medium of the call stood.
pub fn after_end(mut r: Reason, ended: u8, id: u16, named: bool) -> Reason
    ensures { result ≡ after_end r ended id named }
{
    if ended != 1 {
        return r;
    }
    if is_unmarked(id) {
        return no_reason();
    }
    if !named {
        return r;
    }
    if r.moved {
        r.named = true;
    }
    r
}

// After a report that row `row` is gone, which answered `number`, for the file of row `j`.
pub fn after_gone(mut r: Reason, number: u8, row: usize, j: usize) -> Reason
    ensures { result ≡ after_gone r number row j }
{
    if row != j {
        return r;
    }
    if number == 0 {
        r.gone = true;
    }
    r
}
