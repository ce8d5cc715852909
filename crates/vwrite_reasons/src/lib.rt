// What demand 3 asks of the calls, for a program to link that tells why a file is handed.

#![tactic(auto)]

ghost use Rattle.vwrite_reasons.specs.Calls.{TellsNamed, NotesWrite, NotesEnd, NotesGone};

use reasons::{Reason, after_end, after_gone, after_write};
use state::w::W;
use state_calls::named;

// Does a staged sector hold an ordinary slot with that start and size, as the medium stands.
#[unsafe(no_mangle)]
pub extern "C" fn vwrite_named(w: &W, fat: &[u16], area: &[u8], start: u16, size: u32) -> bool
    ensures { TellsNamed fat.now area.now w.now start size result }
{
    named(&w.st, fat, area, start, size)
}

// What the calls held of a file, after a write that answered `number`: whether a staged sector named the file before it, and whether it staged
// its sector.
#[unsafe(no_mangle)]
pub extern "C" fn vwrite_after_write(
    r: &mut Reason,
    id: u16,
    slot: u16,
    start: u16,
    size: u32,
    number: u8,
    lba: u32,
    shown: &[u8],
    written: &[u8],
    named: bool,
    staged: bool,
)
    ensures { NotesWrite r.old id slot start size number lba shown.now written.now named staged r.new }
{
    let a = after_write(
        *r, id, slot, start, size, number, lba, shown, written, named, staged,
    );
    *r = a;
}

// ... after a call that may end the session: what it answered as ended, the file's id then, and whether a staged sector named it before.
#[unsafe(no_mangle)]
pub extern "C" fn vwrite_after_end(r: &mut Reason, ended: u8, id: u16, named: bool)
    ensures { NotesEnd r.old ended id named r.new }
{
    let a = after_end(*r, ended, id, named);
    *r = a;
}

// ... after a report of gone of `row` that answered `number`; the file is in row `j`.
#[unsafe(no_mangle)]
pub extern "C" fn vwrite_after_gone(r: &mut Reason, number: u8, row: usize, j: usize)
    ensures { NotesGone r.old number row j r.new }
{
    let a = after_gone(*r, number, row, j);
    *r = a;
}
