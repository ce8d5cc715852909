// One entry of the entry listing: a FAT write in which that entry alone differs.
#![tactic(auto)]

pub mod list;

ghost use Rattle.std.specs.Prelude.{◌≡◌, ℕ, ◌≤◌};
ghost use Rattle.write.specs.Write.{write as written};
ghost use Rattle.entry_write.specs.EntryWrite.{drive as the_drive, entry_sector, entry_write, pairs_held, row_of};

use refusals::told;
use state::pairs::free_pairs;
use state::queries::fat1;
use state::w::{NPAIR, Pair, W, initial_state};
use write::write;

// What is printed of an entry: its answer, 0 where it was taken, and what the state then has.
#[derive(Clone, Copy)]
pub struct Row {
    pub entry: u16,
    pub answer: u8,
    pub pairs: usize,
    pub fat1: u16,
}

// No files are lent, so the state is the whole drive.
pub fn drive() -> W
    ensures { result ≡ the_drive }
{
    let mut w = initial_state(7);
    w.rw = true;
    w.want_rw = true;
    w
}

fn sector_of(entry: u16, value: u16) -> [u8; 512]
    ensures { result ≡ entry_sector entry value }
{
    let at = (entry % 256) as usize * 2;
    let mut sector = [0u8; 512];
    sector[at] = (value % 256) as u8;
    sector[at + 1] = (value / 256) as u8;
    sector
}

// The sector judged, with no files, no medium, and not busy.
fn answer_to(w: &mut W, entry: u16, shown: u16, new: u16) -> u8
    ensures number { result ≡ (written (entry_write entry shown new) w.old).number }
    ensures state { w.new ≡ (written (entry_write entry shown new) w.old).w }
{
    let written = sector_of(entry, new);
    let shown = sector_of(entry, shown);
    let place = 1 + (entry / 256) as u32;
    told(write(w, &mut [], place, &shown, &written, false, &[], &mut []))
}

fn pairs_held(pair: &[Pair; NPAIR]) -> usize
    ensures { result ≡ pairs_held pair.now }
{
    NPAIR - free_pairs(pair)
}

pub fn entry_write(w: &mut W, entry: u16, shown: u16, new: u16) -> Row
    ensures row { result ≡ row_of entry (written (entry_write entry shown new) w.old) }
    ensures state { w.new ≡ (written (entry_write entry shown new) w.old).w }
{
    let answer = answer_to(w, entry, shown, new);
    Row {
        entry,
        answer,
        pairs: pairs_held(&w.pair),
        fat1: fat1(w),
    }
}
