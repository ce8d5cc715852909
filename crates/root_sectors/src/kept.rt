// The host slots of a root sector that is taken are kept as records.
ghost use Rattle.std.specs.Prelude.{◌≡◌, ◌<◌};
ghost use Rattle.loops.specs.Loops.{some, fold};
ghost use Rattle.records.specs.Records.{rec_idx};
ghost use Rattle.root_sectors.specs.Root.{place_of};
ghost use Rattle.root_sectors.specs.Records.{kept_in, keep_rec, kept_slot};

use crate::judged::is_own;
use records::{NREC, Rec, free_rec, rec_idx};
use sector::{Sector, Sectors};
use slots::dates::same_slot;

// The record of root slot `slot`, or the first free place.
fn place_of(rec: &[Rec; NREC], slot: usize) -> Option<usize>
    ensures { result ≡ place_of rec.now (rec_idx rec.now slot) }
{
    match rec_idx(rec, slot) {
        Some(k) => Some(k),
        None => free_rec(rec),
    }
}

// Slot `i` of sector `s` as written is kept.
fn keep_slot(rec: &mut [Rec; NREC], s: u32, written: &Sector, i: u32)
    requires { (s < 32) × (i < 16) }
    ensures { rec.new ≡ kept_in s written.now i rec.old }
{
    let slot = s * 16 + i;
    let Some(k) = place_of(rec, slot as usize) else {
        return;
    };
    let at = i as usize * 32;
    let mut e = [0u8; 32];
    e.copy_from_slice(&written[at..at + 32]);
    rec[k] = Rec {
        slot: slot as u16,
        e,
    };
}

// The changed host slots as written, each kept in its record. Told is whether there is one.
pub(crate) fn keep_slots(rec: &mut [Rec; NREC], s: u32, sectors: Sectors) -> bool
    requires { s < 32 }
    ensures any { result ≡ some (kept_slot s sectors.entry.shown.now sectors.entry.written.now) 16 0 }
    ensures records { rec.new ≡ fold (keep_rec s sectors.entry.shown.now sectors.entry.written.now) 16 0 rec.old }
{
    let shown = sectors.shown;
    let written = sectors.written;
    let mut any = false;
    for i in 0..16 {
        if same_slot(shown, written, i as usize * 32) {
            continue;
        }
        if is_own(s * 16 + i) {
            continue;
        }
        keep_slot(rec, s, written, i);
        any = true;
    }
    any
}
