// Whether a written root sector is taken.
ghost use Rattle.std.specs.Prelude.{◌≡◌, ◌<◌, true, leb};
ghost use Rattle.refusals.specs.Refusals.{told};
ghost use Rattle.root_sectors.specs.Root.{changed_at, start_fits, slot_number, needs_rec, root_number};
ghost use Rattle.root_sectors.specs.Judged.{judged_as};

use clusters::host_cluster;
use file_table::owner::Files;
use records::{NREC, Rec, free_recs, rec_idx};
use refusals::Refusal;
use root_slots::rec_ok;
use sector::Sectors;
use slots::dates::{dates_only, same_slot};
use state::w::{NPAIR, Pair};

// Sector `s` of the root, and what it is judged by: the lent table, and the host's FAT entries and records.
#[derive(Clone, Copy)]
pub(crate) struct RootSector<'a> {
    pub files: Files<'a>,
    pub pair: &'a [Pair; NPAIR],
    pub rec: &'a [Rec; NREC],
    pub s: u32,
    pub sectors: Sectors<'a>,
}

// Is a root slot the drive's own.
pub(crate) fn is_own(slot: u32) -> bool
    ensures { result ≡ leb slot 6 }
{
    slot <= 6
}

impl<'a> RootSector<'a> {
    // The slots in turn, up to the first that is refused; then the places of records.
    pub(crate) fn judge(&self) -> Result<(), Refusal>
        requires { self.now.s < 32 }
        ensures { told result ≡ root_number (judged_as self.now) }
    {
        let shown = self.sectors.shown;
        let written = self.sectors.written;
        let mut needed = 0;
        for i in 0..16 {
            if same_slot(shown, written, i as usize * 32) {
                continue;
            }
            self.judge_slot(i)?;
            if self.needs_rec(i) {
                needed += 1;
            }
        }
        if free_recs(self.rec) < needed {
            return Err(Refusal::NoRecord);
        }
        Ok(())
    }

    // Changed slot `i`: the drive's own may change in dates alone, a host's must be one that the root takes.
    fn judge_slot(&self, i: u32) -> Result<(), Refusal>
        requires { (self.now.s < 32) × (i < 16) × (changed_at (judged_as self.now) i ≡ true) }
        ensures { told result ≡ slot_number (judged_as self.now) i }
    {
        let shown = self.sectors.shown;
        let written = self.sectors.written;
        let slot = self.s * 16 + i;
        if is_own(slot) {
            if dates_only(shown, written, i as usize * 32) {
                return Ok(());
            }
            return Err(Refusal::OwnRootSlot);
        }
        let host = self.start_fits(i);
        if rec_ok(self.rec, written, self.s as usize * 16, slot as usize, host) {
            return Ok(());
        }
        Err(Refusal::RootSlot)
    }

    // Is the start in slot `i` 0 or a host cluster.
    fn start_fits(&self, i: u32) -> bool
        requires { i < 16 }
        ensures { result ≡ start_fits (judged_as self.now) i }
    {
        let written = self.sectors.written;
        let start = slots::fields::start(written, i as usize * 32);
        if start == 0 {
            return true;
        }
        host_cluster(&self.files, self.pair, start as u32)
    }

    // Does changed slot `i` need a record's place.
    fn needs_rec(&self, i: u32) -> bool
        requires { (self.now.s < 32) × (i < 16) × (changed_at (judged_as self.now) i ≡ true) }
        ensures { result ≡ needs_rec (judged_as self.now) i }
    {
        if is_own(self.s * 16 + i) {
            return false;
        }
        rec_idx(self.rec, (self.s * 16 + i) as usize).is_none()
    }
}
