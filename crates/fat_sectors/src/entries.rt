// Each changed entry of a written FAT sector by itself.
ghost use Rattle.std.specs.Prelude.{◌≡◌, true, not, ◌&&◌, ◌<◌, eqb, length, None, IfOk};
ghost use Rattle.loops.specs.Loops.{pick};
ghost use Rattle.refusals.specs.Refusals.{told};
ghost use Rattle.state.specs.Pairs.{pair_idx};
ghost use Rattle.clusters.specs.Clusters.{is_nothing};
ghost use Rattle.fat_sectors.specs.Values.{fat1_passes};
ghost use Rattle.fat_sectors.specs.Fat.{value_at, changed_at, zeroes_file, host_number, entry_number, needs_pair, freed_by};
ghost use Rattle.fat_sectors.specs.declared.entries.Entry.TheVariants.{Passes, Frees};
ghost use Rattle.fat_sectors.specs.Gathered.{judged_as, needs, frees, AreZeroed};

use crate::fat_sector::FatSector;
use crate::values::{fat1_passes, host_value};
use clusters::ours_live;
use file_table::MAX_VF;
use refusals::Refusal;
use sector::le16;
use state::pairs::pair_idx;
use vdisk::drive::nclus;
use vdisk::owner::Own;

// What a changed entry that is taken does, besides what it sets: nothing, it needs a place for a pair, or it frees the file of a row.
#[derive(Clone, Copy)]
pub(crate) enum Entry {
    Passes,
    NeedsPair,
    Frees(usize),
}

// FAT[0] isn't changed, FAT[1] by its value.
fn reserved_entry(c: u32, v: u16) -> Result<Entry, Refusal>
    requires { c < 2 }
    ensures number { told result ≡ pick (eqb c 0) 4 (pick (fat1_passes v) 0 4) }
    ensures entry { IfOk result (λ e. e ≡ Passes) }
{
    if c == 0 {
        return Err(Refusal::ReservedEntry);
    }
    if fat1_passes(v) {
        return Ok(Entry::Passes);
    }
    Err(Refusal::ReservedEntry)
}

impl<'a> FatSector<'a> {
    // Is entry `i` written otherwise than shown.
    pub(crate) fn is_changed(&self, i: u32) -> bool
        requires { i < 256 }
        ensures { result ≡ changed_at (judged_as self.now) i }
    {
        let shown = self.sectors.shown;
        let at = i as usize * 2;
        le16(shown, at) != self.value(i)
    }

    // Entry `i` as it is written.
    pub(crate) fn value(&self, i: u32) -> u16
        requires { i < 256 }
        ensures { result ≡ value_at (judged_as self.now) i }
    {
        let written = self.sectors.written;
        le16(written, i as usize * 2)
    }

    // Are all entries of file `j` in the sector written 0: those from its first cluster in the sector to its last.
    fn zeroes_file(&self, j: usize) -> bool
        requires { j < length self.now.files.rows.now }
        ensures { result ≡ zeroes_file (judged_as self.now) j }
    {
        let rows = self.files.rows;
        let start = rows[j].vstart as u32;
        let end = start + nclus(rows[j].vsize);
        let base = self.s * 256;
        let from = start.max(base);
        let last = end.min(base + 256);
        for c in from..last {
            if self.value(c - base) != 0 {
                return false;
            }
        }
        true
    }

    // A live file's entry becomes 0 with all its entries in this sector. They were looked at where an earlier entry frees the file.
    fn file_entry(&self, j: usize, v: u16, rows: &[u8; MAX_VF]) -> Result<Entry, Refusal>
        requires row { j < length self.now.files.rows.now }
        requires zeroed { AreZeroed (judged_as self.now) rows.now }
        ensures number { told result ≡ pick (eqb v 0 && zeroes_file (judged_as self.now) j) 0 13 }
        ensures entry { IfOk result (λ e. e ≡ Frees j) }
    {
        if v != 0 {
            return Err(Refusal::LiveFile);
        }
        if rows[j] == 1 {
            return Ok(Entry::Frees(j));
        }
        if self.zeroes_file(j) {
            return Ok(Entry::Frees(j));
        }
        Err(Refusal::LiveFile)
    }

    // A host cluster that gets a value and has no pair needs a place for one.
    fn host_entry(&self, c: u32, v: u16) -> Result<Entry, Refusal>
        ensures number { told result ≡ host_number v }
        ensures needs { IfOk result (λ e. needs e ≡ (not (eqb v 0) && is_nothing (pair_idx self.now.pair.now c))) }
        ensures frees { IfOk result (λ e. frees e ≡ None) }
    {
        if !host_value(v) {
            return Err(Refusal::HostValue);
        }
        if v == 0 {
            return Ok(Entry::Passes);
        }
        if pair_idx(self.pair, c).is_some() {
            return Ok(Entry::Passes);
        }
        Ok(Entry::NeedsPair)
    }

    // What changed entry `i` does, with one search for its owner.
    pub(crate) fn entry(&self, i: u32, rows: &[u8; MAX_VF]) -> Result<Entry, Refusal>
        requires changed { (i < 256) × (changed_at (judged_as self.now) i ≡ true) }
        requires zeroed { AreZeroed (judged_as self.now) rows.now }
        ensures number { told result ≡ entry_number (judged_as self.now) i }
        ensures needs { IfOk result (λ e. needs e ≡ needs_pair (judged_as self.now) i) }
        ensures frees { IfOk result (λ e. frees e ≡ freed_by (judged_as self.now) i) }
    {
        let c = self.s * 256 + i;
        let v = self.value(i);
        if c < 2 {
            return reserved_entry(c, v);
        }
        match self.files.owner(c) {
            Own::Reserved => Err(Refusal::OwnCluster),
            Own::Fixed => Err(Refusal::OwnCluster),
            Own::Dyn(j) => {
                if ours_live(self.files.rows, self.pair, j, c) {
                    return self.file_entry(j, v, rows);
                }
                self.host_entry(c, v)
            }
            Own::Free => self.host_entry(c, v),
        }
    }
}
