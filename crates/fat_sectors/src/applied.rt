// The entries of a written FAT sector that is taken put into the state.
ghost use Rattle.std.specs.Prelude.{◌≡◌, true, ◌&&◌, ◌*◌, ◌<◌, eqb, map};
ghost use Rattle.loops.specs.Loops.{some, fold};
ghost use Rattle.loops.specs.Marks.{Marks};
ghost use Rattle.vdisk.specs.Owner.{owner_of};
ghost use Rattle.file_table.specs.Table.{max_files};
ghost use Rattle.file_table.specs.Files.{start_of, size_of};
ghost use Rattle.state.specs.Pairs.{pair_idx};
ghost use Rattle.clusters.specs.Clusters.{is_nothing};
ghost use Rattle.fat_sectors.specs.Fat.{changed_at, freed_by, freed_owner, apply_at};
ghost use Rattle.fat_sectors.specs.Gathered.{judged_as, frees_at, marked_owner};

use crate::fat_sector::FatSector;
use crate::gathered::Gathered;
use file_table::MAX_VF;
use slots::dates::same_slot;
use state::pairs::{pair_idx, set_pair};
use state::w::{NPAIR, Pair, W};
use vdisk::owner::Own;

// Is 0 written for a cluster without a pair: that sets nothing, whoever owns it. Only asked where a file is freed, to spare the search for the owner.
fn sets_nothing(gathered: &Gathered, pair: &[Pair; NPAIR], c: u32, v: u16) -> bool
    ensures { result ≡ (gathered.now.any && eqb v 0 && is_nothing (pair_idx pair.now c)) }
{
    if !gathered.any {
        return false;
    }
    if v != 0 {
        return false;
    }
    pair_idx(pair, c).is_none()
}

impl<'a> FatSector<'a> {
    // Is cluster `c` one of a file whose row is marked 1.
    fn is_freed(&self, rows: &[u8; MAX_VF], c: u32) -> bool
        ensures { result ≡ marked_owner rows.now (owner_of (map start_of self.now.files.rows.now) (map size_of self.now.files.rows.now) self.now.files.first c) }
    {
        match self.files.owner(c) {
            Own::Reserved => false,
            Own::Fixed => false,
            Own::Dyn(j) => rows[j] == 1,
            Own::Free => false,
        }
    }

    // Does the sector free the file of cluster `c`. One that frees none needs no search for the owner.
    fn frees_owner(&self, gathered: &Gathered, c: u32) -> bool
        requires marked { Marks (freed_by (judged_as self.now)) max_files 256 gathered.now.rows }
        requires any { gathered.now.any ≡ some (frees_at (judged_as self.now)) 256 0 }
        ensures { result ≡ freed_owner (judged_as self.now) (owner_of (map start_of self.now.files.rows.now) (map size_of self.now.files.rows.now) self.now.files.first c) }
    {
        if !gathered.any {
            return false;
        }
        self.is_freed(&gathered.rows, c)
    }

    // Changed entry `i`: FAT[1], or a pair. A file that the sector frees gets none.
    fn apply_entry(&self, i: u32, gathered: &Gathered, w: &mut W)
        requires changed { (i < 256) × (changed_at (judged_as self.now) i ≡ true) }
        requires marked { Marks (freed_by (judged_as self.now)) max_files 256 gathered.now.rows }
        requires any { gathered.now.any ≡ some (frees_at (judged_as self.now)) 256 0 }
        ensures { w.new ≡ apply_at (judged_as self.now) i w.old }
    {
        let c = self.s * 256 + i;
        let v = self.value(i);
        if c == 1 {
            w.fat1 = v as u32 + 65536;
            return;
        }
        if sets_nothing(gathered, &w.pair, c, v) {
            return;
        }
        if self.frees_owner(gathered, c) {
            return;
        }
        set_pair(w, c as u16, v);
    }

    // The 16 entries of a block.
    fn apply_block(&self, block: u32, gathered: &Gathered, w: &mut W)
        requires block { block < 16 }
        requires marked { Marks (freed_by (judged_as self.now)) max_files 256 gathered.now.rows }
        requires any { gathered.now.any ≡ some (frees_at (judged_as self.now)) 256 0 }
        ensures { w.new ≡ fold (apply_at (judged_as self.now)) 16 (block * 16) w.old }
    {
        for i in block * 16..block * 16 + 16 {
            if self.is_changed(i) {
                self.apply_entry(i, gathered, w);
            }
        }
    }

    // All entries, by blocks as they are gathered.
    pub(crate) fn apply(&self, gathered: &Gathered, w: &mut W)
        requires marked { Marks (freed_by (judged_as self.now)) max_files 256 gathered.now.rows }
        requires any { gathered.now.any ≡ some (frees_at (judged_as self.now)) 256 0 }
        ensures { w.new ≡ fold (apply_at (judged_as self.now)) 256 0 w.old }
    {
        let shown = self.sectors.shown;
        let written = self.sectors.written;
        for block in 0..16 {
            if same_slot(shown, written, block as usize * 32) {
                continue;
            }
            self.apply_block(block, gathered, w);
        }
    }
}
