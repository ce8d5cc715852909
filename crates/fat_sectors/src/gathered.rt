// The entries of a written FAT sector in turn: the first that is refused, and what the others need and free.
ghost use Rattle.std.specs.Prelude.{◌≡◌, ◌+◌, ◌*◌, ◌<◌, OnOk, OnErr};
ghost use Rattle.refusals.specs.Refusals.{told};
ghost use Rattle.fat_sectors.specs.Fat.{fat_number};
ghost use Rattle.fat_sectors.specs.Gathered.{judged_as, GatheredTo, GatheredAs};

use crate::entries::Entry;
use crate::fat_sector::FatSector;
use file_table::MAX_VF;
use refusals::Refusal;
use slots::dates::same_slot;
use state::pairs::free_pairs;

// How many entries need a place for a pair, whether one frees a row, and 1 at each row that an entry frees.
#[derive(Clone, Copy)]
pub(crate) struct Gathered {
    pub need: usize,
    pub any: bool,
    pub rows: [u8; MAX_VF],
}

impl<'a> FatSector<'a> {
    // The 16 entries of a block, up to the first that is refused.
    fn gather_block(&self, block: u32, gathered: &mut Gathered) -> Result<(), Refusal>
        requires { (block < 16) × GatheredTo (judged_as self.now) (block * 16) gathered.old }
        ensures taken { OnOk result (GatheredTo (judged_as self.now) (block * 16 + 16) gathered.new) }
        ensures refused { OnErr result (told result ≡ fat_number (judged_as self.now)) }
    {
        for i in block * 16..block * 16 + 16 {
            if !self.is_changed(i) {
                continue;
            }
            match self.entry(i, &gathered.rows)? {
                Entry::Passes => {}
                Entry::NeedsPair => {
                    gathered.need += 1;
                }
                Entry::Frees(j) => {
                    gathered.rows[j] = 1;
                    gathered.any = true;
                }
            }
        }
        Ok(())
    }

    // All entries, by blocks that fill a slot of 32 bytes: one that is the same in both sectors is passed over. Then the places for pairs.
    pub(crate) fn gather(&self) -> Result<Gathered, Refusal>
        ensures { GatheredAs (judged_as self.now) result }
    {
        let shown = self.sectors.shown;
        let written = self.sectors.written;
        let mut gathered = Gathered {
            need: 0,
            any: false,
            rows: [0u8; MAX_VF],
        };
        for block in 0..16 {
            if same_slot(shown, written, block as usize * 32) {
                continue;
            }
            self.gather_block(block, &mut gathered)?;
        }
        if free_pairs(self.pair) < gathered.need {
            return Err(Refusal::NoPair);
        }
        Ok(gathered)
    }
}
