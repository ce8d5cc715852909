// `write`: a written sector judged, and what it leaves.

#![tactic(auto)]

pub mod settle;

ghost use Rattle.std.specs.Prelude.{◌≡◌, not, ◌≤◌, length};
ghost use Rattle.loops.specs.Loops.{pick};
ghost use Rattle.file_table.specs.Table.{max_files};
ghost use Rattle.refusals.specs.Refusals.{told};
ghost use Rattle.judge.specs.Classify.{files_write, Leaves, refused, classify as classified};
ghost use Rattle.write.specs.Write.{WritesBy};

use crate::settle::settle;
use file_table::{MAX_VF, VF};
use judge::classify::classify;
use refusals::Refusal;
use sector::Sectors;
use state::w::W;

// Of a drive that is read-only every sector is refused.
fn judged(
    w: &mut W,
    files: &mut [VF],
    lba: u32,
    sectors: Sectors,
    busy: bool,
    fat: &[u16],
    area: &mut [u8],
) -> Result<bool, Refusal>
    requires { length files.old ≤ max_files }
    ensures { Leaves (pick (not w.old.rw) (refused (files_write lba sectors.entry.shown.now sectors.entry.written.now busy fat.now area.old files.old) w.old 12)
        (classified (files_write lba sectors.entry.shown.now sectors.entry.written.now busy fat.now area.old files.old) w.old)) files.old result w.new files.new area.new }
{
    if !w.rw {
        return Err(Refusal::ReadOnly);
    }
    classify(w, files, lba, sectors, busy, fat, area)
}

// 1 and 10 change nothing.
pub fn write(
    w: &mut W,
    files: &mut [VF],
    lba: u32,
    shown: &[u8],
    written: &[u8],
    busy: bool,
    fat: &[u16],
    area: &mut [u8],
) -> Result<(), Refusal>
    ensures { WritesBy lba shown.now written.now busy fat.now area.old w.old files.old (told result) w.new files.new area.new }
{
    let Some(shown) = shown.as_array::<512>() else {
        return Err(Refusal::SectorLength);
    };
    let Some(written) = written.as_array::<512>() else {
        return Err(Refusal::SectorLength);
    };
    if MAX_VF < files.len() {
        return Err(Refusal::Table);
    }
    let sectors = Sectors { shown, written };
    let opens = judged(w, files, lba, sectors, busy, fat, area);
    settle(w, lba, opens);
    opens?;
    Ok(())
}
