// `classify`: each written sector by its place.
ghost use Rattle.std.specs.Prelude.{◌≡◌, ◌≤◌, length};
ghost use Rattle.file_table.specs.Table.{max_files};
ghost use Rattle.judge.specs.Classify.{files_write, Leaves, classify as classified};

use crate::boot::boot;
use crate::data::cluster;
use fat_sectors::sectors::fat;
use file_table::VF;
use refusals::Refusal;
use root_sectors::root;
use sector::Sectors;
use state::w::W;
use vdisk::drive::{Place, place_of};

// Told is whether the sector opens the session. One that is written as it is shown is accepted unchanged, but for a host cluster's, which is staged.
pub fn classify(
    w: &mut W,
    files: &mut [VF],
    lba: u32,
    sectors: Sectors,
    busy: bool,
    fat_entries: &[u16],
    area: &mut [u8],
) -> Result<bool, Refusal>
    requires { length files.old ≤ max_files }
    ensures { Leaves (classified (files_write lba sectors.entry.shown.now sectors.entry.written.now busy fat_entries.now area.old files.old) w.old)
        files.old result w.new files.new area.new }
{
    match place_of(lba) {
        Place::Boot => {
            if sectors.same() {
                return Ok(false);
            }
            boot(w, sectors)?;
            Ok(true)
        }
        Place::Fat(s) => {
            if sectors.same() {
                return Ok(false);
            }
            fat(w, files, s, sectors)?;
            Ok(true)
        }
        Place::Root(s) => {
            if sectors.same() {
                return Ok(false);
            }
            root(w, files, s, sectors)
        }
        Place::Data(c, s) => cluster(w, files, c, s, sectors, busy, fat_entries, area),
        Place::Outside => Err(Refusal::PastTheEnd),
    }
}
