// How a written sector of a generated directory is judged, over the lent table.

#![tactic(auto)]

mod marks;
mod turns;

ghost use Rattle.std.specs.Prelude.{◌≡◌, ◌<◌, ◌≤◌, false, length};
ghost use Rattle.file_table.specs.Files.{with_ids};
ghost use Rattle.file_table.specs.Table.{max_files};
ghost use Rattle.refusals.specs.Refusals.{told, value_or};
ghost use Rattle.dir_sectors.specs.Dir.{dir_in, dir_number, dir_ids, dir_changed};

use crate::marks::mark_rows;
use crate::turns::slot_turns;
use file_table::VF;
use refusals::Refusal;
use sector::Sectors;
use state::w::{NST, St};

// A written sector of directory `k`: the files that it turns are marked, where it is taken. Told is whether that opens the session.
pub fn dir(
    files: &mut [VF],
    k: u16,
    s: u32,
    sectors: Sectors,
    fat: &[u16],
    area: &[u8],
    st: &[St; NST],
) -> Result<bool, Refusal>
    requires { (length files.old ≤ max_files) × (s < 64) }
    ensures number { told result ≡ dir_number (dir_in files.old k s sectors.entry.shown.now sectors.entry.written.now) }
    ensures changed { value_or false result ≡ dir_changed (dir_in files.old k s sectors.entry.shown.now sectors.entry.written.now) }
    ensures table { files.new ≡ with_ids files.old (dir_ids (dir_in files.old k s sectors.entry.shown.now sectors.entry.written.now) fat.now area.now st.now) }
{
    let turns = slot_turns(files, k, s, sectors)?;
    if !turns.any {
        return Ok(false);
    }
    let rows = turns.rows;
    mark_rows(files, &rows, turns.from, turns.end, fat, area, st);
    Ok(true)
}
