// How a written root sector is judged, over the lent table.

#![tactic(auto)]

mod judged;
mod kept;

ghost use Rattle.std.specs.Prelude.{◌≡◌, ◌<◌, false};
ghost use Rattle.refusals.specs.Refusals.{told, value_or};
ghost use Rattle.root_sectors.specs.Root.{root_in, root_number, root_changed, root_state};

use crate::judged::RootSector;
use crate::kept::keep_slots;
use file_table::VF;
use file_table::owner::Files;
use refusals::Refusal;
use sector::Sectors;
use slots::dates::same_slot;
use state::w::W;

// So many changed slots at most are looked up row by row.
const FEW_SLOTS: u32 = 2;

// A table of fewer files is searched row by row for all slots.
const FEW_FILES: usize = 64;

// The table as it is searched for the changed slots: row by row for a few, not counting those without a start, which need no search, and those past the last file's start, whose
// search ends at the last row. Telling whether the starts rise looks at every row.
fn table_for<'a>(files: &'a [VF], first: u32, sectors: Sectors) -> Files<'a>
    ensures same_rows { result.rows.now ≡ files.now }
    ensures same_first { result.first ≡ first }
{
    let shown = sectors.shown;
    let written = sectors.written;
    let last_start = match files.last() {
        Some(last) => last.vstart,
        None => 0,
    };
    let mut early = 0;
    // A short table is no work to search.
    let slots = if files.len() < FEW_FILES { 0 } else { 16 };
    for i in 0..slots {
        if same_slot(shown, written, i * 32) {
            continue;
        }
        let start = slots::fields::start(written, i * 32);
        if start != 0 && start < last_start {
            early += 1;
        }
    }
    if early <= FEW_SLOTS {
        return Files::by_rows(files, first);
    }
    Files::new(files, first)
}

// A written root sector: the records of its host slots, where it is taken. Told is whether that opens the session.
pub fn root(w: &mut W, files: &[VF], s: u32, sectors: Sectors) -> Result<bool, Refusal>
    requires { s < 32 }
    ensures number { told result ≡ root_number (root_in files.now w.old s sectors.entry.shown.now sectors.entry.written.now) }
    ensures changed { value_or false result ≡ root_changed (root_in files.now w.old s sectors.entry.shown.now sectors.entry.written.now) }
    ensures state { w.new ≡ root_state (root_in files.now w.old s sectors.entry.shown.now sectors.entry.written.now) w.old }
{
    let root = RootSector {
        files: table_for(files, w.first, sectors),
        pair: &w.pair,
        rec: &w.rec,
        s,
        sectors,
    };
    root.judge()?;
    Ok(keep_slots(&mut w.rec, s, sectors))
}
