// A start.
ghost use Rattle.file_table.specs.Table.{columns};
ghost use Rattle.refusals.specs.Refusals.{told};
ghost use Rattle.sessions.specs.Calls.{StartsBy};

use file_table::{VF, table_ok};
use refusals::Refusal;
use state::w::{W, initial_state};

// A start takes the table only if it is acceptable, and sets the state anew.
pub fn start(w: &mut W, files: &[VF], first: u32) -> Result<(), Refusal>
    ensures { StartsBy (columns files.now first) w.old (told result) w.new }
{
    if !table_ok(files, first) {
        return Err(Refusal::Table);
    }
    *w = initial_state(first);
    Ok(())
}
