// What was handed, and reports that it is gone.
ghost use Rattle.std.specs.Prelude.{◌≡◌, map};
ghost use Rattle.file_table.specs.Files.{id_of};
ghost use Rattle.refusals.specs.Refusals.{told};
ghost use Rattle.sessions.specs.Sessions.{Finds};
ghost use Rattle.sessions.specs.Calls.{ReportsBy};

use file_table::{MAX_VF, VF};
use refusals::Refusal;
use vdisk::ids::{GONE, is_handed};

// A row whose file is handed, if there is one.
pub fn find_handed(files: &[VF]) -> Option<usize>
    ensures { Finds (map id_of files.now) result }
{
    for j in 0..files.len() {
        if is_handed(files[j].id) {
            return Some(j);
        }
    }
    None
}

// The file of row `j` is gone.
pub fn report_gone(files: &mut [VF], j: usize) -> Result<(), Refusal>
    ensures { ReportsBy j files.old (told result) files.new }
{
    if MAX_VF < files.len() {
        return Err(Refusal::Table);
    }
    if files.len() <= j {
        return Err(Refusal::NotHanded);
    }
    if !is_handed(files[j].id) {
        return Err(Refusal::NotHanded);
    }
    files[j].id = bits::set_u16(files[j].id, GONE);
    Ok(())
}
