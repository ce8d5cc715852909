// What was handed, and reports that it is gone.
ghost use Rattle.vwrite_sessions.specs.Calls.{Finds, Reports};

use file_table::{MAX_VF, VF};
use refusals::{Refusal, told};
use sessions::gone::{find_handed, report_gone};

// Is a file handed, and its row, 0 where none is.
#[repr(C)]
#[derive(Clone, Copy)]
pub struct Handed {
    pub found: bool,
    pub row: usize,
}

// A row whose file is handed, if there is one: the refusal number.
#[unsafe(no_mangle)]
pub extern "C" fn vwrite_find_handed(files: &[VF], handed: &mut Handed) -> u8
    ensures { Finds files.now result handed.new }
{
    handed.found = false;
    handed.row = 0;
    if MAX_VF < files.len() {
        return Refusal::Table.number();
    }
    if let Some(row) = find_handed(files) {
        handed.found = true;
        handed.row = row;
    }
    0
}

// The file of a row is gone: the refusal number.
#[unsafe(no_mangle)]
pub extern "C" fn vwrite_report_gone(files: &mut [VF], row: usize) -> u8
    ensures { Reports row files.old result files.new }
{
    told(report_gone(files, row))
}
