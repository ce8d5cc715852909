// What a release leaves of the marks.
ghost use Rattle.std.specs.Prelude.{◌≡◌, ◌≤◌, map, length};
ghost use Rattle.file_table.specs.Files.{id_of, with_ids};
ghost use Rattle.file_table.specs.Table.{max_files};
ghost use Rattle.loops.specs.Rows.{rows};
ghost use Rattle.release.specs.Notes.{settled_id};
ghost use Rattle.release.specs.Release.{files_lending, released_ids};

use crate::notes::note_staged;
use file_table::VF;
use state::w::{NST, St};
use vdisk::ids::{FREED, TURNED};

// A handed file stays handed. All other marks are cleared.
fn settle_id(id: u16) -> u16
    ensures { result ≡ settled_id id }
{
    let clear = vdisk::ids::clear_marks(id);
    if vdisk::ids::is_handed(id) {
        return bits::set_u16(bits::set_u16(clear, TURNED), FREED);
    }
    clear
}

fn settle_ids(files: &mut [VF])
    ensures { files.new ≡ with_ids files.old (rows (λ j id. settled_id id) (map id_of files.old)) }
{
    for i in 0..files.len() {
        files[i].id = settle_id(files[i].id);
    }
}

// A moved file that a staged sector names is freed first; then each row is settled.
pub fn release_ids(files: &mut [VF], fat: &[u16], area: &[u8], st: &[St; NST])
    requires { length files.old ≤ max_files }
    ensures { files.new ≡ with_ids files.old (released_ids (files_lending fat.now area.now files.old) st.now) }
{
    note_staged(files, fat, area, st);
    settle_ids(files);
}
