// The rows that a directory sector turns, and their marks.
ghost use Rattle.std.specs.Prelude.{◌≡◌, ◌≤◌, eqb, map, length};
ghost use Rattle.loops.specs.Loops.{pick};
ghost use Rattle.loops.specs.Rows.{rows as rows_of};
ghost use Rattle.bits.specs.Bit.{set_bit};
ghost use Rattle.file_table.specs.Files.{id_of, start_of, size_of, with_ids};
ghost use Rattle.file_table.specs.Table.{max_files};
ghost use Rattle.medium.specs.Reads.{moved_ref};
ghost use Rattle.dir_sectors.specs.Turned.{Begins, Ends, mark_id};

use file_table::{MAX_VF, VF};
use medium::reads::moved_ref;
use state::w::{NST, St};
use vdisk::ids::{MOVED, TURNED};

// What the slots of a sector turn: whether any turns a file, 1 at each row that is turned, and the rows between which these lie.
#[derive(Clone, Copy)]
pub struct Turns {
    pub any: bool,
    pub from: usize,
    pub end: usize,
    pub rows: [u8; MAX_VF],
}

// A row that is marked 1 is turned, and moved where a staged sector names its file already.
fn turned_id(mark: u8, f: VF, fat: &[u16], area: &[u8], st: &[St; NST]) -> u16
    ensures { result ≡ pick (eqb mark 1) (pick (moved_ref fat.now area.now st.now f.vstart f.vsize) (set_bit (set_bit f.id 12) 15) (set_bit f.id 12)) f.id }
{
    if mark != 1 {
        return f.id;
    }
    let turned = bits::set_u16(f.id, TURNED);
    if moved_ref(fat, area, st, f.vstart, f.vsize) {
        return bits::set_u16(turned, MOVED);
    }
    turned
}

// The staged sectors are searched for the rows that are marked alone; before `from` and from `end` on there are none.
pub(crate) fn mark_rows(
    files: &mut [VF],
    rows: &[u8; MAX_VF],
    from: usize,
    end: usize,
    fat: &[u16],
    area: &[u8],
    st: &[St; NST],
)
    requires { (length files.old ≤ max_files) × Begins rows.now from × Ends rows.now end }
    ensures { files.new ≡ with_ids files.old
        (rows_of (mark_id rows.now (map start_of files.old) (map size_of files.old) fat.now area.now st.now) (map id_of files.old)) }
{
    for j in from..end.min(files.len()) {
        files[j].id = turned_id(rows[j], files[j], fat, area, st);
    }
}
