// A table by its columns.
ghost use Rattle.std.specs.Prelude.{◌≡◌};
ghost use Rattle.file_table.specs.Table.{table_of, accepts};

use crate::{MAX_VF, VF, table_ok};

const NO_FILE: VF = VF {
    id: 0,
    slot: 0,
    vstart: 0,
    src: 0,
    ssize: 0,
    vsize: 0,
};

// Does a start take the table with these columns and this first session cluster. Columns of different lengths are those of no table.
pub fn columns_ok(ids: &[u16], slots: &[u16], starts: &[u16], sizes: &[u32], first: u32) -> bool
    ensures { result ≡ accepts (table_of ids.now slots.now starts.now sizes.now first) }
{
    if slots.len() != ids.len() {
        return false;
    }
    if starts.len() != ids.len() {
        return false;
    }
    if sizes.len() != ids.len() {
        return false;
    }
    if MAX_VF < ids.len() {
        return false;
    }
    let mut files = [NO_FILE; MAX_VF];
    for j in 0..ids.len() {
        files[j] = VF {
            id: ids[j],
            slot: slots[j],
            vstart: starts[j],
            src: 0,
            ssize: 0,
            vsize: sizes[j],
        };
    }
    table_ok(&files[..ids.len()], first)
}
