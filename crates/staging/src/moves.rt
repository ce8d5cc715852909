// Files that staged data names.
ghost use Rattle.std.specs.Prelude.{◌≡◌, ◌&&◌, not, map};
ghost use Rattle.bits.specs.Bit.{bit};
ghost use Rattle.vdisk.specs.Ids.{turned};
ghost use Rattle.file_table.specs.Files.{id_of, start_of, size_of, with_ids};
ghost use Rattle.slots.specs.Slots.{refers_to};
ghost use Rattle.staging.specs.Staging.{moved_ids, table_write};

use file_table::VF;
use sector::Sector;
use slots::refers::refers;
use vdisk::ids::{MOVED, TURNED};

// A turned file that the data names, and that isn't moved yet.
fn becomes_moved(file: &VF, written: &Sector) -> bool
    ensures { result ≡ (turned file.now.id && not (bit file.now.id 15) && refers_to written.now file.now.vstart file.now.vsize) }
{
    bits::test_u16(file.id, TURNED)
        && !bits::test_u16(file.id, MOVED)
        && refers(written, file.vstart, file.vsize)
}

// Non-zero data marks the files that it names.
pub fn mark_moved(files: &mut [VF], written: &Sector)
    ensures { files.new ≡ with_ids files.old (moved_ids (table_write (map id_of files.old) (map start_of files.old) (map size_of files.old) written.now)) }
{
    if sector::is_zero(written) {
        return;
    }
    for j in 0..files.len() {
        if becomes_moved(&files[j], written) {
            files[j].id = bits::set_u16(files[j].id, MOVED);
        }
    }
}
