// A written FAT sector with all that it is judged by.
ghost use Rattle.std.specs.Prelude.{◌<◌, ◌≤◌, length};
ghost use Rattle.file_table.specs.Table.{max_files};

use file_table::owner::Files;
use sector::Sectors;
use state::w::{NPAIR, Pair};

// The table, the pairs, the sector's number, and the sector as shown and as written.
#[derive(Clone, Copy)]
pub(crate) struct FatSector<'a> {
    pub files: Files<'a>,
    pub pair: &'a [Pair; NPAIR],
    pub s: u32,
    pub sectors: Sectors<'a>,
    ghost few: { length files.rows.now ≤ max_files },
    ghost sector: { s < 254 },
}
