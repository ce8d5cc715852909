// A written FAT sector: whether it is taken, and what a taken one changes.
ghost use Rattle.std.specs.Prelude.{◌≡◌, ◌+◌, ◌<◌, ◌≤◌, eqb, map, length, get_or};
ghost use Rattle.loops.specs.Loops.{pick};
ghost use Rattle.loops.specs.Rows.{rows as rows_of};
ghost use Rattle.bits.specs.Bit.{set_bit};
ghost use Rattle.file_table.specs.Files.{id_of, with_ids};
ghost use Rattle.file_table.specs.Table.{max_files};
ghost use Rattle.refusals.specs.Refusals.{told};
ghost use Rattle.fat_sectors.specs.Fat.{fat_in, fat_number, fat_state, fat_ids};

use crate::fat_sector::FatSector;
use file_table::owner::Files;
use file_table::{MAX_VF, VF};
use refusals::Refusal;
use sector::{Sector, Sectors, le16};
use slots::dates::same_slot;
use state::w::W;
use vdisk::ids::FREED;

// So many bytes of a sector differ at most where few entries do.
const FEW_BYTES: u16 = 4;

fn freed_id(mark: u8, id: u16) -> u16
    ensures { result ≡ pick (eqb mark 1) (set_bit id 13) id }
{
    if mark == 1 {
        return bits::set_u16(id, FREED);
    }
    id
}

// The rows that the sector frees are marked.
fn mark_freed(files: &mut [VF], rows: &[u8; MAX_VF])
    requires { length files.old ≤ max_files }
    ensures { files.new ≡ with_ids files.old (rows_of (λ j id. pick (eqb (get_or rows.now j 0) 1) (set_bit id 13) id) (map id_of files.old)) }
{
    for j in 0..files.len() {
        files[j].id = freed_id(rows[j], files[j].id);
    }
}

// How many of the 128 bytes from `at` on differ. A count in 8 bits holds them, and the compiler adds many of those at once.
fn differing_from(shown: &Sector, written: &Sector, at: usize) -> u8
    requires { at + 128 ≤ 512 }
    ensures { result ≤ 128 }
{
    let mut differing = 0u8;
    for i in at..at + 128 {
        if shown[i] != written[i] {
            differing += 1;
        }
    }
    differing
}

// The first entry of a block that differs, 16 where none does.
fn first_differing(shown: &Sector, written: &Sector, block: usize) -> u32
    requires { block < 16 }
    ensures { result ≤ 16 }
{
    for i in 0..16 {
        let at = block * 32 + i * 2;
        if le16(shown, at) != le16(written, at) {
            return i as u32;
        }
    }
    16
}

// Does the first changed entry lie before the first session cluster: the sector is refused for it, without a search. FAT[1] may be taken, and others after it.
fn starts_fixed(first: u32, s: u32, sectors: Sectors) -> bool
    requires { s < 254 }
{
    if first <= s * 256 {
        return false;
    }
    let shown = sectors.shown;
    let written = sectors.written;
    for block in 0..16 {
        if !same_slot(shown, written, block * 32) {
            let c = s * 256 + block as u32 * 16 + first_differing(shown, written, block);
            return c != 1 && c < first;
        }
    }
    false
}

// Does a search from the last row end there for each entry of the sector.
fn is_past(files: &[VF], s: u32) -> bool
    requires { s < 254 }
{
    match files.last() {
        Some(last) => last.vstart as u32 <= s * 256,
        None => true,
    }
}

// The table as it is searched for the entries of a sector: row by row for a few, and where no search is made or each ends at once, since telling whether the starts rise looks at
// every row.
fn table_for<'a>(files: &'a [VF], first: u32, s: u32, sectors: Sectors) -> Files<'a>
    requires { s < 254 }
    ensures same_rows { result.rows.now ≡ files.now }
    ensures same_first { result.first ≡ first }
{
    if is_past(files, s) || starts_fixed(first, s, sectors) {
        return Files::by_rows(files, first);
    }
    let shown = sectors.shown;
    let written = sectors.written;
    let mut differing = 0u16;
    for quarter in 0..4 {
        differing += differing_from(shown, written, quarter * 128) as u16;
    }
    if differing <= FEW_BYTES {
        return Files::by_rows(files, first);
    }
    Files::new(files, first)
}

// A written FAT sector: what its entries set in the state, and the marks of the files that it frees, where it is taken.
pub fn fat(w: &mut W, files: &mut [VF], s: u32, sectors: Sectors) -> Result<(), Refusal>
    requires { (s < 254) × (length files.old ≤ max_files) }
    ensures number { told result ≡ fat_number (fat_in files.old w.old s sectors.entry.shown.now sectors.entry.written.now) }
    ensures state { w.new ≡ fat_state (fat_in files.old w.old s sectors.entry.shown.now sectors.entry.written.now) w.old }
    ensures table { files.new ≡ with_ids files.old (fat_ids (fat_in files.old w.old s sectors.entry.shown.now sectors.entry.written.now)) }
{
    // The pairs as they are before the sector is applied: those tell which files are live.
    let pair = w.pair;
    let table = table_for(files, w.first, s, sectors);
    let sector = FatSector {
        files: table,
        pair: &pair,
        s,
        sectors,
    };
    let gathered = sector.gather()?;
    sector.apply(&gathered, w);
    mark_freed(files, &gathered.rows);
    Ok(())
}
