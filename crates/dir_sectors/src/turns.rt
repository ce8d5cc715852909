// Which files the slots of a written directory sector turn.
ghost use Rattle.std.specs.Prelude.{◌≡◌, ◌&&◌, ℕ, ◌<◌, ◌≤◌, List, not, eqb, length};
ghost use Rattle.vdisk.specs.Ids.{turned, id_dir_of};
ghost use Rattle.file_table.specs.Table.{max_files};
ghost use Rattle.dir_sectors.specs.Dir.{dir_in, row_of, turned_by};
ghost use Rattle.dir_sectors.specs.Turned.{TurnsOf};

use crate::marks::Turns;
use file_table::{MAX_VF, VF};
use refusals::Refusal;
use sector::Sectors;
use slots::dates::{dates_only, is_turn, same_slot};
use vdisk::ids::{TURNED, id_dir};

// Is the row an unturned file of directory `k` and its slot `n`.
fn is_file_at(f: VF, k: u16, n: u32) -> bool
    ensures { result ≡ (eqb (id_dir_of f.id) k && eqb f.slot n && not (turned f.id)) }
{
    if f.slot as u32 != n {
        return false;
    }
    if id_dir(f.id) != k {
        return false;
    }
    !bits::test_u16(f.id, TURNED)
}

// The first such row, whichever sectors hold the slot.
fn row_of(files: &[VF], k: u16, n: u32) -> Option<usize>
    ensures { (s : ℕ) (shown written : List ℕ) → result ≡ row_of (dir_in files.now k s shown written) n }
{
    for j in 0..files.len() {
        if is_file_at(files[j], k, n) {
            return Some(j);
        }
    }
    None
}

// The file that slot `i` of the sector turns.
fn turned_by(files: &[VF], k: u16, s: u32, sectors: Sectors, i: u32) -> Option<usize>
    requires { (s < 64) × (i < 16) }
    ensures { result ≡ turned_by (dir_in files.now k s sectors.entry.shown.now sectors.entry.written.now) i }
{
    if 3 <= k {
        return None;
    }
    let shown = sectors.shown;
    let written = sectors.written;
    if !is_turn(shown, written, i as usize * 32) {
        return None;
    }
    row_of(files, k, s * 16 + i)
}

// Each slot passes unchanged, by its dates or by a turn.
pub(crate) fn slot_turns(files: &[VF], k: u16, s: u32, sectors: Sectors) -> Result<Turns, Refusal>
    requires { (length files.now ≤ max_files) × (s < 64) }
    ensures { TurnsOf (dir_in files.now k s sectors.entry.shown.now sectors.entry.written.now) result }
{
    let shown = sectors.shown;
    let written = sectors.written;
    let mut rows = [0u8; MAX_VF];
    let mut any = false;
    let mut from = MAX_VF;
    let mut end = 0usize;
    for i in 0..16 {
        if same_slot(shown, written, i as usize * 32) {
            continue;
        }
        let Some(j) = turned_by(files, k, s, sectors, i) else {
            if !dates_only(shown, written, i as usize * 32) {
                return Err(Refusal::DirectorySlot);
            }
            continue;
        };
        rows[j] = 1;
        any = true;
        from = from.min(j);
        end = end.max(j + 1);
    }
    Ok(Turns {
        any,
        from,
        end,
        rows,
    })
}
