// One pass over the staged sectors, which frees each row that waits for a sector that names it. So each sector is read once, however many rows wait.
ghost use Rattle.std.specs.Prelude.{◌≡◌, ◌&&◌, ◌+◌, ◌<◌, ◌≤◌, eqb, map, length, take};
ghost use Rattle.file_table.specs.Files.{id_of, start_of, size_of};
ghost use Rattle.file_table.specs.Table.{max_files};
ghost use Rattle.medium.specs.Reads.{sector_of};
ghost use Rattle.release.specs.Notes.{waits, note_id, noted_files, waiters, InTable, listed, has_file, by_slot, by_sector, by_cluster, by_staged};

use file_table::{MAX_VF, VF};
use medium::blocks::{block, has_block};
use slots::fields::{size, start};
use slots::refers::is_ordinary;
use state::w::{NST, St};
use vdisk::ids::{FREED, GONE, MOVED, TURNED};

// Turned and moved, neither gone nor freed.
fn is_waiting(id: u16) -> bool
    ensures { result ≡ waits id }
{
    if bits::test_u16(id, FREED) {
        return false;
    }
    if !bits::test_u16(id, TURNED) {
        return false;
    }
    if bits::test_u16(id, GONE) {
        return false;
    }
    bits::test_u16(id, MOVED)
}

// The rows that wait, and how many.
#[derive(Clone, Copy)]
struct Waiting {
    n: usize,
    rows: [u16; MAX_VF],
}

fn list_waiting(files: &[VF]) -> Waiting
    requires { length files.now ≤ max_files }
    ensures { (result.n ≤ length result.rows) × (take result.n result.rows ≡ waiters (map id_of files.now)) }
{
    let mut rows = [0; MAX_VF];
    let mut n = 0;
    for j in 0..files.len() {
        if is_waiting(files[j].id) {
            rows[n] = j as u16;
            n += 1;
        }
    }
    Waiting { n: n, rows: rows }
}

// A row that waits is freed where a slot has its start and length.
fn note_row(f: VF, slot_start: u16, slot_size: u32) -> u16
    ensures { result ≡ note_id (eqb slot_start f.vstart && eqb slot_size f.vsize) f.id }
{
    if slot_start != f.vstart {
        return f.id;
    }
    if slot_size != f.vsize {
        return f.id;
    }
    if !is_waiting(f.id) {
        return f.id;
    }
    bits::set_u16(f.id, FREED)
}

fn note_rows(files: &mut [VF], waiting: &[u16], slot_start: u16, slot_size: u32)
    requires { InTable (length files.old) waiting.now }
    ensures { files.new ≡ noted_files (listed waiting.now (has_file (map start_of files.old) (map size_of files.old) slot_start slot_size)) files.old }
{
    for row in waiting {
        let j = *row as usize;
        files[j].id = note_row(files[j], slot_start, slot_size);
    }
}

// The rows that the slot at a place names.
fn note_slot(files: &mut [VF], waiting: &[u16], d: &[u8], at: usize)
    requires { InTable (length files.old) waiting.now × (at + 32 ≤ length d.now) }
    ensures { files.new ≡ noted_files (listed waiting.now (by_slot (map start_of files.old) (map size_of files.old) d.now at)) files.old }
{
    if is_ordinary(d, at) {
        note_rows(files, waiting, start(d, at), size(d, at));
    }
}

fn note_sector(files: &mut [VF], waiting: &[u16], d: &[u8])
    requires { InTable (length files.old) waiting.now × (512 ≤ length d.now) }
    ensures { files.new ≡ noted_files (listed waiting.now (by_sector (map start_of files.old) (map size_of files.old) d.now)) files.old }
{
    for k in 0..16 {
        note_slot(files, waiting, d, k * 32);
    }
}

// The rows that sector `s` of a staged cluster names; none where it was not written or holds no block.
fn note_staged_sector(files: &mut [VF], waiting: &[u16], fat: &[u16], area: &[u8], x: &St, s: u32)
    requires { InTable (length files.old) waiting.now × (s < 64) }
    ensures { files.new ≡ noted_files (listed waiting.now (by_sector (map start_of files.old) (map size_of files.old) (sector_of fat.now area.now x.now s))) files.old }
{
    if !bits::test_u64(x.map, s) {
        return;
    }
    let j = (s / 8) as usize;
    let b = x.blk[j] as usize;
    if !has_block(fat, area, b) {
        return;
    }
    let whole = block(area, b);
    let at = (s % 8) as usize * 512;
    let end = at + 512;
    note_sector(files, waiting, &whole[at..end]);
}

fn note_cluster(files: &mut [VF], waiting: &[u16], fat: &[u16], area: &[u8], x: &St)
    requires { InTable (length files.old) waiting.now }
    ensures { files.new ≡ noted_files (listed waiting.now (by_cluster (map start_of files.old) (map size_of files.old) fat.now area.now x.now)) files.old }
{
    if x.c == 0 {
        return;
    }
    for s in 0..64 {
        note_staged_sector(files, waiting, fat, area, x, s);
    }
}

// Nothing is read where no row waits.
pub fn note_staged(files: &mut [VF], fat: &[u16], area: &[u8], st: &[St; NST])
    requires { length files.old ≤ max_files }
    ensures { files.new ≡ noted_files (by_staged (map start_of files.old) (map size_of files.old) fat.now area.now st.now) files.old }
{
    let w = list_waiting(files);
    let n = w.n;
    let waiting = w.rows;
    if n == 0 {
        return;
    }
    for x in st {
        note_cluster(files, &waiting[..n], fat, area, x);
    }
}
