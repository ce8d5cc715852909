// The file table, and which tables a start takes.

#![tactic(auto)]

pub mod columns;
pub mod owner;

ghost use Rattle.std.specs.Prelude.{◌≡◌, true, ℕ, ◌<◌, ◌≤◌, map, length};
ghost use Rattle.vdisk.specs.Owner.{rises};
ghost use Rattle.file_table.specs.Files.{id_of, dir_slot_of, start_of, size_of};
ghost use Rattle.file_table.specs.TableLaws.{place_key, repeated};
ghost use Rattle.file_table.specs.Table.{max_files, all_unmarked, starts_apart, clusters_in, all_in, clusters_fit, names_apart, places_apart, columns, accepts};

use crate::owner::rising;
use vdisk::drive::{CLUSTERS, nclus};
use vdisk::ids::{clear_marks, id_dir, is_unmarked};

// Files of a table at most.
pub const MAX_VF: usize = 400;

// A file of the table. `id` holds the kind and number, and the marks; `slot` is its directory slot, `vstart` its first cluster
// and `vsize` its size on the drive; `src` and `ssize` are the first cluster and size of the file that it is made from.
#[repr(C)]
#[derive(Clone, Copy)]
pub struct VF {
    pub id: u16,
    pub slot: u16,
    pub vstart: u16,
    pub src: u16,
    pub ssize: u32,
    pub vsize: u32,
}

// Each part of the check is one loop over the rows.
fn all_unmarked(files: &[VF]) -> bool
    ensures { result ≡ all_unmarked (map id_of files.now) }
{
    files.iter().all(|f| is_unmarked(f.id))
}

// Where the starts rise, it is enough that each file ends at or before the next one's start.
fn starts_apart(files: &[VF]) -> bool
    requires { rises (map start_of files.now) ≡ true }
    ensures { result ≡ starts_apart (map start_of files.now) (map size_of files.now) }
{
    for j in 1..files.len() {
        let end = files[j - 1].vstart as u32 + nclus(files[j - 1].vsize);
        if (files[j].vstart as u32) < end {
            return false;
        }
    }
    true
}

// Do `n` clusters from `start` on lie in the session's.
fn clusters_in(first: u32, start: u32, n: u32) -> bool
    requires { (start < 65536) × (n < 131073) }
    ensures { result ≡ clusters_in first start n }
{
    if n == 0 {
        return true;
    }
    if start < first {
        return false;
    }
    start + n <= CLUSTERS + 2
}

fn all_in(files: &[VF], first: u32) -> bool
    ensures { result ≡ all_in (map start_of files.now) (map size_of files.now) first }
{
    for f in files {
        let n = nclus(f.vsize);
        if !clusters_in(first, f.vstart as u32, n) {
            return false;
        }
    }
    true
}

// Is key `j` that of an earlier file too. The search goes on after a find, so that the compiler compares many keys at once.
fn is_repeated(keys: &[u32; MAX_VF], j: usize) -> bool
    requires { j < max_files }
    ensures { result ≡ repeated keys.now j }
{
    let key = keys[j];
    let mut found = false;
    for earlier in &keys[..j] {
        if *earlier == key {
            found = true;
        }
    }
    found
}

// The keys lie beside each other, where the names lie a row apart.
fn names_apart(files: &[VF]) -> bool
    requires { length files.now ≤ max_files }
    ensures { result ≡ names_apart (map id_of files.now) }
{
    let mut keys = [0u32; MAX_VF];
    for j in 0..files.len() {
        keys[j] = clear_marks(files[j].id) as u32;
        if is_repeated(&keys, j) {
            return false;
        }
    }
    true
}

// Shown directory and slot as one number.
fn place_key(id: u16, slot: u16) -> u32
    ensures { result ≡ place_key id slot }
{
    id_dir(id) as u32 * 65536 + slot as u32
}

fn places_apart(files: &[VF]) -> bool
    requires { length files.now ≤ max_files }
    ensures { result ≡ places_apart (map id_of files.now) (map dir_slot_of files.now) }
{
    let mut keys = [0u32; MAX_VF];
    for j in 0..files.len() {
        keys[j] = place_key(files[j].id, files[j].slot);
        if is_repeated(&keys, j) {
            return false;
        }
    }
    true
}

// The conditions on starts and clusters.
fn clusters_ok(files: &[VF], first: u32) -> bool
    ensures { result ≡ clusters_fit (map start_of files.now) (map size_of files.now) first }
{
    if !rising(files) {
        return false;
    }
    if !starts_apart(files) {
        return false;
    }
    if first < 7 {
        return false;
    }
    if 65002 < first {
        return false;
    }
    all_in(files, first)
}

// Does a start take the table with this first session cluster.
pub fn table_ok(files: &[VF], first: u32) -> bool
    ensures { result ≡ accepts (columns files.now first) }
{
    if MAX_VF < files.len() {
        return false;
    }
    if !all_unmarked(files) {
        return false;
    }
    if !clusters_ok(files, first) {
        return false;
    }
    if !names_apart(files) {
        return false;
    }
    places_apart(files)
}
