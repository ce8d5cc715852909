// Who owns a cluster, by a lent table.
ghost use Rattle.std.specs.Prelude.{◌≡◌, true, ◌≤◌, map, length};
ghost use Rattle.vdisk.specs.Owner.{up_to, owner_at, owner_of, rises};
ghost use Rattle.file_table.specs.Files.{start_of, size_of};

use crate::VF;
use vdisk::drive::{CLUSTERS, nclus};
use vdisk::owner::Own;

// A lent table with its first session cluster, and whether its starts rise, as they do in every table that a start takes.
#[derive(Clone, Copy)]
pub struct Files<'a> {
    pub rows: &'a [VF],
    pub first: u32,
    sorted: bool,
    ghost rising: { sorted ≡ true → rises (map start_of rows.now) ≡ true },
}

impl<'a> Files<'a> {
    // For many lookups: whether the starts rise is looked at once.
    pub fn new(rows: &'a [VF], first: u32) -> Files<'a>
        ensures same_rows { result.rows.now ≡ rows.now }
        ensures same_first { result.first ≡ first }
    {
        let sorted = rising(rows);
        Files {
            rows,
            first,
            sorted,
        }
    }

    // For one lookup, which goes by rows from the end.
    pub fn by_rows(rows: &'a [VF], first: u32) -> Files<'a>
        ensures same_rows { result.rows.now ≡ rows.now }
        ensures same_first { result.first ≡ first }
    {
        Files {
            rows,
            first,
            sorted: false,
        }
    }

    pub fn owner(&self, c: u32) -> Own
        ensures { result ≡ owner_of (map start_of self.now.rows.now) (map size_of self.now.rows.now) self.now.first c }
    {
        if c < 2 {
            return Own::Reserved;
        }
        if CLUSTERS + 2 <= c {
            return Own::Reserved;
        }
        if c < self.first {
            return Own::Fixed;
        }
        owner_at(self.rows, self.up_to(c), c)
    }

    // One past the last file that starts at or before `c`.
    fn up_to(&self, c: u32) -> usize
        ensures { result ≡ up_to (map start_of self.now.rows.now) c }
    {
        if self.sorted {
            return up_to_by_halves(self.rows, c);
        }
        up_to_by_rows(self.rows, c)
    }
}

// Do the starts rise strictly. No early exit, so that the compiler looks at many rows at once.
pub(crate) fn rising(rows: &[VF]) -> bool
    ensures { result ≡ rises (map start_of rows.now) }
{
    let mut falls = false;
    for j in 1..rows.len() {
        if rows[j].vstart <= rows[j - 1].vstart {
            falls = true;
        }
    }
    !falls
}

// By rows from the end, in any table.
fn up_to_by_rows(rows: &[VF], c: u32) -> usize
    ensures { result ≡ up_to (map start_of rows.now) c }
{
    for j in (0..rows.len()).rev() {
        if rows[j].vstart as u32 <= c {
            return j + 1;
        }
    }
    0
}

// The same by halves.
fn up_to_by_halves(rows: &[VF], c: u32) -> usize
    requires { rises (map start_of rows.now) ≡ true }
    ensures { result ≡ up_to (map start_of rows.now) c }
{
    rows.partition_point(|f| f.vstart as u32 <= c)
}

// Of the first `n` files the last, if `c` lies before its end.
fn owner_at(rows: &[VF], n: usize, c: u32) -> Own
    requires { n ≤ length rows.now }
    ensures { result ≡ owner_at n (map start_of rows.now) (map size_of rows.now) c }
{
    if n == 0 {
        return Own::Free;
    }
    let j = n - 1;
    if c < rows[j].vstart as u32 + nclus(rows[j].vsize) {
        Own::Dyn(j)
    } else {
        Own::Free
    }
}
