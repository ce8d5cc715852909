// The entries of a long name: where they stand, and how many are read.
ghost use Rattle.std.specs.Prelude.{◌≡◌, ℕ, ◌<◌, ◌≤◌, length};
ghost use Rattle.names.specs.Names.{entry_of, char_place, char_of, ends, text_len, entries_read, entries_strict};

use records::{NREC, Rec};
use sector::Sector;

// The bytes of root slot `k`: of the sector, whose slots are those from `base` on, else of a record.
pub fn entry_at(rec: &[Rec; NREC], sector: &Sector, base: usize, k: usize) -> [u8; 32]
    ensures { result ≡ entry_of rec.now sector.now base k }
{
    if k < base {
        return records::root_rec(rec, k).unwrap_or([0u8; 32]);
    }
    let i = k - base;
    if 16 <= i {
        return records::root_rec(rec, k).unwrap_or([0u8; 32]);
    }
    let at = i * 32;
    let mut entry = [0u8; 32];
    entry.copy_from_slice(&sector[at..at + 32]);
    entry
}

fn char_place(i: usize) -> usize
    requires { i < 13 }
    ensures { result ≡ char_place i }
{
    if i < 5 {
        return 1 + i * 2;
    }
    if i < 11 {
        return 14 + (i - 5) * 2;
    }
    28 + (i - 11) * 2
}

// Character `i` of an entry.
pub fn char_at(entry: &[u8], i: usize) -> u16
    requires { (32 ≤ length entry.now) × (i < 13) }
    ensures { result ≡ char_of entry.now i }
{
    sector::le16(entry, char_place(i))
}

fn ends_name(c: u16) -> bool
    ensures { result ≡ ends c }
{
    if c == 0 {
        return true;
    }
    c == 0xFFFF
}

// How many characters stand before the end of the name in this entry, 13 where it doesn't end here.
pub fn text_len(entry: &[u8]) -> usize
    requires { 32 ≤ length entry.now }
    ensures { result ≡ text_len entry.now }
{
    for i in 0..13 {
        if ends_name(char_at(entry, i)) {
            return i;
        }
    }
    13
}

// How many entries `long_name` reads before root slot `idx`.
pub fn entries_read(rec: &[Rec; NREC], sector: &Sector, base: usize, idx: usize) -> usize
    ensures { result ≡ entries_read (entry_of rec.now sector.now base) 3 1 idx }
{
    let mut k = idx;
    for seq in 1..4 {
        if k <= 7 {
            return seq - 1;
        }
        let entry = entry_at(rec, sector, base, k - 1);
        if !slots::fields::is_long(&entry, 0) {
            return seq - 1;
        }
        if (entry[0] % 32) as usize != seq {
            return seq - 1;
        }
        if text_len(&entry) < 13 {
            return seq;
        }
        if bits::test_u16(entry[0] as u16, 6) {
            return seq;
        }
        k -= 1;
    }
    3
}

// How many entries the strict name has, 0 where they are not as they should be.
pub fn entries_strict(rec: &[Rec; NREC], sector: &Sector, base: usize, idx: usize) -> usize
    ensures { result ≡ entries_strict (entry_of rec.now sector.now base) 20 1 idx }
{
    let mut k = idx;
    for seq in 1..21 {
        if k <= 7 {
            return 0;
        }
        let entry = entry_at(rec, sector, base, k - 1);
        if !slots::fields::is_long(&entry, 0) {
            return 0;
        }
        let ordinal = entry[0] as usize;
        if ordinal == seq + 0x40 {
            return seq;
        }
        if ordinal != seq {
            return 0;
        }
        if text_len(&entry) != 13 {
            return 0;
        }
        k -= 1;
    }
    0
}
