// The text of a name, its first 32 characters.
ghost use Rattle.std.specs.Prelude.{◌≡◌, ◌++◌, [], map, ℕ, ◌+◌, ◌-◌, ◌<◌, ◌≤◌, length, take, drop};
ghost use Rattle.loops.specs.Loops.{listed};
ghost use Rattle.names.specs.Names.{entry_of, char_of, text_of, joined, shown_char, unblanked, short_name, name_by};
ghost use Rattle.names.specs.Held.{held};

use crate::entries::{char_at, entry_at, text_len};
use records::{NREC, Rec};
use sector::Sector;

// The first `len` of the characters count.
#[derive(Clone, Copy)]
pub struct Name {
    pub chars: [u8; 32],
    pub len: usize,
}

pub fn empty() -> Name
    ensures { (result.len ≡ 0) × (held result ≡ []) }
{
    Name {
        chars: [0u8; 32],
        len: 0,
    }
}

// A character as the name shows it: lower case, and `?` from 0x80 up.
fn shown_char(c: u16) -> u8
    ensures { result ≡ shown_char c }
{
    if c < 0x80 {
        return slots::fields::lower((c % 256) as u8);
    }
    b'?'
}

// The text of one entry added.
fn with_text(name: Name, entry: &[u8; 32]) -> Name
    requires { name.len ≤ 32 }
    ensures { (result.len ≤ 32) × (held result ≡ take 32 (held name ++ map shown_char (text_of entry.now))) }
{
    let n = text_len(entry);
    let mut out = name;
    for i in 0..n {
        let k = out.len;
        if 32 <= k {
            return out;
        }
        out.chars[k] = shown_char(char_at(entry, i));
        out.len = k + 1;
    }
    out
}

// The text of the `m` entries before root slot `idx`.
pub fn long_text(rec: &[Rec; NREC], sector: &Sector, base: usize, idx: usize, m: usize) -> Name
    requires { m ≤ idx }
    ensures { (result.len ≤ 32) × (held result ≡ take 32 (map shown_char (joined (entry_of rec.now sector.now base) idx m))) }
{
    let mut out = empty();
    for s in 0..m {
        let entry = entry_at(rec, sector, base, idx - (s + 1));
        out = with_text(out, &entry);
    }
    out
}

// The bytes from `at` on to `end` that are no blanks, in lower case, put behind the first `n` characters while there is room; how many there are then.
fn put_part(chars: &mut [u8], n: usize, bytes: &[u8], at: usize, end: usize) -> usize
    requires { (length chars.old ≡ 32) × (n ≤ 32) × (at ≤ end) × (end ≤ length bytes.now) }
    ensures room { (result ≤ 32) × (result ≤ n + (end - at)) × (length chars.new ≡ 32) }
    ensures text { take result chars.new ≡ take 32 (take n chars.old ++ unblanked (take (end - at) (drop at bytes.now))) }
{
    let mut m = n;
    for &c in &bytes[at..end] {
        if c == b' ' {
            continue;
        }
        if 32 <= m {
            return m;
        }
        chars[m] = slots::fields::lower(c);
        m += 1;
    }
    m
}

// The short name of the slot at `at`, with its dot.
pub fn short_text(sector: &[u8], at: usize) -> Name
    requires { at + 32 ≤ length sector.now }
    ensures { (result.len ≤ 32) × (held result ≡ take 32 (short_name sector.now at)) }
{
    let mut chars = [0u8; 32];
    let dot = at + 8;
    let n = put_part(&mut chars, 0, sector, at, dot);
    if sector[dot] == b' ' {
        return Name {
            chars: chars,
            len: n,
        };
    }
    chars[n] = b'.';
    let m = put_part(&mut chars, n + 1, sector, dot, at + 11);
    Name {
        chars: chars,
        len: m,
    }
}

// The name of root slot `idx` with `m` long entries; with no character in them the short name.
pub fn name_by(rec: &[Rec; NREC], sector: &Sector, base: usize, idx: usize, m: usize) -> Name
    requires { (m ≤ idx) × (base ≤ idx) × (idx < base + 16) }
    ensures { (result.len ≤ 32) × (held result ≡ name_by (entry_of rec.now sector.now base) sector.now base idx m) }
{
    if m == 0 {
        return short_text(sector, (idx - base) * 32);
    }
    let long = long_text(rec, sector, base, idx, m);
    let n = long.len;
    if n == 0 {
        return short_text(sector, (idx - base) * 32);
    }
    long
}
