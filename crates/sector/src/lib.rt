// What is read of a sector's bytes.

#![tactic(auto)]

ghost use Rattle.std.specs.Prelude.{◌≡◌, ℕ, ◌+◌, ◌<◌, length};
ghost use Rattle.sector.specs.Bytes.{word, word32, same, zeros};

// The bytes of a sector.
pub type Sector = [u8; 512];

// A sector as it is shown and as it is written.
#[derive(Clone, Copy)]
pub struct Sectors<'a> {
    pub shown: &'a Sector,
    pub written: &'a Sector,
}

impl Sectors<'_> {
    // Is it written as it is shown.
    pub fn same(&self) -> bool
        ensures { result ≡ same self.now.shown.now self.now.written.now }
    {
        let shown = self.shown;
        let written = self.written;
        equal(shown, written)
    }
}

// The 16-bit number at `at`, low byte first.
pub fn le16(b: &[u8], at: usize) -> u16
    requires { at + 1 < length b.now }
    ensures { result ≡ word b.now at }
{
    b[at] as u16 + b[at + 1] as u16 * 256
}

// The 32-bit number at `at`, low byte first.
pub fn le32(b: &[u8], at: usize) -> u32
    requires { at + 3 < length b.now }
    ensures { result ≡ word32 b.now at }
{
    let low = le16(b, at);
    let high = le16(b, at + 2);
    low as u32 + high as u32 * 65536
}

// Are two slices of one length equal. No early exit, so that the compiler compares many bytes at once.
pub fn equal(a: &[u8], b: &[u8]) -> bool
    requires { length a.now ≡ length b.now }
    ensures { result ≡ same a.now b.now }
{
    let mut differing = 0u8;
    for (x, y) in a.iter().zip(b) {
        differing |= x ^ y;
    }
    differing == 0
}

// Are all bytes 0. No early exit, as in `equal`.
pub fn is_zero(a: &[u8]) -> bool
    ensures { result ≡ zeros a.now }
{
    let mut seen = 0u8;
    for x in a {
        seen |= x;
    }
    seen == 0
}
