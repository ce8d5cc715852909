// The fields of a slot.
ghost use Rattle.std.specs.Prelude.{◌≡◌, ℕ, ◌+◌, ◌≤◌, length};
ghost use Rattle.slots.specs.Text.{lower_of};
ghost use Rattle.slots.specs.Slots.{attr_of, is_long, high_of, start_of, size_of, letter_at, update_name};

// The attribute byte.
pub fn attr(b: &[u8], at: usize) -> u8
    requires { at + 32 ≤ length b.now }
    ensures { result ≡ attr_of b.now at }
{
    b[at + 0x0B]
}

// A long entry, told under the mask 0x3F.
pub fn is_long(b: &[u8], at: usize) -> bool
    requires { at + 32 ≤ length b.now }
    ensures { result ≡ is_long b.now at }
{
    attr(b, at) % 0x40 == 0x0F
}

// The word that FAT32 takes for the start's upper half.
pub fn high(b: &[u8], at: usize) -> u16
    requires { at + 32 ≤ length b.now }
    ensures { result ≡ high_of b.now at }
{
    sector::le16(b, at + 0x14)
}

pub fn start(b: &[u8], at: usize) -> u16
    requires { at + 32 ≤ length b.now }
    ensures { result ≡ start_of b.now at }
{
    sector::le16(b, at + 0x1A)
}

pub fn size(b: &[u8], at: usize) -> u32
    requires { at + 32 ≤ length b.now }
    ensures { result ≡ size_of b.now at }
{
    sector::le32(b, at + 0x1C)
}

// An ASCII letter in lower case.
pub fn lower(c: u8) -> u8
    ensures { result ≡ lower_of c }
{
    if c < b'A' {
        return c;
    }
    if b'Z' < c {
        return c;
    }
    c + 32
}

// Is byte `i` of the slot's name the letter `c`, in any case.
fn letter_at(b: &[u8], at: usize, i: usize, c: u8) -> bool
    requires { (at + 32 ≤ length b.now) × (i ≤ 31) }
    ensures { result ≡ letter_at b.now at i c }
{
    lower(b[at + i]) == c
}

// DM40*.BIN in any case.
pub fn update_name(b: &[u8], at: usize) -> bool
    requires { at + 32 ≤ length b.now }
    ensures { result ≡ update_name b.now at }
{
    if !letter_at(b, at, 0, b'd') {
        return false;
    }
    if !letter_at(b, at, 1, b'm') {
        return false;
    }
    if !letter_at(b, at, 2, b'4') {
        return false;
    }
    if !letter_at(b, at, 3, b'0') {
        return false;
    }
    if !letter_at(b, at, 8, b'b') {
        return false;
    }
    if !letter_at(b, at, 9, b'i') {
        return false;
    }
    letter_at(b, at, 10, b'n')
}
