// Slots that name a file by its start and length.
ghost use Rattle.std.specs.Prelude.{◌≡◌, ℕ, ◌+◌, ◌≤◌, length};
ghost use Rattle.slots.specs.Slots.{is_ordinary, names_file, refers_to};

use crate::fields::{attr, is_long, size, start};

// First byte neither 0 nor 0xE5, no long entry, neither a label nor a directory.
pub fn is_ordinary(b: &[u8], at: usize) -> bool
    requires { at + 32 ≤ length b.now }
    ensures { result ≡ is_ordinary b.now at }
{
    if b[at] == 0 {
        return false;
    }
    if b[at] == 0xE5 {
        return false;
    }
    if is_long(b, at) {
        return false;
    }
    let a = attr(b, at);
    if bits::test_u16(a as u16, 3) {
        return false;
    }
    !bits::test_u16(a as u16, 4)
}

fn names_file(b: &[u8], file_start: u16, file_size: u32, at: usize) -> bool
    requires { at + 32 ≤ length b.now }
    ensures { result ≡ names_file b.now file_start file_size at }
{
    if !is_ordinary(b, at) {
        return false;
    }
    if start(b, at) != file_start {
        return false;
    }
    size(b, at) == file_size
}

// Does one of the 16 slots of the sector name the file.
pub fn refers(d: &[u8], file_start: u16, file_size: u32) -> bool
    requires { 512 ≤ length d.now }
    ensures { result ≡ refers_to d.now file_start file_size }
{
    (0..16).any(|i| names_file(d, file_start, file_size, i * 32))
}
