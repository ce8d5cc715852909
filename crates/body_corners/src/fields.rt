// The numbers of a line.
ghost use Rattle.std.specs.Prelude.{◌<◌};

// A blank counts as 0.
fn digit(line: &[u8], i: usize) -> u64
    ensures { result < 10 }
{
    match line.get(i) {
        Some(c) if b'0' <= *c => ((*c - b'0') % 10) as u64,
        _ => 0,
    }
}

// The number in columns `from` to `end`.
pub(crate) fn field(line: &[u8], from: usize, end: usize) -> u32 {
    let mut n = 0u64;
    for i in from..end {
        n = (n * 10 + digit(line, i)) % 4294967296;
    }
    n as u32
}
