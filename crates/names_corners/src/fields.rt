// The fields of a line.
ghost use Rattle.std.specs.Prelude.{◌<◌};

// The digit at `i`, decimal or hex; 0 where there is none.
pub(crate) fn digit(line: &[u8], i: usize) -> u8
    ensures { result < 16 }
{
    let c = line.get(i).copied().unwrap_or(0);
    match c {
        b'0'..=b'9' => c - b'0',
        b'A'..=b'F' => c - 55,
        _ => 0,
    }
}

pub(crate) fn two(line: &[u8], i: usize) -> usize
    requires { i < 100 }
    ensures { result < 166 }
{
    digit(line, i) as usize * 10 + digit(line, i + 1) as usize
}

pub(crate) fn three(line: &[u8], i: usize) -> usize
    requires { i < 100 }
    ensures { result < 1666 }
{
    two(line, i) * 10 + digit(line, i + 2) as usize
}

fn byte(line: &[u8], i: usize) -> u8
    requires { i < 100 }
{
    digit(line, i) * 16 + digit(line, i + 1)
}

// The 32 bytes that the last 64 of 72 digits give.
pub(crate) fn bytes(line: &[u8]) -> [u8; 32] {
    let mut e = [0u8; 32];
    for i in 0..32 {
        e[i] = byte(line, 8 + i * 2);
    }
    e
}
