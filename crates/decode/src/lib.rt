// How a block of an update file is decoded.

#![tactic(auto)]

ghost use Rattle.std.specs.Prelude.{◌≡◌, ◌<◌};
ghost use Rattle.loops.specs.Rows.{rows};
ghost use Rattle.decode.specs.Decode.{key_at, decodes, decoded_with, decoded};

// Byte 31 is what was added.
const ADD: usize = 0x1F;

// The place of the key.
fn key_at(a: u8) -> usize
    ensures { result ≡ key_at a }
{
    if a < 128 {
        return a as usize;
    }
    a as usize / 2
}

// One byte: those at byte 31 and at the key stay.
fn decoded_byte(i: usize, b: u8, kp: usize, k: u8, a: u8) -> u8
    ensures { result ≡ decoded_with kp k a i b }
{
    if i == ADD {
        return b;
    }
    if i == kp {
        return b;
    }
    (b ^ k).wrapping_sub(a)
}

fn decode_bytes(p: &mut [u8], kp: usize, k: u8, a: u8)
    ensures { p.new ≡ rows (decoded_with kp k a) p.old }
{
    for (i, b) in p.iter_mut().enumerate() {
        *b = decoded_byte(i, *b, kp, k, a);
    }
}

// A block decoded in place. False: the key lies past its end, and it stays as it is.
pub fn decode_block(p: &mut [u8]) -> bool
    ensures answer { result ≡ decodes p.old }
    ensures bytes { p.new ≡ decoded p.old }
{
    if p.len() <= ADD {
        return true;
    }
    let a = p[ADD];
    let kp = key_at(a);
    if p.len() <= kp {
        return false;
    }
    let k = p[kp];
    decode_bytes(p, kp, k, a);
    true
}
