// Update files as they are stored: in 16 blocks, of which the second half is the file's first cluster.
ghost use Rattle.std.specs.Prelude.{◌<◌};

const AREA: usize = 65536;

// The stored byte at `i`: byte 31 of a block, and with it the key's place, is another in each.
fn stored(i: usize, word1: u32, word2: u32) -> u8 {
    if 12 <= i {
        return ((i % 256 * 7 + i / 128 % 256 * 5) % 256) as u8;
    }
    if 8 <= i {
        return ((word2 >> (i * 8 - 64)) % 256) as u8;
    }
    if 4 <= i {
        return ((word1 >> (i * 8 - 32)) % 256) as u8;
    }
    0
}

fn place(i: usize) -> usize
    ensures { result < 65536 }
{
    (i % AREA + AREA / 2) % AREA
}

// A file with these words at 4 and at 8.
pub(crate) fn fill(area: &mut [u8], word1: u32, word2: u32) {
    if area.len() != AREA {
        return;
    }
    for i in 0..AREA {
        area[place(i)] = stored(i, word1, word2);
    }
}

// Bits of the byte at `i` turned.
pub(crate) fn turn(area: &mut [u8], i: usize, bits: u8) {
    if area.len() != AREA {
        return;
    }
    area[place(i)] ^= bits;
}
