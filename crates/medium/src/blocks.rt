// The medium's blocks.
ghost use Rattle.std.specs.Prelude.{◌≡◌, ℕ, ◌+◌, ◌-◌, ◌*◌, ◌<◌, ◌≤◌, length, Some, None};
ghost use Rattle.loops.specs.Loops.{pick};
ghost use Rattle.medium.specs.Medium.{is_medium, has_block, block_of, next_free};

// Bytes of a block.
pub const BLK: usize = 4096;

// Are these two slices a medium: 3 to 65,526 FAT entries, and a block for each after the second.
pub fn is_medium(fat: &[u16], area: &[u8]) -> bool
    ensures { result ≡ is_medium fat.now area.now }
{
    if fat.len() < 3 {
        return false;
    }
    if 65526 < fat.len() {
        return false;
    }
    area.len() == (fat.len() - 2) * BLK
}

// Is `b` the number of one of the medium's blocks.
pub fn has_block(fat: &[u16], area: &[u8], b: usize) -> bool
    ensures { result ≡ has_block fat.now area.now b }
{
    if !is_medium(fat, area) {
        return false;
    }
    if b < 2 {
        return false;
    }
    b < fat.len()
}

// The caller's own bytes of a block.
pub fn block(area: &[u8], b: usize) -> &[u8]
    requires { (2 ≤ b) × (b < 65526) × ((b - 2) * 4096 + 4096 ≤ length area.now) }
    ensures { result.now ≡ block_of area.now b }
{
    let at = (b - 2) * BLK;
    let end = at + BLK;
    &area[at..end]
}

// The free block that a search found, if it found one, and where the next search goes on.
#[derive(Clone, Copy)]
pub struct NextFree {
    pub block: Option<u16>,
    pub hint: u32,
}

// The first FAT entry of 0 from the hint.
pub fn next_free(fat: &[u16], hint: u32) -> NextFree
    requires { length fat.now ≤ 65526 }
    ensures block { result.block ≡ pick (next_free fat.now hint).found (Some (next_free fat.now hint).block) None }
    ensures hint { result.hint ≡ (next_free fat.now hint).hint }
{
    let from = hint.max(2);
    for i in from as usize..fat.len() {
        if fat[i] == 0 {
            return NextFree {
                block: Some(i as u16),
                hint: i as u32 + 1,
            };
        }
    }
    NextFree {
        block: None,
        hint: from.max(fat.len() as u32),
    }
}
