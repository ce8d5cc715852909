// What is read of staged sectors.
ghost use Rattle.std.specs.Prelude.{◌≡◌, ℕ, ◌+◌, ◌-◌, ◌*◌, ◌<◌, ◌≤◌, false, length, take, drop};
ghost use Rattle.loops.specs.Loops.{pick};
ghost use Rattle.bits.specs.Bit.{bit};
ghost use Rattle.slots.specs.Slots.{refers_to};
ghost use Rattle.refusals.specs.Refusals.{told, value_or};
ghost use Rattle.medium.specs.Medium.{block_of};
ghost use Rattle.medium.specs.Reads.{held_block, sector_of, staged_answer, staged_bytes, slot_names, moved_ref};

use crate::blocks::{block, has_block};
use refusals::Refusal;
use state::w::{NST, St};

// Sector `q` of a block, as the caller's own bytes.
fn block_sector(area: &[u8], b: usize, q: usize) -> &[u8]
    requires { (2 ≤ b) × (b < 65526) × ((b - 2) * 4096 + 4096 ≤ length area.now) × (q < 8) }
    ensures { (result.now ≡ take 512 (drop (q * 512) (block_of area.now b))) × (length result.now ≡ 512) }
{
    let whole = block(area, b);
    let at = q * 512;
    let end = at + 512;
    &whole[at..end]
}

// The block that a slot holds for sector `s`, 0 where the sector was not written.
fn held_block(x: &St, s: u32) -> usize
    requires { s < 64 }
    ensures { result ≡ pick (bit x.now.map s) (held_block x.now s) 0 }
{
    if !bits::test_u64(x.map, s) {
        return 0;
    }
    let j = (s / 8) as usize;
    x.blk[j] as usize
}

// Sector `s` of a staged cluster into `out`.
pub fn read_sector(fat: &[u16], area: &[u8], x: &St, s: u32, out: &mut [u8])
    requires { (s < 64) × (length out.old ≡ 512) }
    ensures { out.new ≡ sector_of fat.now area.now x.now s }
{
    let b = held_block(x, s);
    if !has_block(fat, area, b) {
        out.fill(0);
        return;
    }
    let part = block_sector(area, b, (s % 8) as usize);
    out.copy_from_slice(part);
}

// Sector `s` of cluster `c` if the host wrote data there, zeros where it wrote none. Says whether the cluster is staged.
pub fn staged_read(
    st: &[St; NST],
    fat: &[u16],
    area: &[u8],
    c: u32,
    s: u32,
    out: &mut [u8],
) -> Result<bool, Refusal>
    ensures number { told result ≡ (staged_answer st.now c s out.old).no }
    ensures staged { value_or false result ≡ (staged_answer st.now c s out.old).staged }
    ensures bytes { out.new ≡ staged_bytes fat.now area.now st.now c s out.old }
{
    if out.len() != 512 {
        return Err(Refusal::SectorLength);
    }
    if 64 <= s {
        return Err(Refusal::PastTheEnd);
    }
    let Some(i) = state::staged::slot_of(st, c) else {
        return Ok(false);
    };
    read_sector(fat, area, &st[i], s, out);
    Ok(true)
}

// Does sector `s` of a staged cluster hold an ordinary slot with that start and length.
fn sector_names(fat: &[u16], area: &[u8], x: &St, s: u32, start: u16, size: u32) -> bool
    requires { s < 64 }
    ensures { result ≡ refers_to (sector_of fat.now area.now x.now s) start size }
{
    let b = held_block(x, s);
    if !has_block(fat, area, b) {
        return false;
    }
    slots::refers::refers(block_sector(area, b, (s % 8) as usize), start, size)
}

fn slot_names(fat: &[u16], area: &[u8], x: &St, start: u16, size: u32) -> bool
    ensures { result ≡ slot_names fat.now area.now x.now start size }
{
    if x.c == 0 {
        return false;
    }
    for s in 0..64 {
        if sector_names(fat, area, x, s, start, size) {
            return true;
        }
    }
    false
}

// Does any staged sector.
pub fn moved_ref(fat: &[u16], area: &[u8], st: &[St; NST], start: u16, size: u32) -> bool
    ensures { result ≡ moved_ref fat.now area.now st.now start size }
{
    for x in st {
        if slot_names(fat, area, x, start, size) {
            return true;
        }
    }
    false
}
