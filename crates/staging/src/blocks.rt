// The block that a staged sector goes to.
ghost use Rattle.std.specs.Prelude.{◌≡◌, ℕ, ◌+◌, ◌*◌, ◌/◌, ◌<◌, ◌≤◌};
ghost use Rattle.loops.specs.Loops.{pick};
ghost use Rattle.bits.specs.Bit.{bit};
ghost use Rattle.medium.specs.Medium.{block_of};
ghost use Rattle.medium.specs.MediumLaws.{InArea};
ghost use Rattle.staging.specs.Lent.{HeldIn};
ghost use Rattle.staging.specs.Blocks.{is_parked, held_for, clear_bit, holding_st, written_st};
ghost use Rattle.staging.specs.Blocks.{new_sector, new_block, source_block, filled_block, put_part, area_with};

use medium::blocks::BLK;
use sector::Sector;
use state::w::St;

// Is the block of sector `s` parked.
pub fn is_parked(slot: &St, s: u32) -> bool
    requires { s < 64 }
    ensures { result ≡ is_parked slot.now s }
{
    bits::test_u16(slot.ro as u16, s / 8)
}

// The block held for sector `s`, 0 where none is.
pub fn held_for(slot: &St, s: u32) -> u16
    requires { s < 64 }
    ensures { result ≡ held_for slot.now s }
{
    let j = (s / 8) as usize;
    slot.blk[j]
}

// Bit `j` cleared.
pub fn clear_bit(number: u8, j: u32) -> u8
    requires { j < 8 }
    ensures { result ≡ clear_bit number j }
{
    if bits::test_u16(number as u16, j) {
        return number - (1 << j);
    }
    number
}

// Sector `s` is written.
pub fn mark_written(slot: &mut St, s: u32)
    requires { s < 64 }
    ensures { slot.new ≡ written_st slot.old s }
{
    slot.map = bits::set_u64(slot.map, s);
}

// Sector `s` is written, and the block is held for it, not parked.
pub fn hold_block(slot: &mut St, s: u32, block: u16)
    requires { s < 64 }
    ensures { slot.new ≡ holding_st slot.old s block }
{
    let j = s / 8;
    mark_written(slot, s);
    slot.ro = clear_bit(slot.ro, j);
    slot.blk[j as usize] = block;
}

// The sector put into a block, through the part of the data area that starts at its place.
pub fn put_sector(area: &mut [u8], block: usize, at: usize, written: &Sector)
    requires { InArea area.old block × (at + 512 ≤ 4096) }
    ensures { area.new ≡ area_with area.old block (put_part (block_of area.old block) at written.now) }
{
    let from = (block - 2) * BLK + at;
    let end = from + 512;
    area[from..end].copy_from_slice(written);
}

// What sector `place` of a new block is filled with: 0x00 where the host wrote zeros before, 0xFF elsewhere.
fn new_byte(slot: &St, s: u32, place: u32) -> u8
    requires { (s < 64) × (place < 8) }
    ensures { result ≡ pick (bit slot.now.map (s / 8 * 8 + place)) 0x00 0xFF }
{
    if bits::test_u64(slot.map, s / 8 * 8 + place) {
        return 0x00;
    }
    0xFF
}

fn new_sector(area: &mut [u8], block: usize, slot: &St, s: u32, place: u32)
    requires { InArea area.old block × (s < 64) × (place < 8) }
    ensures { area.new ≡ area_with area.old block (put_part (block_of area.old block) (place * 512) (new_sector slot.now s place)) }
{
    let from = (block - 2) * BLK + place as usize * 512;
    let end = from + 512;
    let byte = new_byte(slot, s, place);
    area[from..end].fill(byte);
}

// A new block.
fn new_block(area: &mut [u8], block: usize, slot: &St, s: u32)
    requires { InArea area.old block × (s < 64) }
    ensures { area.new ≡ area_with area.old block (new_block slot.now s) }
{
    for place in 0..8 {
        new_sector(area, block, slot, s, place);
    }
}

// The bytes of another block, put into a block.
fn copy_block(area: &mut [u8], block: usize, other: usize)
    requires { InArea area.old block × InArea area.old other }
    ensures { area.new ≡ area_with area.old block (block_of area.old other) }
{
    let to = (block - 2) * BLK;
    let from = (other - 2) * BLK;
    let end = from + BLK;
    area.copy_within(from..end, to);
}

// What the sector is put into: a new block where none is held, else the bytes of the held one.
fn source_block(area: &mut [u8], block: usize, slot: &St, s: u32)
    requires { InArea area.old block × (s < 64) × HeldIn area.old slot.now s }
    ensures { area.new ≡ area_with area.old block (source_block area.old slot.now s) }
{
    let held = held_for(slot, s) as usize;
    if held == 0 {
        new_block(area, block, slot, s);
        return;
    }
    if held != block {
        copy_block(area, block, held);
    }
}

// The sector put into a block, over what the block held for it has.
pub fn fill_block(area: &mut [u8], block: usize, slot: &St, s: u32, written: &Sector)
    requires { InArea area.old block × (s < 64) × HeldIn area.old slot.now s }
    ensures { area.new ≡ area_with area.old block (filled_block area.old slot.now s written.now) }
{
    source_block(area, block, slot, s);
    let at = (s % 8) as usize * 512;
    put_sector(area, block, at, written);
}
