// A sector in the block of its slot.
ghost use Rattle.std.specs.Prelude.{◌≡◌, ◌&&◌, ◌||◌, ℕ, ◌<◌, true, [], eqb, is_ok};
ghost use Rattle.sector.specs.Bytes.{zeros};
ghost use Rattle.refusals.specs.Refusals.{told};
ghost use Rattle.state.specs.State.{max_slots};
ghost use Rattle.medium.specs.Medium.{is_medium, has_block};
ghost use Rattle.medium.specs.MediumLaws.{InArea};
ghost use Rattle.staging.specs.Blocks.{is_parked, held_for};
ghost use Rattle.staging.specs.Lent.{HeldIn};
ghost use Rattle.staging.specs.Staging.{put_into, into_block, with_block, on_medium};
ghost use Rattle.stage.specs.Meets.{Meets, slot_at, slot_write};

use medium::blocks::{has_block, is_medium, next_free};
use refusals::Refusal;
use sector::Sector;
use staging::blocks::{fill_block, held_for, hold_block, is_parked, mark_written};
use state::w::{St, W};

// No block is held, or a parked one: a free block is searched for.
pub fn needs_block(slot: &St, s: u32) -> bool
    requires { s < 64 }
    ensures { result ≡ (eqb (held_for slot.now s) 0 || is_parked slot.now s) }
{
    held_for(slot, s) == 0 || is_parked(slot, s)
}

// No block is held, or one of the medium's.
pub fn held_inside(slot: &St, s: u32, fat: &[u16], area: &[u8]) -> bool
    requires { s < 64 }
    ensures { result ≡ (eqb (held_for slot.now s) 0 || has_block fat.now area.now (held_for slot.now s)) }
{
    let held = held_for(slot, s);
    held == 0 || has_block(fat, area, held as usize)
}

// Zeros of a block that is not held take no block.
pub fn takes_none(slot: &St, s: u32, written: &[u8]) -> bool
    requires { s < 64 }
    ensures { result ≡ (eqb (held_for slot.now s) 0 && zeros written.now) }
{
    held_for(slot, s) == 0 && sector::is_zero(written)
}

// The sector put into a block, which is held from now on.
fn put_into(w: &mut W, i: usize, block: u16, s: u32, written: &Sector, area: &mut [u8])
    requires place { (i < max_slots) × (s < 64) }
    requires inside { InArea area.old block × HeldIn area.old (slot_at w.old i) s }
    ensures state { w.new ≡ (put_into (slot_write s written.now [] area.old) w.old i (slot_at w.old i) block).w }
    ensures medium { area.new ≡ (put_into (slot_write s written.now [] area.old) w.old i (slot_at w.old i) block).area }
{
    fill_block(area, block as usize, &w.st[i], s, written);
    hold_block(&mut w.st[i], s, block);
    w.ver = w.ver.wrapping_add(1);
}

// A held number outside the medium is 17.
fn into_block(
    w: &mut W,
    i: usize,
    block: u16,
    s: u32,
    written: &Sector,
    fat: &[u16],
    area: &mut [u8],
) -> Result<(), Refusal>
    requires place { (i < max_slots) × (s < 64) }
    requires inside { (eqb (held_for (slot_at w.old i) s) 0 || has_block fat.now area.old (held_for (slot_at w.old i) s)) ≡ true → InArea area.old block }
    ensures { Meets (into_block (slot_write s written.now fat.now area.old) w.old i (slot_at w.old i) block) (told result) (is_ok result) w.new area.new }
{
    if !held_inside(&w.st[i], s, fat, area) {
        return Err(Refusal::Medium);
    }
    put_into(w, i, block, s, written, area);
    Ok(())
}

// The first free block from the hint if there is no block or it is parked, else 18.
fn with_block(
    w: &mut W,
    i: usize,
    s: u32,
    written: &Sector,
    fat: &[u16],
    area: &mut [u8],
) -> Result<(), Refusal>
    requires place { (i < max_slots) × (s < 64) }
    requires medium { is_medium fat.now area.old ≡ true }
    ensures { Meets (with_block (slot_write s written.now fat.now area.old) w.old i (slot_at w.old i)) (told result) (is_ok result) w.new area.new }
{
    if !needs_block(&w.st[i], s) {
        let held = held_for(&w.st[i], s);
        return into_block(w, i, held, s, written, fat, area);
    }
    let search = next_free(fat, w.hint);
    w.hint = search.hint;
    let Some(block) = search.block else {
        return Err(Refusal::NoBlock);
    };
    into_block(w, i, block, s, written, fat, area)
}

// Zeros of a block that is not held take no block; 17 of no medium.
pub(crate) fn on_medium(
    w: &mut W,
    i: usize,
    s: u32,
    written: &Sector,
    fat: &[u16],
    area: &mut [u8],
) -> Result<(), Refusal>
    requires { (i < max_slots) × (s < 64) }
    ensures { Meets (on_medium (slot_write s written.now fat.now area.old) w.old i (slot_at w.old i)) (told result) (is_ok result) w.new area.new }
{
    if takes_none(&w.st[i], s, written) {
        mark_written(&mut w.st[i], s);
        w.ver = w.ver.wrapping_add(1);
        return Ok(());
    }
    if !is_medium(fat, area) {
        return Err(Refusal::Medium);
    }
    with_block(w, i, s, written, fat, area)
}
