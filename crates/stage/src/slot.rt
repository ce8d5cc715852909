// A sector in the slot of its cluster.
ghost use Rattle.std.specs.Prelude.{◌≡◌, ◌&&◌, ℕ, ◌<◌, false};
ghost use Rattle.sector.specs.Bytes.{same};
ghost use Rattle.refusals.specs.Refusals.{told, value_or};
ghost use Rattle.state.specs.State.{max_slots};
ghost use Rattle.medium.specs.Reads.{sector_of};
ghost use Rattle.staging.specs.Blocks.{is_parked};
ghost use Rattle.staging.specs.Staging.{start_staging, in_slot};
ghost use Rattle.stage.specs.Meets.{Meets, slot_at, slot_write};

use crate::block::on_medium;
use medium::reads::read_sector;
use refusals::Refusal;
use sector::Sector;
use staging::blocks::is_parked;
use state::w::{St, W};

// The block is parked, and the sector reads as it is written again.
pub fn same_parked(slot: &St, s: u32, written: &Sector, fat: &[u16], area: &[u8]) -> bool
    requires { s < 64 }
    ensures { result ≡ (is_parked slot.now s && same (sector_of fat.now area.now slot.now s) written.now) }
{
    if !is_parked(slot, s) {
        return false;
    }
    let mut staged = [0u8; 512];
    read_sector(fat, area, slot, s, &mut staged);
    sector::equal(&staged, written)
}

// Staging starts with search hint 2 if it was off, and its time is set.
fn start_staging(w: &mut W)
    ensures { w.new ≡ start_staging w.old }
{
    if !w.staging {
        w.staging = true;
        w.hint = 2;
    }
    w.stage_t = w.now_ms;
}

// A sector of a parked block that changes nothing is accepted unchanged; else staging goes on.
pub(crate) fn in_slot(
    w: &mut W,
    i: usize,
    s: u32,
    written: &Sector,
    fat: &[u16],
    area: &mut [u8],
) -> Result<bool, Refusal>
    requires { (i < max_slots) × (s < 64) }
    ensures { Meets (in_slot (slot_write s written.now fat.now area.old) w.old i (slot_at w.old i)) (told result) (value_or false result) w.new area.new }
{
    if same_parked(&w.st[i], s, written, fat, area) {
        return Ok(false);
    }
    start_staging(w);
    on_medium(w, i, s, written, fat, area)?;
    Ok(true)
}
