// A sector of a host cluster is staged.

#![tactic(auto)]

pub mod block;
pub mod slot;

ghost use Rattle.std.specs.Prelude.{◌≡◌, ℕ, ◌<◌, false};
ghost use Rattle.file_table.specs.Files.{with_ids};
ghost use Rattle.refusals.specs.Refusals.{told, value_or};
ghost use Rattle.state.specs.Staged.{slot_of, free_slot};
ghost use Rattle.staging.specs.Staging.{stage_in, claimed, in_found, stage as stage_of};
ghost use Rattle.stage.specs.Meets.{Meets, cluster_write};

use crate::slot::in_slot;
use file_table::VF;
use refusals::Refusal;
use sector::Sector;
use staging::moves::mark_moved;
use state::staged::{free_slot, slot_of};
use state::w::{St, W};

// The first free slot is claimed for cluster `c`, else 16.
fn claimed(
    w: &mut W,
    c: u32,
    s: u32,
    written: &Sector,
    fat: &[u16],
    area: &mut [u8],
) -> Result<bool, Refusal>
    requires { (c < 65536) × (s < 64) }
    ensures { Meets (claimed (cluster_write c s written.now fat.now area.old) w.old (free_slot w.old.st)) (told result) (value_or false result) w.new area.new }
{
    let Some(free) = free_slot(&w.st) else {
        return Err(Refusal::NoStagingSlot);
    };
    w.st[free] = St {
        c: c as u16,
        ..St::unused()
    };
    in_slot(w, free, s, written, fat, area)
}

// The slot of cluster `c`, or one that is claimed.
fn in_found(
    w: &mut W,
    c: u32,
    s: u32,
    written: &Sector,
    fat: &[u16],
    area: &mut [u8],
) -> Result<bool, Refusal>
    requires { (c < 65536) × (s < 64) }
    ensures { Meets (in_found (cluster_write c s written.now fat.now area.old) w.old (slot_of w.old.st c)) (told result) (value_or false result) w.new area.new }
{
    let Some(i) = slot_of(&w.st, c) else {
        return claimed(w, c, s, written, fat, area);
    };
    in_slot(w, i, s, written, fat, area)
}

// Data for sector `s` of host cluster `c`: 19; into its slot, or one that is claimed, else 16. Told is whether that opens the session.
pub fn stage(
    w: &mut W,
    files: &mut [VF],
    c: u32,
    s: u32,
    written: &Sector,
    busy: bool,
    fat: &[u16],
    area: &mut [u8],
) -> Result<bool, Refusal>
    requires { (c < 65536) × (s < 64) }
    ensures number { told result ≡ (stage_of (stage_in c s written.now busy fat.now area.old files.old) w.old).number }
    ensures changed { value_or false result ≡ (stage_of (stage_in c s written.now busy fat.now area.old files.old) w.old).changed }
    ensures state { w.new ≡ (stage_of (stage_in c s written.now busy fat.now area.old files.old) w.old).w }
    ensures table { files.new ≡ with_ids files.old (stage_of (stage_in c s written.now busy fat.now area.old files.old) w.old).ids }
    ensures medium { area.new ≡ (stage_of (stage_in c s written.now busy fat.now area.old files.old) w.old).area }
{
    if busy {
        return Err(Refusal::Busy);
    }
    let changed = in_found(w, c, s, written, fat, area)?;
    if changed {
        mark_moved(files, written);
    }
    Ok(changed)
}
