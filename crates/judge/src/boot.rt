// A written boot sector.
ghost use Rattle.std.specs.Prelude.{◌≡◌, ◌||◌, ◌<◌, eqb, get_or};
ghost use Rattle.loops.specs.Loops.{pick};
ghost use Rattle.sector.specs.Bytes.{same_at};
ghost use Rattle.refusals.specs.Refusals.{told};
ghost use Rattle.state.specs.Setters.{with_boot};
ghost use Rattle.judge.specs.Classify.{boot_passes};

use refusals::Refusal;
use sector::{Sector, Sectors};
use state::w::W;

// The one byte that may differ: whether the drive was unmounted cleanly.
const STATE_AT: usize = 0x25;

fn byte_passes(shown: &Sector, written: &Sector, i: usize) -> bool
    requires { i < 512 }
    ensures { result ≡ (eqb i 0x25 || same_at shown.now written.now i) }
{
    if i == STATE_AT {
        return true;
    }
    shown[i] == written[i]
}

pub fn boot_passes(shown: &Sector, written: &Sector) -> bool
    ensures { result ≡ boot_passes shown.now written.now }
{
    for i in 0..512 {
        if !byte_passes(shown, written, i) {
            return false;
        }
    }
    true
}

// Only byte 0x25 may differ; it is kept.
pub fn boot(w: &mut W, sectors: Sectors) -> Result<(), Refusal>
    ensures number { told result ≡ pick (boot_passes sectors.entry.shown.now sectors.entry.written.now) 0 3 }
    ensures state { w.new ≡ pick (boot_passes sectors.entry.shown.now sectors.entry.written.now) (with_boot w.old (get_or sectors.entry.written.now 0x25 0)) w.old }
{
    let shown = sectors.shown;
    let written = sectors.written;
    if !boot_passes(shown, written) {
        return Err(Refusal::BootByte);
    }
    w.boot = written[STATE_AT];
    Ok(())
}
