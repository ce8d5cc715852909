// The mode, and the bus resets that put it in force.
ghost use Rattle.std.specs.Prelude.{◌≡◌};
ghost use Rattle.release.specs.Release.{EndsBy, answered};
ghost use Rattle.sessions.specs.Calls.{AsksMode, SetsMode};
ghost use Rattle.sessions.specs.Sessions.{read_only, read_only_pending, bus_reset_call};

use file_table::VF;
use refusals::Refusal;
use release::{Ended, release_all};
use state::w::W;

// Ask for the read-only drive, or the one that can be written.
pub fn set_read_only(w: &mut W, on: bool)
    ensures { AsksMode on w.old w.new }
{
    w.want_rw = !on;
}

// The mode in force, and the one asked for.
pub fn read_only(w: &W) -> bool
    ensures { result ≡ read_only w.now }
{
    !w.rw
}

pub fn read_only_pending(w: &W) -> bool
    ensures { result ≡ read_only_pending w.now }
{
    !w.want_rw
}

// The mode that was asked for is in force.
pub fn mode_reset(w: &mut W)
    ensures { SetsMode w.old w.new }
{
    w.rw = w.want_rw;
}

// A bus reset: the session is released first.
pub fn on_bus_reset(w: &mut W, files: &mut [VF], fat: &[u16], area: &[u8]) -> Result<Ended, Refusal>
    ensures { EndsBy bus_reset_call fat.now area.now w.old files.old (answered result) w.new files.new }
{
    let ended = release_all(w, files, fat, area, true)?;
    mode_reset(w);
    Ok(ended)
}
