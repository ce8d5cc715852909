// The mode.
ghost use Rattle.vwrite_sessions.specs.Calls.{Asks, PutsInForce, TellsMode, TellsPending};

use sessions::mode;
use state::w::W;

// Ask for the read-only drive, or the one that can be written.
#[unsafe(no_mangle)]
pub extern "C" fn vwrite_set_read_only(w: &mut W, on: bool)
    ensures { Asks on w.old w.new }
{
    mode::set_read_only(w, on);
}

// The mode that was asked for is in force.
#[unsafe(no_mangle)]
pub extern "C" fn vwrite_on_bus_reset(w: &mut W)
    ensures { PutsInForce w.old w.new }
{
    mode::mode_reset(w);
}

// The mode in force.
#[unsafe(no_mangle)]
pub extern "C" fn vwrite_read_only(w: &W) -> bool
    ensures { TellsMode w.now result }
{
    mode::read_only(w)
}

// The mode that is asked for.
#[unsafe(no_mangle)]
pub extern "C" fn vwrite_read_only_pending(w: &W) -> bool
    ensures { TellsPending w.now result }
{
    mode::read_only_pending(w)
}
