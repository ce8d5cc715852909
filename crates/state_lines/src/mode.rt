// The lines of the mode. They answer nothing.
ghost use Rattle.std.specs.Prelude.{◌≡◌, not};
ghost use Rattle.session_lines.specs.Steps.{silent_step, session_of};
ghost use Rattle.sessions.specs.Sessions.{set_read_only, mode_reset};

use crate::fields::value;
use session_lines::session::{Session, Step, with_state};
use sessions::mode;

// The read-only drive is asked for, or the one that can be written.
fn ask(s: Session, on: bool) -> Step
    ensures { result ≡ silent_step (session_of (set_read_only s.w on) s.t s.m) }
{
    let mut w = s.w;
    mode::set_read_only(&mut w, on);
    with_state(s, w)
}

// `set_read_only 0|1`
pub fn set_read_only(s: Session, line: &[u8]) -> Option<Step> {
    Some(ask(s, value(line, 1)? == 1))
}

// `bus_reset_w`: vwrite's bus reset.
pub fn bus_reset_w(s: Session) -> Step
    ensures { result ≡ silent_step (session_of (mode_reset s.w) s.t s.m) }
{
    let mut w = s.w;
    mode::mode_reset(&mut w);
    with_state(s, w)
}

// Asked for, and in force.
fn switch(s: Session, writable: bool) -> Step
    ensures { result ≡ silent_step (session_of (mode_reset (set_read_only s.w (not writable))) s.t s.m) }
{
    let mut asked = s.w;
    mode::set_read_only(&mut asked, !writable);
    let mut w = asked;
    mode::mode_reset(&mut w);
    with_state(s, w)
}

// `rw 0|1`
pub fn rw(s: Session, line: &[u8]) -> Option<Step> {
    Some(switch(s, value(line, 1)? == 1))
}
