// The lines of these calls.
ghost use Rattle.std.specs.Prelude.{◌≡◌};
ghost use Rattle.release_lines.specs.declared.ends.Call.TheVariants.{Release, BusReset};
ghost use Rattle.release_lines.specs.Ends.{ended_step};

use crate::ends::{Call, run};
use lines::digits::number;
use session_lines::session::{Session, Step};

// `poll CLOCK BUSY MOUNTED`; the busy flag is not looked at.
pub fn poll(s: Session, line: &[u8], fat: &[u16], area: &[u8]) -> Option<Step> {
    let (clock, rest) = number(line, b' ', 18446744073709551615)?;
    let (_, rest) = number(rest, b' ', 1)?;
    let (mounted, rest) = number(rest, b' ', 1)?;
    if !rest.is_empty() {
        return None;
    }
    let call = Call::Poll(clock, mounted == 1);
    Some(run(s, call, fat, area))
}

// `release_all 0|1`
pub fn release_all(s: Session, line: &[u8], fat: &[u16], area: &[u8]) -> Option<Step> {
    let (reset, rest) = number(line, b' ', 1)?;
    if !rest.is_empty() {
        return None;
    }
    Some(run(s, Call::ReleaseAll(reset == 1), fat, area))
}

// `release`
pub fn release(s: Session, fat: &[u16], area: &[u8]) -> Step
    ensures { result ≡ ended_step Release s fat.now area.now }
{
    run(s, Call::Release, fat, area)
}

// `bus_reset`: vdisk's bus reset.
pub fn bus_reset(s: Session, fat: &[u16], area: &[u8]) -> Step
    ensures { result ≡ ended_step BusReset s fat.now area.now }
{
    run(s, Call::BusReset, fat, area)
}
