// How a session is released.

#![tactic(auto)]

pub mod ids;
pub mod notes;
pub mod released;
pub mod undecided;

ghost use Rattle.std.specs.Prelude.{◌≡◌};
ghost use Rattle.release.specs.Release.{release_all_call, release_call, number_of_ended, had_of_ended, EndsBy, answered};

use crate::ids::release_ids;
use crate::released::{had_any, hold_back, settle_state};
use crate::undecided::is_undecided;
use file_table::{MAX_VF, VF};
use refusals::Refusal;
use state::w::W;

// How a call that may end the session left it: no release was due, one ran to its end, with anything to release or nothing, or it was put off.
#[derive(Clone, Copy, Debug, PartialEq, Eq)]
pub enum Ended {
    NotDue,
    Ran(bool),
    PutOff,
}

impl Ended {
    pub fn number(self) -> u8
        ensures { result ≡ number_of_ended self }
    {
        match self {
            Ended::NotDue => 0,
            Ended::Ran(_) => 1,
            Ended::PutOff => 2,
        }
    }

    // Was there anything to release.
    pub fn had(self) -> bool
        ensures { result ≡ had_of_ended self }
    {
        match self {
            Ended::Ran(had) => had,
            _ => false,
        }
    }
}

pub fn release_all(
    w: &mut W,
    files: &mut [VF],
    fat: &[u16],
    area: &[u8],
    reset: bool,
) -> Result<Ended, Refusal>
    ensures { EndsBy (λ x v. release_all_call x v reset) fat.now area.now w.old files.old (answered result) w.new files.new }
{
    if MAX_VF < files.len() {
        return Err(Refusal::Table);
    }
    release_ids(files, fat, area, &w.st);
    let had = had_any(w);
    settle_state(w, reset);
    Ok(Ended::Ran(had))
}

// The session's end, put off while a DM40*.BIN is undecided and anything is staged.
pub fn release(w: &mut W, files: &mut [VF], fat: &[u16], area: &[u8]) -> Result<Ended, Refusal>
    ensures { EndsBy release_call fat.now area.now w.old files.old (answered result) w.new files.new }
{
    if MAX_VF < files.len() {
        return Err(Refusal::Table);
    }
    if is_undecided(w) {
        hold_back(w);
        return Ok(Ended::PutOff);
    }
    release_all(w, files, fat, area, false)
}
