// The clock's tick, up to its quiet release.
ghost use Rattle.std.specs.Prelude.{◌≡◌};
ghost use Rattle.release.specs.Release.{EndsBy, answered};
ghost use Rattle.sessions.specs.Poll.{ticked, end_due, is_quiet, poll_call};

use file_table::{MAX_VF, VF};
use refusals::Refusal;
use release::undecided::is_undecided;
use release::{Ended, release, release_all};
use state::w::W;

// An end held back waits so long, and a quiet session lasts so long.
const END_WAIT_MS: u64 = 1500;

const QUIET_MS: u64 = 60000;

// The clock, which may go back; a mounted drive was locked.
fn tick(w: &mut W, clock: u64, mounted: bool)
    ensures { w.new ≡ ticked w.old clock mounted }
{
    w.now_ms = clock;
    if mounted {
        w.locks = true;
    }
}

// Is an end held back due.
fn end_due(w: &W) -> bool
    ensures { result ≡ end_due w.now }
{
    if w.end_at == 0 {
        return false;
    }
    if !is_undecided(w) {
        return true;
    }
    END_WAIT_MS <= w.now_ms.saturating_sub(w.end_at)
}

// Is the session of a host that doesn't lock the medium quiet.
fn is_quiet(w: &W, mounted: bool) -> bool
    ensures { result ≡ is_quiet w.now mounted }
{
    if mounted {
        return false;
    }
    if !w.session {
        return false;
    }
    if w.locks {
        return false;
    }
    QUIET_MS <= w.now_ms.saturating_sub(w.last)
}

pub fn poll(
    w: &mut W,
    files: &mut [VF],
    fat: &[u16],
    area: &[u8],
    clock: u64,
    mounted: bool,
) -> Result<Ended, Refusal>
    ensures { EndsBy (λ x v. poll_call x v clock mounted) fat.now area.now w.old files.old (answered result) w.new files.new }
{
    if MAX_VF < files.len() {
        return Err(Refusal::Table);
    }
    tick(w, clock, mounted);
    if end_due(w) {
        w.end_at = 0;
        if mounted {
            return Ok(Ended::NotDue);
        }
        return release_all(w, files, fat, area, false);
    }
    if is_quiet(w, mounted) {
        return release(w, files, fat, area);
    }
    Ok(Ended::NotDue)
}
