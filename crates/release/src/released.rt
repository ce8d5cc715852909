// The state that a release leaves.
ghost use Rattle.std.specs.Prelude.{◌≡◌, not, ◌&&◌, ◌||◌, eqb};
ghost use Rattle.release.specs.Release.{emptied, released_state, had_any, held_back};

use records::places::any_used;
use records::{NREC, Rec};
use state::w::{Done, NPAIR, NST, Pair, St, W};

// No pair, record, staged cluster, boot byte or FAT[1].
fn empty(w: &mut W)
    ensures { w.new ≡ emptied w.old }
{
    let rec0 = Rec {
        slot: 0,
        e: [0u8; 32],
    };
    let pair0 = Pair { c: 0, v: 0 };
    let st0 = St::unused();
    let rec = [rec0; NREC];
    let pair = [pair0; NPAIR];
    let st = [st0; NST];
    w.boot = 0;
    w.fat1 = 0;
    w.rec = rec;
    w.pair = pair;
    w.st = st;
}

// Are files of parked blocks to be deleted.
fn purges(parks: u8, purge: bool) -> bool
    ensures { result ≡ (not (eqb parks 0) || purge) }
{
    if parks != 0 {
        return true;
    }
    purge
}

fn keeps_locks(locks: bool, reset: bool) -> bool
    ensures { result ≡ (not reset && locks) }
{
    if reset {
        return false;
    }
    locks
}

pub fn settle_state(w: &mut W, reset: bool)
    ensures { w.new ≡ released_state w.old reset }
{
    empty(w);
    w.purge = purges(w.parks, w.purge);
    w.parks = 0;
    w.staging = false;
    w.session = false;
    w.last = 0;
    w.done = Done {
        slot: 0,
        start: 0,
        size: 0,
        ver: 0,
    };
    w.end_at = 0;
    w.locks = keeps_locks(w.locks, reset);
}

// Was there anything to release.
pub fn had_any(w: &W) -> bool
    ensures { result ≡ had_any w.now }
{
    if w.session {
        return true;
    }
    if w.boot != 0 {
        return true;
    }
    if w.fat1 != 0 {
        return true;
    }
    if any_used(&w.rec) {
        return true;
    }
    if any_used(&w.pair) {
        return true;
    }
    any_used(&w.st)
}

// Put off: the end is held back from now on, if it wasn't already.
pub fn hold_back(w: &mut W)
    ensures { w.new ≡ held_back w.old }
{
    if w.end_at == 0 {
        w.end_at = w.now_ms.max(1);
    }
}
