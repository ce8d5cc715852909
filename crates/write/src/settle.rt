// What a judged sector leaves in the state: times, counts, the error.
ghost use Rattle.std.specs.Prelude.{◌≡◌, false, eqb};
ghost use Rattle.loops.specs.Loops.{pick};
ghost use Rattle.refusals.specs.Refusals.{number_of, told, value_or};
ghost use Rattle.write.specs.Write.{error_of, taken_state, refused_state};

use refusals::Refusal;
use state::w::W;

// The Rust's error numbers.
const E_IO: u8 = 0;

const E_REFUSED: u8 = 1;

const E_BUSY: u8 = 2;

pub fn error_of(refusal: Refusal) -> u8
    ensures { result ≡ error_of (number_of refusal) }
{
    match refusal {
        Refusal::PastTheEnd => E_IO,
        Refusal::Medium => E_IO,
        Refusal::Busy => E_BUSY,
        _ => E_REFUSED,
    }
}

// A taken sector: the last time, the taken count, the session.
fn taken(w: &mut W, opens: bool)
    ensures { w.new ≡ taken_state w.old opens }
{
    w.last = w.now_ms.max(1);
    w.n.ok = w.n.ok.wrapping_add(1);
    if opens {
        w.session = true;
    }
}

// A refused one: the error, its count, and the place unless it was put off.
fn refused(w: &mut W, lba: u32, refusal: Refusal)
    ensures { w.new ≡ refused_state w.old lba (number_of refusal) }
{
    w.err = error_of(refusal);
    match refusal {
        Refusal::Busy => {
            w.n.busy = w.n.busy.wrapping_add(1);
        }
        _ => {
            w.n.refused = w.n.refused.wrapping_add(1);
            w.n.last_refused = lba;
        }
    }
}

// `opens` tells whether the sector opens the session, or why it is refused.
pub fn settle(w: &mut W, lba: u32, opens: Result<bool, Refusal>)
    ensures { w.new ≡ pick (eqb (told opens) 0) (taken_state w.old (value_or false opens)) (refused_state w.old lba (told opens)) }
{
    match opens {
        Ok(opens) => taken(w, opens),
        Err(refusal) => refused(w, lba, refusal),
    }
}
