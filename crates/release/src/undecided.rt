// Which releases are put off.
ghost use Rattle.std.specs.Prelude.{◌≡◌, not, ◌&&◌, eqb, length, get_or};
ghost use Rattle.loops.specs.Loops.{some};
ghost use Rattle.records.specs.Records.{max_records, no_rec};
ghost use Rattle.release.specs.Undecided.{is_file, is_named, is_update, is_decided, is_undecided};

use records::places::any_used;
use records::{NREC, Rec};
use slots::fields::{attr, is_long, update_name};
use state::w::{Done, W};

// Is the slot one in use and a file's: no long entry, attribute bits 3 and 4 clear.
fn is_file(e: &[u8]) -> bool
    requires { length e.now ≡ 32 }
    ensures { result ≡ is_file e.now }
{
    if e[0] == 0xE5 {
        return false;
    }
    if is_long(e, 0) {
        return false;
    }
    let a = attr(e, 0) as u16;
    if bits::test_u16(a, 3) {
        return false;
    }
    !bits::test_u16(a, 4)
}

// Is it named DM40*.BIN, with a start, from 128 bytes up.
fn is_named(e: &[u8]) -> bool
    requires { length e.now ≡ 32 }
    ensures { result ≡ is_named e.now }
{
    if !update_name(e, 0) {
        return false;
    }
    if slots::fields::start(e, 0) == 0 {
        return false;
    }
    128 <= slots::fields::size(e, 0)
}

fn is_update(r: Rec) -> bool
    ensures { result ≡ is_update r }
{
    if r.slot == 0 {
        return false;
    }
    let e = r.e;
    if !is_file(&e) {
        return false;
    }
    is_named(&e)
}

// Is it the one that was decided last, with nothing staged since.
fn is_decided(r: Rec, d: Done, ver: u32) -> bool
    ensures { result ≡ is_decided r d ver }
{
    if r.slot != d.slot {
        return false;
    }
    let e = r.e;
    if slots::fields::start(&e, 0) != d.start {
        return false;
    }
    if slots::fields::size(&e, 0) != d.size {
        return false;
    }
    ver == d.ver
}

fn undecided_rec(r: Rec, done: Done, ver: u32) -> bool
    ensures { result ≡ (is_update r && not (is_decided r done ver)) }
{
    if !is_update(r) {
        return false;
    }
    !is_decided(r, done, ver)
}

fn any_undecided(rec: &[Rec; NREC], done: Done, ver: u32) -> bool
    ensures { result ≡ some (λ i. is_update (get_or rec.now i no_rec) && not (is_decided (get_or rec.now i no_rec) done ver)) max_records 0 }
{
    for r in rec {
        if undecided_rec(*r, done, ver) {
            return true;
        }
    }
    false
}

// Is a DM40*.BIN undecided, and anything staged.
pub fn is_undecided(w: &W) -> bool
    ensures { result ≡ is_undecided w.now }
{
    if !any_used(&w.st) {
        return false;
    }
    any_undecided(&w.rec, w.done, w.ver)
}
