// The calls that may end the session.
ghost use Rattle.std.specs.Prelude.{◌≡◌, ◌≤◌};
ghost use Rattle.file_table.specs.Files.{with_ids};
ghost use Rattle.release.specs.Release.{EndsBy, answered, end_answer};
ghost use Rattle.session_lines.specs.Steps.{files_of, with_files};
ghost use Rattle.release_lines.specs.Ends.{ended_by, lent, said_of, ended_step};

use file_table::VF;
use refusals::Refusal;
use release::{Ended, release, release_all};
use session_lines::session::{Said, Session, Step, Table, bad, can_lend};
use sessions::mode::on_bus_reset;
use sessions::poll::poll;
use state::w::W;

// With the clock and whether the drive is mounted, and with whether it is a reset. The contracts speak of a call as a value.
#[derive(Clone, Copy)]
pub enum Call {
    Poll(u64, bool),
    Release,
    ReleaseAll(bool),
    BusReset,
}

fn ended_by(
    call: Call,
    w: &mut W,
    files: &mut [VF],
    fat: &[u16],
    area: &[u8],
) -> Result<Ended, Refusal>
    ensures { EndsBy (ended_by call) fat.now area.now w.old files.old (answered result) w.new files.new }
{
    match call {
        Call::Poll(clock, mounted) => poll(w, files, fat, area, clock, mounted),
        Call::Release => release(w, files, fat, area),
        Call::ReleaseAll(reset) => release_all(w, files, fat, area, reset),
        Call::BusReset => on_bus_reset(w, files, fat, area),
    }
}

// The call, with the table's rows lent.
fn on_table(
    call: Call,
    t: &mut Table,
    w: &mut W,
    fat: &[u16],
    area: &[u8],
) -> Result<Ended, Refusal>
    requires { t.old.n ≤ 401 }
    ensures answer { answered result ≡ end_answer (ended_by call (lent t.old fat.now area.now) w.old) }
    ensures state { w.new ≡ (ended_by call (lent t.old fat.now area.now) w.old).w }
    ensures table { t.new ≡ with_files t.old (with_ids (files_of t.old) (ended_by call (lent t.old fat.now area.now) w.old).ids) }
{
    let n = t.n;
    ended_by(call, w, &mut t.files[..n], fat, area)
}

// What the line says of it, by numbers as they are printed.
fn said(r: Result<Ended, Refusal>) -> Said
    ensures { result ≡ said_of (answered r) }
{
    match r {
        Ok(e) => Said::Ended(0, e.number(), e.had()),
        Err(e) => Said::Ended(e.number(), 0, false),
    }
}

// ... and as much of the medium as is lent.
pub fn run(mut s: Session, call: Call, fat: &[u16], area: &[u8]) -> Step
    ensures { result ≡ ended_step call s fat.now area.now }
{
    let entries = s.m.lent_entries;
    let bytes = s.m.lent_bytes;
    if !can_lend(s, fat, area) {
        return bad(s);
    }
    let r = on_table(call, &mut s.t, &mut s.w, &fat[..entries], &area[..bytes]);
    Step { said: said(r), s }
}
