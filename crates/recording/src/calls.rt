// A line run against a session.
ghost use Rattle.std.specs.Prelude.{◌≡◌, get_or};
ghost use Rattle.session_lines.specs.Steps.{silent_step};

use media_lines::media;
use printed::Output;
use release_lines::calls;
use session_lines::session::{Said, Session, Step, silent};
use session_shown::shown;
use state_lines::{direct, fields, mode};
use std::io::Write;
use table_lines::{gone, start};
use write_lines::writes;

fn state(out: &mut Output<impl Write>, s: Session, area: &[u8]) -> Option<Step> {
    let bytes = area.get(..s.m.bytes)?;
    shown::state(out, s.w, s.t, bytes);
    Some(silent(s))
}

fn handed(out: &mut Output<impl Write>, s: Session) -> Step
    ensures { result ≡ silent_step s }
{
    shown::handed(out, s.t);
    silent(s)
}

// The lines of one word.
fn alone(
    out: &mut Output<impl Write>,
    s: Session,
    line: &[u8],
    fat: &[u16],
    area: &[u8],
) -> Option<Step> {
    match line {
        b"handed" => Some(handed(out, s)),
        b"state" => state(out, s, area),
        b"release" => Some(calls::release(s, fat, area)),
        b"bus_reset" => Some(calls::bus_reset(s, fat, area)),
        b"bus_reset_w" => Some(mode::bus_reset_w(s)),
        _ => None,
    }
}

// The lines that change nothing but the medium.
fn on_medium(
    s: Session,
    word: &[u8],
    line: &[u8],
    fat: &mut [u16],
    area: &mut [u8],
) -> Option<Step> {
    match word {
        b"medium" => media::medium(s, line, fat, area),
        b"mfill" => media::mfill(s, line, fat),
        b"mfat" => media::mfat(s, line, fat),
        b"mdata" => media::mdata(s, line, area),
        b"lend" => media::lend(s, line),
        _ => None,
    }
}

// The lines that set the state.
fn on_state(
    s: Session,
    word: &[u8],
    line: &[u8],
    fat: &mut [u16],
    area: &mut [u8],
) -> Option<Step> {
    match word {
        b"rw" => mode::rw(s, line),
        b"set_read_only" => mode::set_read_only(s, line),
        b"pair" => direct::pair(s, line),
        b"slot" => direct::slot(s, line),
        b"rec" => direct::rec(s, line),
        b"set" => fields::set(s, line),
        _ => on_medium(s, word, line, fat, area),
    }
}

// The calls that answer.
fn on_table(
    s: Session,
    word: &[u8],
    line: &[u8],
    fat: &mut [u16],
    area: &mut [u8],
) -> Option<Step> {
    match word {
        b"start" => start::start(s, line),
        b"write" => writes::write(s, line, fat, area),
        b"poll" => calls::poll(s, line, fat, area),
        b"release_all" => calls::release_all(s, line, fat, area),
        b"gone" => gone::gone(s, line),
        _ => on_state(s, word, line, fat, area),
    }
}

fn call(
    out: &mut Output<impl Write>,
    s: Session,
    line: &[u8],
    fat: &mut [u16],
    area: &mut [u8],
) -> Option<Step> {
    let Some(end) = line.iter().position(|c| *c == b' ') else {
        return alone(out, s, line, fat, area);
    };
    on_table(s, &line[..end], &line[end + 1..], fat, area)
}

// The session after line `number`. A line that begins with `#` is a remark, and a bad one leaves the session as it was.
pub fn run(
    out: &mut Output<impl Write>,
    s: Session,
    line: &[u8],
    number: u64,
    fat: &mut [u16],
    area: &mut [u8],
) -> Session
    ensures { get_or line.now 0 0 ≡ 35 → result ≡ s }
{
    if line.first() == Some(&b'#') {
        return s;
    }
    let Some(step) = call(out, s, line, fat, area) else {
        shown::answer(out, number, Said::Bad);
        return s;
    };
    shown::answer(out, number, step.said);
    step.s
}
