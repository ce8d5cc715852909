// What the calls of a recording go on from.
ghost use Rattle.std.specs.Prelude.{◌≡◌};
ghost use Rattle.state.specs.State.{initial};
ghost use Rattle.session_lines.specs.Steps.{bad_step, silent_step, session_of, lends};

use file_table::VF;
use state::w::{W, initial_state};

// Rows of a line at most: one more than a table has files.
pub const ROWS: usize = 401;

// The file table: the first `n` rows count. A vector would make each step fail where memory runs out.
#[derive(Clone, Copy)]
pub struct Table {
    pub n: usize,
    pub files: [VF; ROWS],
}

// The medium: how many entries and bytes of what the program lends it has, and how many of these a call is lent.
#[derive(Clone, Copy)]
pub struct Medium {
    pub entries: usize,
    pub bytes: usize,
    pub lent_entries: usize,
    pub lent_bytes: usize,
}

#[derive(Clone, Copy)]
pub struct Session {
    pub w: W,
    pub t: Table,
    pub m: Medium,
}

// What a line says: nothing; a call's number; that of a call that may end the session, with how it ended and whether there was anything to
// release; or that it is bad.
#[derive(Clone, Copy)]
pub enum Said {
    Nothing,
    Number(u8),
    Ended(u8, u8, bool),
    Bad,
}

#[derive(Clone, Copy)]
pub struct Step {
    pub said: Said,
    pub s: Session,
}

pub fn no_files() -> Table
    ensures { result.n ≡ 0 }
{
    let none = VF {
        id: 0,
        slot: 0,
        vstart: 0,
        src: 0,
        ssize: 0,
        vsize: 0,
    };
    Table {
        n: 0,
        files: [none; ROWS],
    }
}

// No medium, no files, and read-only.
pub fn fresh() -> Session
    ensures { (result.w ≡ initial 7) × (result.t.n ≡ 0) }
{
    Session {
        w: initial_state(7),
        t: no_files(),
        m: Medium {
            entries: 0,
            bytes: 0,
            lent_entries: 0,
            lent_bytes: 0,
        },
    }
}

pub fn bad(s: Session) -> Step
    ensures { result ≡ bad_step s }
{
    Step { said: Said::Bad, s }
}

pub fn silent(s: Session) -> Step
    ensures { result ≡ silent_step s }
{
    Step {
        said: Said::Nothing,
        s,
    }
}

pub fn with_state(s: Session, w: W) -> Step
    ensures { result ≡ silent_step (session_of w s.t s.m) }
{
    silent(Session { w, ..s })
}

pub fn with_medium(s: Session, m: Medium) -> Step
    ensures { result ≡ silent_step (session_of s.w s.t m) }
{
    silent(Session { m, ..s })
}

// Has the program all that a call is lent.
pub fn can_lend(s: Session, fat: &[u16], area: &[u8]) -> bool
    ensures { result ≡ lends s fat.now area.now }
{
    s.t.n <= ROWS && s.m.lent_entries <= fat.len() && s.m.lent_bytes <= area.len()
}
