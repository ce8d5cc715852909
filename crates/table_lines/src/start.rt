// `start FIRST ROW ROW ..`: the table is taken if a start takes it, and the state set anew.
ghost use Rattle.std.specs.Prelude.{◌≡◌, IfSome, ◌<◌, ◌≤◌, length};
ghost use Rattle.refusals.specs.Refusals.{told};
ghost use Rattle.sessions.specs.Calls.{StartsBy};
ghost use Rattle.table_lines.specs.Rows.{lent, start_step};

use file_table::VF;
use lines::digits::number;
use refusals::Refusal;
use session_lines::session::{ROWS, Said, Session, Step, Table, no_files};
use state::w::W;

// A row, id:slot:vstart:src:ssize:vsize, and the rows after it.
fn row(line: &[u8]) -> Option<(VF, &[u8])>
    ensures { IfSome result (λ r. length r.1.now < length line.now) }
{
    let (id, rest) = number(line, b':', 65535)?;
    let (slot, rest) = number(rest, b':', 65535)?;
    let (start, rest) = number(rest, b':', 65535)?;
    let (src, rest) = number(rest, b':', 65535)?;
    let (ssize, rest) = number(rest, b':', 4294967295)?;
    let (size, rest) = number(rest, b' ', 4294967295)?;
    let file = VF {
        id: id as u16,
        slot: slot as u16,
        vstart: start as u16,
        src: src as u16,
        ssize: ssize as u32,
        vsize: size as u32,
    };
    Some((file, rest))
}

// A row more than the table has place for is none.
fn rows(line: &[u8]) -> Option<Table>
    ensures { IfSome result (λ t. t.n ≤ 401) }
{
    let mut t = no_files();
    let mut n = 0;
    let mut left = line;
    // What is read decides how far a turn goes, so no range goes over the rows.
    while !left.is_empty() {
        let (file, rest) = row(left)?;
        if ROWS <= n {
            return None;
        }
        t.files[n] = file;
        n += 1;
        left = rest;
    }
    t.n = n;
    Some(t)
}

// The start, with the table's rows lent.
fn on_table(w: &mut W, t: Table, first: u32) -> Result<(), Refusal>
    requires { t.n ≤ 401 }
    ensures { StartsBy (lent t first) w.old (told result) w.new }
{
    let n = t.n;
    sessions::start::start(w, &t.files[..n], first)
}

// Refused, the old table and state go on.
fn begin(s: Session, t: Table, first: u32) -> Step
    requires { t.n ≤ 401 }
    ensures { result ≡ start_step s t first }
{
    let mut w = s.w;
    match on_table(&mut w, t, first) {
        Ok(_) => Step {
            said: Said::Number(0),
            s: Session { w, t, ..s },
        },
        Err(e) => Step {
            said: Said::Number(e.number()),
            s: Session { w, ..s },
        },
    }
}

pub fn start(s: Session, line: &[u8]) -> Option<Step> {
    let (first, rest) = number(line, b' ', 4294967295)?;
    let t = rows(rest)?;
    Some(begin(s, t, first as u32))
}
