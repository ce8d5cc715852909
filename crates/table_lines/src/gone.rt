// `gone ROW`
ghost use Rattle.std.specs.Prelude.{◌≡◌, ◌≤◌, map};
ghost use Rattle.file_table.specs.Files.{id_of, with_ids};
ghost use Rattle.refusals.specs.Refusals.{told};
ghost use Rattle.session_lines.specs.Steps.{files_of, with_files};
ghost use Rattle.sessions.specs.Sessions.{report_gone};
ghost use Rattle.table_lines.specs.Rows.{gone_step};

use lines::digits::number;
use refusals::Refusal;
use session_lines::session::{ROWS, Said, Session, Step, Table};
use sessions::gone::report_gone;

// The report, with the table's rows lent.
fn on_table(t: &mut Table, row: usize) -> Result<(), Refusal>
    requires { t.old.n ≤ 401 }
    ensures number { told result ≡ (report_gone (map id_of (files_of t.old)) row).number }
    ensures table { t.new ≡ with_files t.old (with_ids (files_of t.old) (report_gone (map id_of (files_of t.old)) row).ids) }
{
    let n = t.n;
    report_gone(&mut t.files[..n], row)
}

fn report(s: Session, row: usize) -> Step
    requires { s.t.n ≤ 401 }
    ensures { result ≡ gone_step s row }
{
    let mut t = s.t;
    let r = on_table(&mut t, row);
    Step {
        said: Said::Number(refusals::told(r)),
        s: Session { t, ..s },
    }
}

pub fn gone(s: Session, line: &[u8]) -> Option<Step> {
    let (row, rest) = number(line, b' ', 18446744073709551615)?;
    if !rest.is_empty() || ROWS < s.t.n {
        return None;
    }
    Some(report(s, row as usize))
}
