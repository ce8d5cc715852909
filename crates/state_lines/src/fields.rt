// `set FIELD VALUE`
ghost use Rattle.std.specs.Prelude.{◌≤◌, IfSome};

use lines::digits::number;
use session_lines::session::{Session, Step, with_state};

// The number with which the line ends.
pub(crate) fn value(line: &[u8], most: u64) -> Option<u64>
    ensures { IfSome result (λ v. v ≤ most) }
{
    let (v, rest) = number(line, b' ', most)?;
    if !rest.is_empty() {
        return None;
    }
    Some(v)
}

pub fn set(s: Session, line: &[u8]) -> Option<Step> {
    let end = line.iter().position(|c| *c == b' ')?;
    let rest = &line[end + 1..];
    let mut w = s.w;
    match &line[..end] {
        b"now_ms" => w.now_ms = value(rest, 18446744073709551615)?,
        b"last" => w.last = value(rest, 18446744073709551615)?,
        b"hint" => w.hint = value(rest, 4294967295)? as u32,
        b"ver" => w.ver = value(rest, 4294967295)? as u32,
        b"fat1" => w.fat1 = value(rest, 4294967295)? as u32,
        b"ok" => w.n.ok = value(rest, 4294967295)? as u32,
        b"refused" => w.n.refused = value(rest, 4294967295)? as u32,
        b"busy" => w.n.busy = value(rest, 4294967295)? as u32,
        b"boot" => w.boot = value(rest, 255)? as u8,
        b"staging" => w.staging = value(rest, 1)? == 1,
        b"session" => w.session = value(rest, 1)? == 1,
        _ => return None,
    }
    Some(with_state(s, w))
}
