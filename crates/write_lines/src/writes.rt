// `write PLACE BUSY MOUNTED SHOWN WRITTEN`
ghost use Rattle.std.specs.Prelude.{◌≡◌, ◌≤◌};
ghost use Rattle.write.specs.Write.{write as what_is_left};
ghost use Rattle.file_table.specs.Files.{with_ids};
ghost use Rattle.session_lines.specs.Steps.{files_of, with_files};
ghost use Rattle.write_lines.specs.Writes.{sent, write_step, write_area};

use crate::sectors::sector_field;
use lines::digits::number;
use refusals::told;
use session_lines::session::{Said, Session, Step, Table, bad, can_lend};
use state::w::W;

// The sector judged, with the table's rows lent.
fn on_table(
    t: &mut Table,
    w: &mut W,
    place: u32,
    shown: &[u8],
    written: &[u8],
    busy: bool,
    fat: &[u16],
    area: &mut [u8],
) -> u8
    requires { t.old.n ≤ 401 }
    ensures number { result ≡ (what_is_left (sent t.old place shown.now written.now busy fat.now area.old) w.old).number }
    ensures state { w.new ≡ (what_is_left (sent t.old place shown.now written.now busy fat.now area.old) w.old).w }
    ensures table { t.new ≡ with_files t.old (with_ids (files_of t.old) (what_is_left (sent t.old place shown.now written.now busy fat.now area.old) w.old).ids) }
    ensures medium { area.new ≡ (what_is_left (sent t.old place shown.now written.now busy fat.now area.old) w.old).area }
{
    let n = t.n;
    told(write::write(w, &mut t.files[..n], place, shown, written, busy, fat, area))
}

// ... and as much of the medium as is lent.
fn judged(
    s: Session,
    place: u32,
    shown: &[u8],
    written: &[u8],
    busy: bool,
    fat: &[u16],
    area: &mut [u8],
) -> Step
    ensures step { result ≡ write_step s place shown.now written.now busy fat.now area.old }
    ensures medium { area.new ≡ write_area s place shown.now written.now busy fat.now area.old }
{
    let entries = s.m.lent_entries;
    let bytes = s.m.lent_bytes;
    if !can_lend(s, fat, area) {
        return bad(s);
    }
    let mut w = s.w;
    let mut t = s.t;
    let number = on_table(
        &mut t,
        &mut w,
        place,
        shown,
        written,
        busy,
        &fat[..entries],
        &mut area[..bytes],
    );
    Step {
        said: Said::Number(number),
        s: Session { w, t, ..s },
    }
}

// The mounted flag is not looked at.
pub fn write(s: Session, line: &[u8], fat: &[u16], area: &mut [u8]) -> Option<Step> {
    let (place, rest) = number(line, b' ', 4294967295)?;
    let (busy, rest) = number(rest, b' ', 1)?;
    let (_, rest) = number(rest, b' ', 1)?;
    let mut shown = [0u8; 512];
    let rest = sector_field(rest, false, &mut shown)?;
    let mut written = shown;
    if !sector_field(rest, true, &mut written)?.is_empty() {
        return None;
    }
    Some(judged(s, place as u32, &shown, &written, busy == 1, fat, area))
}
