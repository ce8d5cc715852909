// The entry listing of an input, printed.
ghost use Rattle.std.specs.Prelude.{◌≡◌, length};
ghost use Rattle.entry_write.specs.Listing.{bad_at, listed, listed_from};

use crate::{Row, drive, entry_write};
use entry_lines::{names_line, next_line};
use printed::Output;
use state::w::W;
use std::io::Write;

// Was the input good to its end, and the state after its last good line. The state counts in both cases, so this is no `Option`.
#[derive(Clone, Copy)]
pub struct Listing {
    pub ok: bool,
    pub w: W,
}

fn show(out: &mut Output<impl Write>, row: Row) {
    out.decimal(row.entry as u64);
    out.number(row.answer as u64);
    out.number(row.pairs as u64);
    out.answer(row.fat1 as u64);
}

fn bad(out: &mut Output<impl Write>, w: W) -> Listing
    ensures { result ≡ bad_at w }
{
    out.text(b"bad\n");
    Listing { ok: false, w }
}

// The lines; a bad one ends the listing.
fn lines(out: &mut Output<impl Write>, input: &[u8], first: W) -> Listing
    ensures { result ≡ listed_from (length input.now) input.now first }
{
    let mut w = first;
    let mut left = input;
    // What is read decides how far a turn goes, so no range goes over the lines.
    while !left.is_empty() {
        let Some((line, rest)) = next_line(left) else {
            return bad(out, w);
        };
        let row = entry_write(&mut w, line.entry, line.shown, line.written);
        show(out, row);
        left = rest;
    }
    Listing { ok: true, w }
}

pub fn list(out: &mut Output<impl Write>, input: &[u8]) -> Listing
    ensures { result ≡ listed input.now }
{
    let w = drive();
    let Some(rest) = names_line(input) else {
        return bad(out, w);
    };
    out.text(b"entry answer pairs fat1\n");
    lines(out, rest, w)
}
