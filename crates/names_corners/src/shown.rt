// What is printed.
ghost use Rattle.std.specs.Prelude.{◌≤◌};

use housekeeping::housekeeping;
use names::text::Name;
use printed::Output;
use std::io::Write;

// A byte that is no printable ASCII character shows as its two hex digits after `%`.
fn character(out: &mut Output<impl Write>, c: u8) {
    match c {
        b' '..=b'~' => out.text(&[c]),
        _ => {
            out.text(b"%");
            out.hex(c);
        }
    }
}

fn characters(out: &mut Output<impl Write>, t: &[u8]) {
    for c in t {
        character(out, *c);
    }
}

// A name, and whether it is housekeeping.
pub(crate) fn name(out: &mut Output<impl Write>, read: &Name)
    requires { read.now.len ≤ 32 }
{
    let text = &read.chars[..read.len];
    out.text(b" name \"");
    characters(out, text);
    out.named(b"\" housekeeping ", housekeeping(text) as u64);
}
