// A sector in a line: `z` for zeros, `=` for the one shown, or 1,024 hex digits; then `@OFF:HEX,OFF:HEX,..` for bytes that differ.
ghost use Rattle.std.specs.Prelude.{IfSome, ◌<◌, length};

use lines::digits::{field_end, hex_bytes, number};

fn all_bytes<'a>(line: &'a [u8], out: &mut [u8]) -> Option<&'a [u8]> {
    let (n, rest) = hex_bytes(line, out)?;
    if n != 512 {
        return None;
    }
    Some(rest)
}

// What it starts from, and the rest of the line.
fn base<'a>(line: &'a [u8], equals: bool, out: &mut [u8]) -> Option<&'a [u8]> {
    match line.first()? {
        b'z' => {
            out.fill(0);
            Some(&line[1..])
        }
        b'=' => equals.then_some(&line[1..]),
        _ => all_bytes(line, out),
    }
}

// `OFF:HEX`
fn change<'a>(line: &'a [u8], out: &mut [u8]) -> Option<&'a [u8]>
    ensures { IfSome result (λ rest. length rest.now < length line.now) }
{
    let (off, rest) = number(line, b':', 511)?;
    let (_, rest) = hex_bytes(rest, out.get_mut(off as usize..)?)?;
    Some(rest)
}

// The bytes that differ, where there are any.
fn changes<'a>(line: &'a [u8], out: &mut [u8]) -> Option<&'a [u8]> {
    let mut left = line;
    let mut mark = b'@';
    // What is read decides how far a turn goes, so no range goes over the changes.
    while left.first() == Some(&mark) {
        left = change(&left[1..], out)?;
        mark = b',';
    }
    Some(left)
}

// The sector field with which the line begins, into `out`; `equals` says that `=` leaves it.
pub fn sector_field<'a>(line: &'a [u8], equals: bool, out: &mut [u8]) -> Option<&'a [u8]> {
    let from = base(line, equals, out)?;
    field_end(changes(from, out)?, b' ')
}
