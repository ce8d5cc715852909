// The lines that the entry listing reads: a line of names, then three values a line.

#![tactic(auto)]

ghost use Rattle.std.specs.Prelude.{◌≡◌, ◌<◌, ◌≤◌, length, IfSome, option_map};
ghost use Rattle.entry_lines.specs.EntryLines.{line_end, names_line, entry_line};

use lines::digits::{field_end, number};
use lines::words::is_word;

// Bytes of an input, the number of an entry, and its values, at most.
const MAX_INPUT: usize = 4096;

const MAX_ENTRY: u64 = 65023;

const MAX_VALUE: u64 = 65535;

// A line's three values.
#[derive(Clone, Copy)]
pub struct Line {
    pub entry: u16,
    pub shown: u16,
    pub written: u16,
}

// Where the first line ends.
fn line_end(input: &[u8]) -> usize
    ensures place { result ≡ line_end input.now }
    ensures bound { result ≤ length input.now }
{
    for (i, c) in input.iter().enumerate() {
        if *c == b'\n' {
            return i;
        }
    }
    input.len()
}

// The lines after the line of names, if the input is read at all.
pub fn names_line(input: &[u8]) -> Option<&[u8]>
    ensures { option_map (λ lines. lines.now) result ≡ names_line input.now }
{
    if MAX_INPUT < input.len() {
        return None;
    }
    let end = line_end(input);
    if !is_word(&input[..end], b"entry shown written") {
        return None;
    }
    field_end(&input[end..], b'\n')
}

// The first line, and the lines after it.
pub fn next_line(input: &[u8]) -> Option<(Line, &[u8])>
    ensures values { option_map (λ r. (r.0, r.1.now)) result ≡ entry_line input.now }
    ensures onward { IfSome result (λ r. length r.1.now < length input.now) }
{
    let (entry, rest) = number(input, b' ', MAX_ENTRY)?;
    let (shown, rest) = number(rest, b' ', MAX_VALUE)?;
    let (written, rest) = number(rest, b'\n', MAX_VALUE)?;
    let line = Line {
        entry: entry as u16,
        shown: shown as u16,
        written: written as u16,
    };
    Some((line, rest))
}
