// The lines of an input, run one after the other.
use crate::calls::run;
use printed::Output;
use session_lines::session::fresh;
use std::io;
use std::io::{Read, Write};

// No more of the input is read.
const INPUT_MOST: u64 = 65536;

// From a fresh session on, with the medium in what is lent.
pub fn run_all(out: &mut Output<impl Write>, input: &[u8], fat: &mut [u16], area: &mut [u8]) {
    let mut s = fresh();
    for (i, line) in input.split_inclusive(|c| *c == b'\n').enumerate() {
        let text = line.strip_suffix(b"\n").unwrap_or(line);
        s = run(out, s, text, i as u64 + 1, fat, area);
    }
}

/// Runs the calls of a recording on standard input: prints for each call that answers its line and what it answers; `bad` for a bad line.
pub fn replay(rt: HostRuntime) -> io::Result<()> {
    let mut input = Vec::new(rt.alloc());
    let read = rt.reader().take(INPUT_MOST).read_to_end(&mut input);
    let mut out = Output::new(io::writer(&rt));
    let mut fat = [0u16; 34];
    let mut area = [0u8; 131072];
    run_all(&mut out, &input, &mut fat, &mut area);
    read?;
    out.finish()
}
