// Prints what `records`, `state` and `medium` answer at the corners of their definitions and beside them.
#![tactic(auto)]

mod blocks;
mod lookups;
mod queries;
mod reads;

use printed::Output;
use std::io;
use std::io::Write;

pub(crate) fn place(out: &mut Output<impl Write>, f: Option<usize>) {
    match f {
        Some(i) => out.number(i as u64),
        None => out.text(b" nothing"),
    }
}

fn main(rt: HostRuntime) -> io::Result<()> {
    let mut out = Output::new(io::writer(&rt));
    lookups::all(&mut out);
    queries::all(&mut out);
    blocks::all(&mut out);
    reads::all(&mut out);
    out.finish()
}
