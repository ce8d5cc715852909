// The entry listing of standard input.
#![tactic(auto)]

use entry_write::list::list;
use printed::Output;
use std::io;
use std::io::Read;

// An input of so many bytes is longer than what is listed, so no more of it is read.
const INPUT_MOST: u64 = 65536;

fn main(rt: HostRuntime) -> io::Result<()> {
    let mut input = Vec::new(rt.alloc());
    let read = rt.reader().take(INPUT_MOST).read_to_end(&mut input);
    let mut out = Output::new(io::writer(&rt));
    list(&mut out, &input);
    read?;
    out.finish()
}
