// Runs the calls of a recording on standard input.
#![tactic(auto)]

use recording::input::replay;
use std::io;

fn main(rt: HostRuntime) -> io::Result<()> {
    replay(rt)
}
