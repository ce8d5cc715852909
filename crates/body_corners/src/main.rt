// Reads update files, good and damaged, and prints what `body` answers about each.
//
// A line has a name of 28 bytes and nine decimal numbers, each up to its column's end: the size; the words at 4 and at 8, as they are stored;
// the place of a byte, and the bits of it that are turned; the last cluster's link; how many sectors of the second cluster are staged; the
// block of the first cluster's last sectors; the start.
// `#` is a comment.
#![tactic(auto)]

mod fields;
mod files;

use fields::field;
use files::{fill, turn};
use printed::Output;
use state::w::{Pair, St};
use std::io;
use std::io::{Read, Write};

// No more of the input is read.
const INPUT_MOST: u64 = 65536;

fn sectors_below(n: u32) -> u64 {
    if 64 <= n {
        return 0xFFFFFFFFFFFFFFFF;
    }
    (1u64 << n).wrapping_sub(1)
}

// Clusters 9 and 10 in slots 27 and 3.
fn slots(map: u64, block: u16) -> [St; 28] {
    let mut st = [St::unused(); 28];
    st[27].c = 9;
    st[27].map = 0xFFFFFFFFFFFFFFFF;
    st[27].blk = [10, 11, 12, 13, 14, 15, 16, block];
    st[3].c = 10;
    st[3].map = map;
    st[3].blk = [2, 3, 4, 5, 6, 7, 8, 9];
    st
}

fn pairs(size: u32, last: u16) -> [Pair; 40] {
    let mut pair = [Pair { c: 0, v: 0 }; 40];
    pair[0] = Pair { c: 10, v: last };
    if 32768 < size {
        pair[39] = Pair { c: 9, v: 10 };
        return pair;
    }
    pair[39] = Pair { c: 9, v: last };
    pair
}

fn check(out: &mut Output<impl Write>, line: &[u8], area: &[u8]) {
    let size = field(line, 28, 38);
    let last = (field(line, 71, 76) % 65536) as u16;
    let map = sectors_below(field(line, 77, 79));
    let block = (field(line, 80, 85) % 65536) as u16;
    let start = field(line, 86, 91);
    let b = body::body(
        &[1; 18],
        area,
        &pairs(size, last),
        &slots(map, block),
        start,
        size,
    );
    out.number(refusals::told(b) as u64);
    out.number((b == Ok(true)) as u64);
    out.line_end();
}

fn show(out: &mut Output<impl Write>, line: &[u8]) {
    if line.len() < 28 {
        return;
    }
    if line[0] == b'#' {
        return;
    }
    out.text(&line[..28]);
    let mut area = [0u8; 65536];
    fill(&mut area, field(line, 39, 49), field(line, 50, 60));
    turn(
        &mut area,
        field(line, 61, 66) as usize,
        (field(line, 67, 70) % 256) as u8,
    );
    check(out, line, &area);
}

// A line here has its newline with it; an input that ends within a line is bad.
fn run(out: &mut Output<impl Write>, input: &[u8]) {
    for line in input.chunks(92) {
        if line.len() < 92 {
            out.text(b"bad line\n");
            return;
        }
        show(out, line);
    }
}

fn main(rt: HostRuntime) -> io::Result<()> {
    let mut out = Output::new(io::writer(&rt));
    out.text(b"CRC of 123456789:");
    out.answer(crc::crc16_upd(0xFFFF, b"123456789") as u64);
    let mut input = Vec::new(rt.alloc());
    let read = rt.reader().take(INPUT_MOST).read_to_end(&mut input);
    run(&mut out, &input);
    read?;
    out.finish()
}
