// Reads slots, records and questions about root slots. For each question it prints the name as `long_name` reads it, `rec_ok` and the strict name.
//
// Lines of 72 bytes, the first byte the command; d is a decimal digit, and the bytes of a slot are the line's last 64 bytes, in hex:
// `C` clears sector and records, `S dd hex` sets a slot of the sector, `R i ddd hex` sets record i to root slot ddd,
// `Q ddd h` asks about root slot ddd in this sector, h says whether its start is 0 or the host's, `L ddd` asks with a sector of 511 bytes.
// `#` is a comment.
#![tactic(auto)]

mod fields;
mod shown;

use fields::{bytes, digit, three, two};
use printed::Output;
use records::{NREC, Rec};
use root_slots::{rec_ok, strict_name};
use sector::Sector;
use std::io;
use std::io::{Read, Write};

// No more of the input is read.
const INPUT_MOST: u64 = 65536;

#[derive(Clone, Copy)]
struct Root {
    sector: Sector,
    rec: [Rec; NREC],
}

fn cleared() -> Root {
    let none = Rec {
        slot: 0,
        e: [0u8; 32],
    };
    Root {
        sector: [0u8; 512],
        rec: [none; NREC],
    }
}

fn with_slot(mut root: Root, line: &[u8]) -> Root {
    let at = two(line, 2) * 32;
    if at <= 480 {
        root.sector[at..at + 32].copy_from_slice(&bytes(line));
    }
    root
}

fn with_record(mut root: Root, line: &[u8]) -> Root {
    let i = digit(line, 2) as usize;
    if i < NREC {
        root.rec[i] = Rec {
            slot: three(line, 4) as u16,
            e: bytes(line),
        };
    }
    root
}

fn show_strict(out: &mut Output<impl Write>, rec: &[Rec; NREC], sector: &[u8], idx: usize) {
    let strict = strict_name(rec, sector, idx);
    out.text(b" strict");
    out.number(refusals::told(strict) as u64);
    out.number(strict.unwrap_or(false) as u64);
    out.line_end();
}

fn show_ok(
    out: &mut Output<impl Write>,
    rec: &[Rec; NREC],
    sector: &Sector,
    idx: usize,
    host: bool,
) {
    out.text(b" rec_ok");
    if idx < 7 || 512 <= idx {
        out.text(b" -");
        return;
    }
    out.number(rec_ok(rec, sector, idx / 16 * 16, idx, host) as u64);
}

fn show_name(out: &mut Output<impl Write>, rec: &[Rec; NREC], sector: &Sector, idx: usize) {
    let base = idx / 16 * 16;
    let m = names::entries::entries_read(rec, sector, base, idx);
    if idx < m {
        return;
    }
    let name = names::text::name_by(rec, sector, base, idx, m);
    shown::name(out, &name);
}

fn query(out: &mut Output<impl Write>, root: &Root, line: &[u8]) {
    let idx = three(line, 2);
    out.named(b"slot ", idx as u64);
    show_name(out, &root.rec, &root.sector, idx);
    show_ok(out, &root.rec, &root.sector, idx, digit(line, 6) == 1);
    show_strict(out, &root.rec, &root.sector, idx);
}

fn query_short(out: &mut Output<impl Write>, root: &Root, line: &[u8]) {
    let idx = three(line, 2);
    out.named(b"slot ", idx as u64);
    show_strict(out, &root.rec, &root.sector[..511], idx);
}

fn bad_line(out: &mut Output<impl Write>) {
    out.text(b"bad line\n");
}

fn after(out: &mut Output<impl Write>, root: Root, line: &[u8]) -> Root {
    if line.len() != 73 {
        return root;
    }
    match line[0] {
        b'C' => return cleared(),
        b'S' => return with_slot(root, line),
        b'R' => return with_record(root, line),
        b'Q' => query(out, &root, line),
        b'L' => query_short(out, &root, line),
        b'#' => {}
        _ => bad_line(out),
    }
    root
}

// A line here has its newline with it; an input that ends within a line is bad.
fn run(out: &mut Output<impl Write>, input: &[u8]) {
    let mut root = cleared();
    for line in input.chunks(73) {
        if line.len() < 73 {
            bad_line(out);
            return;
        }
        root = after(out, root, line);
    }
}

fn main(rt: HostRuntime) -> io::Result<()> {
    let mut input = Vec::new(rt.alloc());
    let read = rt.reader().take(INPUT_MOST).read_to_end(&mut input);
    let mut out = Output::new(io::writer(&rt));
    run(&mut out, &input);
    read?;
    out.finish()
}
