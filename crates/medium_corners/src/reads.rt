// What is read of staged sectors.
use printed::Output;
use state::w::{St, initial_state};
use std::io::Write;

fn staged(c: u16, map: u64, blk: [u16; 8]) -> St {
    St {
        c,
        sealed: false,
        ro: 0,
        map,
        blk,
    }
}

// The sum of all bytes, in which each counts.
fn sum(b: &[u8]) -> u64 {
    let mut n = 0u64;
    for x in b {
        n = n.wrapping_add(*x as u64);
    }
    n
}

fn show_read(
    out: &mut Output<impl Write>,
    st: [St; 28],
    fat: &[u16],
    area: &[u8],
    c: u32,
    s: u32,
    buffer: &mut [u8],
) {
    out.text(b"staged_read");
    out.number(c as u64);
    out.number(s as u64);
    out.number(buffer.len() as u64);
    let r = medium::reads::staged_read(&st, fat, area, c, s, buffer);
    out.text(b":");
    out.number(refusals::told(r) as u64);
    out.number((r == Ok(true)) as u64);
    if buffer.len() < 2 {
        return;
    }
    out.number(buffer[0] as u64);
    out.number(buffer[1] as u64);
    out.answer(sum(buffer));
}

fn read(out: &mut Output<impl Write>, st: [St; 28], fat: &[u16], area: &[u8], c: u32, s: u32) {
    let mut buffer = [170u8; 512];
    show_read(out, st, fat, area, c, s, &mut buffer);
}

fn read_each(
    out: &mut Output<impl Write>,
    st: [St; 28],
    fat: &[u16],
    area: &[u8],
    c: u32,
    sectors: &[u32],
) {
    for s in sectors {
        read(out, st, fat, area, c, *s);
    }
}

// Byte by byte 16 for each sector, and the place's last digit.
fn mark(area: &mut [u8]) {
    for (i, x) in area.iter_mut().enumerate() {
        *x = (i / 512 % 16 * 16 + i % 16) as u8;
    }
}

fn few_staged() -> [St; 28] {
    let w = initial_state(8);
    let mut st = w.st;
    st[0] = staged(0, 18446744073709551615, [2; 8]);
    st[1] = staged(9, 18446744073709551615, [2, 3, 0, 1, 65535, 4, 2, 3]);
    st[2] = staged(10, 9223372036854775810, [3; 8]);
    st[3] = staged(9, 0, [0; 8]);
    st[27] = staged(65535, 0, [3; 8]);
    st
}

fn other_buffers(out: &mut Output<impl Write>, st: [St; 28], fat: &[u16], area: &[u8]) {
    let mut short = [170u8; 511];
    show_read(out, st, fat, area, 9, 0, &mut short);
    show_read(out, st, fat, area, 9, 64, &mut short);
    let mut long = [170u8; 513];
    show_read(out, st, fat, area, 9, 0, &mut long);
}

fn marked(out: &mut Output<impl Write>, st: [St; 28], fat: &[u16], area: &[u8]) {
    read_each(
        out,
        st,
        fat,
        area,
        9,
        &[0, 7, 8, 15, 16, 24, 32, 40, 48, 63, 64, 4294967295],
    );
    read_each(out, st, fat, area, 10, &[0, 1, 2, 62, 63]);
    read_each(out, st, fat, area, 65535, &[0]);
    read_each(out, st, fat, area, 11, &[0, 64]);
    read_each(out, st, fat, area, 0, &[0]);
    read_each(out, st, fat, area, 65545, &[0]);
    other_buffers(out, st, fat, area);
}

fn reads(out: &mut Output<impl Write>) {
    let st = few_staged();
    let fat = [65528u16, 65535, 1, 1];
    let mut area = [0u8; 8192];
    mark(&mut area);
    marked(out, st, &fat, &area);
    let short = [7u8; 8191];
    out.text(b"no medium: ");
    read(out, st, &fat, &short, 9, 0);
    out.text(b"no medium: ");
    read(out, st, &fat[..2], &short[..0], 9, 0);
}

// The last slot of the medium's last sector has start 300 and length 70,000; the last staging slot is `x`.
fn moved(
    out: &mut Output<impl Write>,
    name: &[u8],
    x: St,
    end: usize,
    first: u8,
    attr: u8,
    start: u16,
    size: u32,
) {
    if 8192 < end {
        return;
    }
    let w = initial_state(8);
    let mut st = w.st;
    st[27] = x;
    let mut area = [0u8; 8192];
    area[8160] = first;
    area[8171] = attr;
    area[8186] = 44;
    area[8187] = 1;
    area[8188] = 112;
    area[8189] = 17;
    area[8190] = 1;
    out.text(b"moved_ref, ");
    out.text(name);
    out.answer(medium::reads::moved_ref(&[0, 0, 1, 1], &area[..end], &st, start, size) as u64);
}

fn by_staged(out: &mut Output<impl Write>, name: &[u8], c: u16, map: u64, last: u16) {
    moved(
        out,
        name,
        staged(c, map, [0, 0, 0, 0, 0, 0, 0, last]),
        8192,
        65,
        0x20,
        300,
        70000,
    );
}

fn by_slot(
    out: &mut Output<impl Write>,
    name: &[u8],
    end: usize,
    first: u8,
    attr: u8,
    start: u16,
    size: u32,
) {
    moved(
        out,
        name,
        staged(65001, 9223372036854775808, [0, 0, 0, 0, 0, 0, 0, 3]),
        end,
        first,
        attr,
        start,
        size,
    );
}

fn moved_by_staged(out: &mut Output<impl Write>) {
    by_staged(out, b"none staged", 0, 0, 0);
    by_staged(out, b"slot not in use", 0, 18446744073709551615, 3);
    by_staged(out, b"last sector written", 65001, 9223372036854775808, 3);
    by_staged(out, b"all sectors written", 65001, 18446744073709551615, 3);
    by_staged(
        out,
        b"all but the last written",
        65001,
        9223372036854775807,
        3,
    );
    by_staged(out, b"no block", 65001, 18446744073709551615, 0);
    by_staged(out, b"other block", 65001, 18446744073709551615, 2);
    by_staged(out, b"past the last block", 65001, 18446744073709551615, 4);
}

fn moved_by_slot(out: &mut Output<impl Write>) {
    by_slot(out, b"ordinary", 8192, 65, 0x20, 300, 70000);
    by_slot(out, b"attribute 0xC7", 8192, 65, 0xC7, 300, 70000);
    by_slot(out, b"attribute 0x10", 8192, 65, 0x10, 300, 70000);
    by_slot(out, b"attribute 0x08", 8192, 65, 0x08, 300, 70000);
    by_slot(out, b"attribute 0x0F", 8192, 65, 0x0F, 300, 70000);
    by_slot(out, b"first byte 0xE5", 8192, 0xE5, 0x20, 300, 70000);
    by_slot(out, b"first byte 0", 8192, 0, 0x20, 300, 70000);
    by_slot(out, b"other start", 8192, 65, 0x20, 44, 70000);
    by_slot(out, b"other length", 8192, 65, 0x20, 300, 70001);
    by_slot(out, b"other upper half", 8192, 65, 0x20, 300, 4464);
    by_slot(out, b"no medium", 8191, 65, 0x20, 300, 70000);
}

pub(crate) fn all(out: &mut Output<impl Write>) {
    reads(out);
    moved_by_staged(out);
    moved_by_slot(out);
}
