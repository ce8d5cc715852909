// Prints what the lookups of `vdisk` answer at the corners that document 01 names and at those beside them.
#![tactic(auto)]

mod tables;

use file_table::VF;
use file_table::owner::Files;
use printed::Output;
use std::io;
use std::io::Write;
use vdisk::drive::Place;
use vdisk::owner::Own;

fn show_nclus(out: &mut Output<impl Write>, size: u32) {
    out.named(b"nclus ", size as u64);
    out.number(vdisk::drive::nclus(size) as u64);
    out.line_end();
}

fn show_place(out: &mut Output<impl Write>, lba: u32) {
    out.named(b"place ", lba as u64);
    match vdisk::drive::place_of(lba) {
        Place::Boot => out.text(b" boot"),
        Place::Fat(s) => out.named(b" fat ", s as u64),
        Place::Root(s) => out.named(b" root ", s as u64),
        Place::Data(c, s) => {
            out.named(b" data ", c as u64);
            out.number(s as u64);
        }
        Place::Outside => out.text(b" outside"),
    }
    out.line_end();
}

fn show_dir_kind(out: &mut Output<impl Write>, c: u32) {
    out.named(b"dir_kind ", c as u64);
    match vdisk::drive::dir_kind(c) {
        Some(k) => out.number(k as u64),
        None => out.text(b" none"),
    }
    out.line_end();
}

fn show_id(out: &mut Output<impl Write>, id: u16) {
    out.named(b"id ", id as u64);
    out.named(b": number ", vdisk::ids::number(id) as u64);
    out.named(b" kind ", vdisk::ids::kind(id) as u64);
    out.named(b" directory ", vdisk::ids::id_dir(id) as u64);
    out.named(b" unmarked ", vdisk::ids::is_unmarked(id) as u64);
    out.named(b" handed ", vdisk::ids::is_handed(id) as u64);
    out.named(b" cleared ", vdisk::ids::clear_marks(id) as u64);
    out.line_end();
}

fn show_own(out: &mut Output<impl Write>, o: Own) {
    match o {
        Own::Reserved => out.text(b" reserved"),
        Own::Fixed => out.text(b" fixed"),
        Own::Dyn(j) => out.named(b" file ", j as u64),
        Own::Free => out.text(b" free"),
    }
}

// The owner by halves, where the starts rise, and by rows.
fn show_owner(out: &mut Output<impl Write>, rows: &[VF], c: u32) {
    out.named(b"owner ", c as u64);
    show_own(out, Files::new(rows, 8).owner(c));
    show_own(out, Files::by_rows(rows, 8).owner(c));
    out.line_end();
}

fn owners_of(out: &mut Output<impl Write>, rows: &[VF], clusters: &[u32]) {
    for c in clusters {
        show_owner(out, rows, *c);
    }
}

fn file(vstart: u16, vsize: u32) -> VF {
    VF {
        id: 0,
        slot: 0,
        vstart,
        src: 0,
        ssize: 0,
        vsize,
    }
}

// Files at 100 and 101, an empty one at 102, one at 103 to 130, one at the drive's end; 8 is the first session cluster.
fn owners(out: &mut Output<impl Write>) {
    let clusters = [
        0u32, 1, 2, 7, 8, 99, 100, 101, 102, 103, 130, 131, 65000, 65001, 65002, 4294967295,
    ];
    owners_of(
        out,
        &[
            file(100, 32769),
            file(102, 0),
            file(103, 917504),
            file(65001, 1),
        ],
        &clusters,
    );
}

// Starts that don't rise: the last file in the table that starts at or before a cluster counts.
fn owners_unsorted(out: &mut Output<impl Write>) {
    owners_of(
        out,
        &[file(200, 65536), file(100, 3276800), file(150, 32768)],
        &[149u32, 150, 151, 201],
    );
}

fn main(rt: HostRuntime) -> io::Result<()> {
    let mut out = Output::new(io::writer(&rt));
    for size in &[0, 1, 32767, 32768, 32769, 917504, 917505, 4294967295] {
        show_nclus(&mut out, *size);
    }
    for lba in &[
        0, 1, 254, 255, 508, 509, 540, 541, 604, 605, 4160540, 4160541, 4294967295,
    ] {
        show_place(&mut out, *lba);
    }
    for c in &[0, 1, 2, 3, 4, 5, 6, 7, 65002] {
        show_dir_kind(&mut out, *c);
    }
    for id in &[
        0, 0x03FF, 0x0407, 0x0BE7, 0x0C07, 0x1C07, 0x3007, 0x7007, 0xB407, 0xFFFF,
    ] {
        show_id(&mut out, *id);
    }
    owners(&mut out);
    owners_unsorted(&mut out);
    tables::all(&mut out);
    out.finish()
}
