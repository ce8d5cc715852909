// What is printed of a session.
ghost use Rattle.std.specs.Prelude.{◌<◌};

use printed::Output;
use records::Rec;
use records::places::Place;
use session_lines::session::{Said, Table};
use state::w::{Done, Pair, St, W};
use std::io::Write;
use vdisk::ids::is_handed;

fn times(out: &mut Output<impl Write>, w: W) {
    out.named(b"state rw ", w.rw as u64);
    out.named(b" boot ", w.boot as u64);
    out.named(b" fat1 ", w.fat1 as u64);
    out.named(b" session ", w.session as u64);
    out.named(b" last ", w.last);
    out.named(b" staging ", w.staging as u64);
    out.named(b" stage_t ", w.stage_t);
    out.named(b" hint ", w.hint as u64);
}

fn counts(out: &mut Output<impl Write>, w: W) {
    let n = w.n;
    out.named(b" err ", w.err as u64);
    out.named(b" ver ", w.ver as u64);
    out.named(b" ok ", n.ok as u64);
    out.named(b" refused ", n.refused as u64);
    out.named(b" busy ", n.busy as u64);
    out.named(b" last_refused ", n.last_refused as u64);
}

fn decided(out: &mut Output<impl Write>, d: Done) {
    out.named(b" done.slot ", d.slot as u64);
    out.named(b" done.start ", d.start as u64);
    out.named(b" done.size ", d.size as u64);
    out.named(b" done.ver ", d.ver as u64);
}

fn parks(out: &mut Output<impl Write>, w: W) {
    out.named(b" end_at ", w.end_at);
    out.named(b" parks ", w.parks as u64);
    out.named(b" purged ", w.purged as u64);
    out.named(b" purge ", w.purge as u64);
}

fn update_counts(out: &mut Output<impl Write>, w: W) {
    let n = w.n;
    out.named(b" deleted ", n.deleted as u64);
    out.named(b" fw_ok ", n.fw_ok as u64);
    out.named(b" fw_bad ", n.fw_bad as u64);
}

fn mode(out: &mut Output<impl Write>, w: W) {
    out.named(b" want_rw ", w.want_rw as u64);
    out.named(b" locks ", w.locks as u64);
    out.named(b" now_ms ", w.now_ms);
    out.named(b" fw ", w.fw as u64);
}

// What the judging of a sector doesn't change.
fn kept(out: &mut Output<impl Write>, w: W) {
    mode(out, w);
    decided(out, w.done);
    parks(out, w);
    update_counts(out, w);
    out.named(b" first ", w.first as u64);
}

// What is shown of a place in use, after its number.
trait Shown: Place {
    fn show(&self, out: &mut Output<impl Write>);
}

impl Shown for Pair {
    fn show(&self, out: &mut Output<impl Write>) {
        out.named(b":", self.c as u64);
        out.named(b":", self.v as u64);
    }
}

impl Shown for Rec {
    fn show(&self, out: &mut Output<impl Write>) {
        out.named(b":", self.slot as u64);
        out.text(b":");
        for b in &self.e {
            out.hex(*b);
        }
    }
}

impl Shown for St {
    fn show(&self, out: &mut Output<impl Write>) {
        out.named(b":", self.c as u64);
        out.named(b":", self.sealed as u64);
        out.named(b":", self.ro as u64);
        out.named(b":", self.map);
        for b in &self.blk {
            out.named(b":", *b as u64);
        }
    }
}

// The places in use.
fn used<P: Shown>(out: &mut Output<impl Write>, name: &[u8], places: &[P]) {
    out.text(b"\n");
    out.text(name);
    for (i, p) in places.iter().enumerate() {
        if p.key() != 0 {
            out.number(i as u64);
            p.show(out);
        }
    }
}

fn ids(out: &mut Output<impl Write>, t: Table) {
    out.text(b"\nids");
    for f in t.files.iter().take(t.n) {
        out.number(f.id as u64);
    }
}

// A checksum in which each byte and its place count.
fn sum(b: &[u8]) -> u64
    ensures { result < 4294967291 }
{
    let mut h = 0;
    for x in b {
        h = (h * 257 + *x as u64) % 4294967291;
    }
    h
}

// All of the state, the table's ids, and a sum over the medium.
pub fn state(out: &mut Output<impl Write>, w: W, t: Table, area: &[u8]) {
    times(out, w);
    counts(out, w);
    kept(out, w);
    used(out, b"pairs", &w.pair);
    used(out, b"records", &w.rec);
    used(out, b"staged", &w.st);
    ids(out, t);
    out.named(b"\ndata ", sum(area));
    out.line_end();
}

// The rows that are handed.
pub fn handed(out: &mut Output<impl Write>, t: Table) {
    out.text(b"handed");
    for (j, f) in t.files.iter().take(t.n).enumerate() {
        if is_handed(f.id) {
            out.number(j as u64);
        }
    }
    out.line_end();
}

// What line `line` answers.
pub fn answer(out: &mut Output<impl Write>, line: u64, said: Said) {
    match said {
        Said::Nothing => {}
        Said::Number(n) => {
            out.decimal(line);
            out.answer(n as u64);
        }
        Said::Ended(n, how, had) => {
            out.decimal(line);
            out.number(n as u64);
            out.named(b" ended ", how as u64);
            out.named(b" had ", had as u64);
            out.line_end();
        }
        Said::Bad => {
            out.decimal(line);
            out.text(b" bad\n");
        }
    }
}
