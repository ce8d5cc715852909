// Pairs, staging slots and records: what is found, and what setting a pair changes.
use crate::place;
use printed::Output;
use records::Rec;
use state::pairs;
use state::w::{Pair, St, W, initial_state};
use std::io::Write;

fn staged(c: u16, map: u64) -> St {
    St {
        c,
        sealed: true,
        ro: 255,
        map,
        blk: [2u16; 8],
    }
}

fn show_value(out: &mut Output<impl Write>, p: Option<u16>) {
    match p {
        Some(v) => out.named(b" value ", v as u64),
        None => out.text(b" no value"),
    }
}

// Where the pair and the staging slot of cluster `c` are, and how many places are free.
fn show(out: &mut Output<impl Write>, name: &[u8], w: W, c: u32) {
    out.text(name);
    out.named(b", cluster ", c as u64);
    out.text(b": pair at");
    place(out, pairs::pair_idx(&w.pair, c));
    show_value(out, pairs::pair_of(&w.pair, c));
    out.text(b" slot at");
    place(out, state::staged::slot_of(&w.st, c));
    out.named(b" free ", pairs::free_pairs(&w.pair) as u64);
    out.answer(state::staged::free_slots(&w.st) as u64);
}

fn show_rec(out: &mut Output<impl Write>, name: &[u8], rec: [Rec; 10], idx: usize) {
    let r = records::root_rec(&rec, idx);
    out.text(name);
    out.text(b", root slot");
    out.number(idx as u64);
    out.text(b": record at");
    place(out, records::rec_idx(&rec, idx));
    out.text(b" bytes");
    out.number(r.is_some() as u64);
    let e = r.unwrap_or([0u8; 32]);
    out.number(e[0] as u64);
    out.number(e[31] as u64);
    out.line_end();
}

// The first free places, and how many records' are free.
fn show_free(out: &mut Output<impl Write>, name: &[u8], w: W) {
    out.text(name);
    out.text(b", first free: pair");
    place(out, pairs::free_pair(&w.pair));
    out.text(b" slot");
    place(out, state::staged::free_slot(&w.st));
    out.text(b" record");
    place(out, records::free_rec(&w.rec));
    out.text(b" of");
    out.answer(records::free_recs(&w.rec) as u64);
}

fn show_state(out: &mut Output<impl Write>, name: &[u8], w: W) {
    let rec = w.rec;
    for c in [9, 0, 8, 65545, 4294967295] {
        show(out, name, w, c);
    }
    for idx in [7, 0, 8, 65543] {
        show_rec(out, name, rec, idx);
    }
    show_free(out, name, w);
}

// One entry of each kind, at the last place; the first places hold something and aren't in use.
fn one() -> W {
    let mut w = initial_state(8);
    w.pair[0] = Pair { c: 0, v: 5 };
    w.pair[39] = Pair { c: 9, v: 10 };
    w.st[0] = staged(0, 18446744073709551615);
    w.st[27] = staged(9, 0);
    w.rec[0] = Rec {
        slot: 0,
        e: [5u8; 32],
    };
    w.rec[9] = Rec {
        slot: 7,
        e: [65u8; 32],
    };
    w
}

// Cluster 9 and root slot 7 twice, after one of each kind that is another's.
fn repeated() -> W {
    let mut w = initial_state(8);
    w.pair[0] = Pair { c: 8, v: 65535 };
    w.pair[3] = Pair { c: 9, v: 11 };
    w.pair[5] = Pair { c: 9, v: 12 };
    w.st[0] = staged(8, 0);
    w.st[2] = staged(9, 0);
    w.st[4] = staged(9, 0);
    w.rec[0] = Rec {
        slot: 8,
        e: [66u8; 32],
    };
    w.rec[1] = Rec {
        slot: 7,
        e: [67u8; 32],
    };
    w.rec[2] = Rec {
        slot: 7,
        e: [68u8; 32],
    };
    w
}

fn full() -> W {
    let mut w = initial_state(8);
    let pair = [Pair { c: 9, v: 10 }; 40];
    let st = [staged(9, 0); 28];
    let rec = [Rec {
        slot: 7,
        e: [69u8; 32],
    }; 10];
    w.pair = pair;
    w.st = st;
    w.rec = rec;
    w
}

fn show_pair(out: &mut Output<impl Write>, p: Pair) {
    out.named(b"its place has ", p.c as u64);
    out.answer(p.v as u64);
}

fn show_slot(out: &mut Output<impl Write>, s: St) {
    out.named(b"dropped slot ", s.sealed as u64);
    out.number(s.ro as u64);
    out.number(s.map);
    let b = s.blk[7];
    out.answer(b as u64);
}

fn paired(mut w: W, c: u16, v: u16) -> W {
    pairs::set_pair(&mut w, c, v);
    w
}

fn set_few(out: &mut Output<impl Write>) {
    let w = paired(initial_state(8), 9, 10);
    show(out, b"first pair", w, 9);
    let more = paired(w, 65535, 65535);
    show(out, b"second pair", more, 65535);
    show(out, b"second pair", more, 9);
    let changed = paired(more, 9, 1);
    show(out, b"changed pair", changed, 9);
    let removed = paired(changed, 9, 0);
    show(out, b"removed pair", removed, 9);
    show(out, b"removed pair", removed, 65535);
    let cluster0 = paired(w, 0, 5);
    show(out, b"pair of cluster 0", cluster0, 0);
    let p = cluster0.pair[1];
    show_pair(out, p);
}

fn set_removed(out: &mut Output<impl Write>) {
    let w = repeated();
    let removed = paired(w, 9, 0);
    show(out, b"one of two removed", removed, 9);
    show(out, b"one of two removed", removed, 8);
    let s = removed.st[2];
    show_slot(out, s);
    let again = paired(removed, 9, 0);
    show(out, b"two of two removed", again, 9);
    let mut none = initial_state(8);
    none.st[2] = staged(9, 0);
    show(out, b"removed where none is", paired(none, 9, 0), 9);
}

fn set_full(out: &mut Output<impl Write>) {
    let mut w = full();
    w.pair[3] = Pair { c: 13, v: 1 };
    w.pair[5] = Pair { c: 15, v: 1 };
    show(out, b"41st pair", paired(w, 500, 7), 500);
    show(out, b"changed pair of 40", paired(w, 15, 7), 15);
    let freed = paired(paired(w, 15, 0), 13, 0);
    show(out, b"two of 40 removed", freed, 15);
    let reused = paired(freed, 500, 7);
    show(out, b"one place reused", reused, 500);
    let both = paired(reused, 501, 8);
    show(out, b"both places reused", both, 501);
    show(out, b"no place left", paired(both, 502, 9), 502);
}

pub(crate) fn all(out: &mut Output<impl Write>) {
    show_state(out, b"initial", initial_state(8));
    show_state(out, b"one", one());
    show_state(out, b"repeated", repeated());
    show_state(out, b"full", full());
    set_few(out);
    set_removed(out);
    set_full(out);
}
