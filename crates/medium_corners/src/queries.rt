// What the mixer asks of the state.
use printed::Output;
use state::w::{W, initial_state};
use std::io::Write;

fn show_fat1(out: &mut Output<impl Write>, v: u32) {
    let mut w = initial_state(8);
    w.fat1 = v;
    out.named(b"fat1 ", v as u64);
    out.answer(state::queries::fat1(&w) as u64);
}

fn show_boot(out: &mut Output<impl Write>, v: u8) {
    let mut w = initial_state(8);
    w.boot = v;
    out.named(b"boot_state ", v as u64);
    out.answer(state::queries::boot_state(&w) as u64);
}

fn show_frozen(out: &mut Output<impl Write>, name: &[u8], w: W, mounted: bool) {
    out.text(b"frozen, ");
    out.text(name);
    out.answer(state::queries::frozen(&w, mounted) as u64);
}

// The last write was long ago.
fn by_flags(
    out: &mut Output<impl Write>,
    name: &[u8],
    rw: bool,
    mounted: bool,
    end_at: u64,
    locks: bool,
    session: bool,
) {
    let mut w = initial_state(8);
    w.rw = rw;
    w.end_at = end_at;
    w.locks = locks;
    w.session = session;
    w.last = 1;
    w.now_ms = 200000;
    show_frozen(out, name, w, mounted);
}

fn by_times(out: &mut Output<impl Write>, name: &[u8], locks: bool, last: u64, now_ms: u64) {
    let mut w = initial_state(8);
    w.rw = true;
    w.locks = locks;
    w.last = last;
    w.now_ms = now_ms;
    show_frozen(out, name, w, false);
}

fn flags(out: &mut Output<impl Write>) {
    by_flags(out, b"writing on alone", true, false, 0, false, false);
    by_flags(out, b"writing off", false, true, 1, false, true);
    by_flags(out, b"mounted", true, true, 0, false, false);
    by_flags(out, b"mounted, locked", true, true, 0, true, false);
    by_flags(out, b"end pending", true, false, 1, false, false);
    by_flags(out, b"end pending, locked", true, false, 1, true, false);
    by_flags(out, b"session", true, false, 0, false, true);
    by_flags(out, b"session, locked", true, false, 0, true, true);
    by_flags(out, b"locked", true, false, 0, true, false);
}

fn times(out: &mut Output<impl Write>) {
    by_times(out, b"never written", false, 0, 5);
    by_times(out, b"written 59999 ms ago", false, 1, 60000);
    by_times(out, b"written 60000 ms ago", false, 1, 60001);
    by_times(out, b"written 59999 ms ago, locked", true, 1, 60000);
    by_times(out, b"clock behind", false, 200000, 5);
    by_times(out, b"clock far behind", false, 18446744073709551615, 0);
}

pub(crate) fn all(out: &mut Output<impl Write>) {
    show_fat1(out, 0);
    show_fat1(out, 0x7FFF);
    show_fat1(out, 0x17FFF);
    show_fat1(out, 0x10000);
    show_fat1(out, 0x1FFFF);
    show_fat1(out, 0x27FFF);
    show_boot(out, 0);
    show_boot(out, 1);
    show_boot(out, 255);
    flags(out);
    times(out);
}
