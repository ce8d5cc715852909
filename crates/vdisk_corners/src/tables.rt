// Tables that a start takes or not.
use file_table::columns::columns_ok;
use printed::Output;
use std::io::Write;

// Two files shown in directory 0, the second of kind 3 and empty, and one in directory 1. Each call changes one thing.
const IDS: [u16; 3] = [0x0007, 0x0C07, 0x0408];

const SLOTS: [u16; 3] = [2, 3, 2];

const STARTS: [u16; 3] = [100, 102, 200];

const SIZES: [u32; 3] = [32769, 0, 32768];

fn show(
    out: &mut Output<impl Write>,
    name: &[u8],
    ids: [u16; 3],
    slots: [u16; 3],
    starts: [u16; 3],
    sizes: [u32; 3],
    first: u32,
) {
    out.text(b"table ");
    out.text(name);
    out.answer(columns_ok(&ids, &slots, &starts, &sizes, first) as u64);
}

fn with_ids(out: &mut Output<impl Write>, name: &[u8], ids: [u16; 3]) {
    show(out, name, ids, SLOTS, STARTS, SIZES, 8);
}

fn with_slots(out: &mut Output<impl Write>, name: &[u8], slots: [u16; 3]) {
    show(out, name, IDS, slots, STARTS, SIZES, 8);
}

fn with_clusters(out: &mut Output<impl Write>, name: &[u8], starts: [u16; 3], sizes: [u32; 3]) {
    show(out, name, IDS, SLOTS, starts, sizes, 8);
}

fn with_first(out: &mut Output<impl Write>, name: &[u8], sizes: [u32; 3], first: u32) {
    show(out, name, IDS, SLOTS, STARTS, sizes, first);
}

fn marks(out: &mut Output<impl Write>) {
    with_ids(out, b"good", IDS);
    with_ids(out, b"turned", [0x1007, 0x0C07, 0x0408]);
    with_ids(out, b"freed", [0x0007, 0x2C07, 0x0408]);
    with_ids(out, b"gone", [0x0007, 0x0C07, 0x4408]);
    with_ids(out, b"moved", [0x0007, 0x0C07, 0x8408]);
}

fn clusters(out: &mut Output<impl Write>) {
    with_clusters(out, b"starts fall", [100, 99, 200], SIZES);
    with_clusters(out, b"starts equal", [100, 102, 102], SIZES);
    with_clusters(
        out,
        b"start in the file before",
        [100, 101, 200],
        [32769, 1, 1],
    );
    with_clusters(
        out,
        b"empty file in the file before",
        [100, 101, 200],
        SIZES,
    );
    with_clusters(
        out,
        b"file right after an empty one",
        [100, 102, 103],
        SIZES,
    );
    with_clusters(out, b"last cluster", [100, 102, 65001], SIZES);
    with_clusters(
        out,
        b"past the last cluster",
        [100, 102, 65001],
        [32769, 0, 32769],
    );
}

fn first_clusters(out: &mut Output<impl Write>) {
    with_first(out, b"clusters from the first on", SIZES, 100);
    with_first(out, b"clusters before the first", SIZES, 101);
    with_first(out, b"first 7", SIZES, 7);
    with_first(out, b"first 6", SIZES, 6);
    with_first(out, b"first 65002 with files", SIZES, 65002);
    with_first(out, b"first 65002, empty files", [0, 0, 0], 65002);
    with_first(out, b"first 65003, empty files", [0, 0, 0], 65003);
}

fn sharing(out: &mut Output<impl Write>) {
    with_ids(out, b"kind and number shared", [0x0007, 0x0C07, 0x0007]);
    with_ids(out, b"number shared, other kind", [0x0007, 0x0407, 0x0807]);
    with_slots(out, b"directory and slot shared", [2, 2, 2]);
    with_slots(out, b"slot shared, other directory", [2, 3, 3]);
}

fn column_lengths(out: &mut Output<impl Write>) {
    let ids = [0x0007u16, 0x0408];
    let slots = [2u16, 2];
    let starts = [100u16, 200];
    let sizes = [1u32, 1];
    out.text(b"table columns of one length");
    out.answer(columns_ok(&ids, &slots, &starts, &sizes, 8) as u64);
    out.text(b"table short slots");
    out.answer(columns_ok(&ids, &slots[..1], &starts, &sizes, 8) as u64);
    out.text(b"table short starts");
    out.answer(columns_ok(&ids, &slots, &starts[..1], &sizes, 8) as u64);
    out.text(b"table short sizes");
    out.answer(columns_ok(&ids, &slots, &starts, &sizes[..1], 8) as u64);
    out.text(b"table short ids");
    out.answer(columns_ok(&ids[..1], &slots, &starts, &sizes, 8) as u64);
    out.text(b"table no files");
    out.answer(columns_ok(&ids[..0], &slots[..0], &starts[..0], &sizes[..0], 7) as u64);
}

// The numbers from `from` on.
fn count_up(column: &mut [u16], from: u16) {
    let mut n = from;
    for x in column.iter_mut() {
        *x = n;
        n = n.wrapping_add(1);
    }
}

fn first_rows(
    out: &mut Output<impl Write>,
    ids: &[u16],
    slots: &[u16],
    starts: &[u16],
    sizes: &[u32],
    n: usize,
) {
    if ids.len() < n || slots.len() < n || starts.len() < n || sizes.len() < n {
        return;
    }
    out.named(b"table files ", n as u64);
    out.answer(columns_ok(&ids[..n], &slots[..n], &starts[..n], &sizes[..n], 8) as u64);
}

fn many(out: &mut Output<impl Write>) {
    let mut ids = [0u16; 401];
    count_up(&mut ids, 0);
    let mut slots = [0u16; 401];
    count_up(&mut slots, 2);
    let mut starts = [0u16; 401];
    count_up(&mut starts, 8);
    let sizes = [1u32; 401];
    first_rows(out, &ids, &slots, &starts, &sizes, 400);
    first_rows(out, &ids, &slots, &starts, &sizes, 401);
}

pub(crate) fn all(out: &mut Output<impl Write>) {
    marks(out);
    clusters(out);
    first_clusters(out);
    sharing(out);
    column_lengths(out);
    many(out);
}
