// The medium and its blocks, and the search for a free one.
use printed::Output;
use std::io::Write;

fn show_medium(out: &mut Output<impl Write>, fat: &[u16], area: &[u8]) {
    out.named(b"medium ", fat.len() as u64);
    out.number(area.len() as u64);
    out.answer(medium::blocks::is_medium(fat, area) as u64);
}

// The data area's first bytes, as many as each length says.
fn media_of(out: &mut Output<impl Write>, fat: &[u16], area: &[u8], lengths: &[usize]) {
    for length in lengths {
        let n = *length;
        if area.len() < n {
            return;
        }
        show_medium(out, fat, &area[..n]);
    }
}

fn media(out: &mut Output<impl Write>) {
    let fat = [0u16; 65527];
    let area = [0u8; 8193];
    media_of(out, &fat[..0], &area, &[0]);
    media_of(out, &fat[..2], &area, &[0, 4096]);
    media_of(out, &fat[..3], &area, &[0, 4095, 4096, 4097, 8192]);
    media_of(out, &fat[..4], &area, &[4096, 8191, 8192, 8193]);
    media_of(out, &fat[..65526], &area, &[0, 8192]);
    media_of(out, &fat, &area, &[0, 8192]);
}

// A block's first and last byte.
fn show_part(out: &mut Output<impl Write>, part: &[u8]) {
    out.number(part.len() as u64);
    if part.len() < 4096 {
        return;
    }
    out.number(part[0] as u64);
    out.number(part[4095] as u64);
}

fn show_block(out: &mut Output<impl Write>, fat: &[u16], area: &[u8], b: usize) {
    out.named(b"block ", b as u64);
    let has = medium::blocks::has_block(fat, area, b);
    out.number(has as u64);
    if has {
        show_part(out, medium::blocks::block(area, b));
    }
    out.line_end();
}

fn blocks_of(out: &mut Output<impl Write>, fat: &[u16], area: &[u8], numbers: &[usize]) {
    for b in numbers {
        show_block(out, fat, area, *b);
    }
}

fn blocks(out: &mut Output<impl Write>) {
    let fat = [0u16; 4];
    let mut area = [0u8; 8192];
    area[0] = 17;
    area[4095] = 18;
    area[4096] = 19;
    area[8191] = 20;
    blocks_of(out, &fat, &area, &[0, 1, 2, 3, 4, 65535, 4294967298]);
    out.text(b"no medium: ");
    blocks_of(out, &fat, &area[..8191], &[2]);
}

fn show_free(out: &mut Output<impl Write>, fat: &[u16], hint: u32) {
    if 65526 < fat.len() {
        return;
    }
    let r = medium::blocks::next_free(fat, hint);
    out.text(b"next_free");
    out.number(fat.len() as u64);
    out.number(hint as u64);
    out.text(b":");
    out.number(r.block.is_some() as u64);
    out.number(r.block.unwrap_or(0) as u64);
    out.answer(r.hint as u64);
}

fn free_of(out: &mut Output<impl Write>, name: &[u8], fat: &[u16], hints: &[u32]) {
    for hint in hints {
        out.text(name);
        show_free(out, fat, *hint);
    }
}

fn free_blocks(out: &mut Output<impl Write>) {
    let low = [0u16, 0, 1, 0];
    free_of(
        out,
        b"last free, ",
        &low,
        &[0, 1, 2, 3, 4, 5, 65526, 4294967295],
    );
    free_of(out, b"first free, ", &[1, 1, 0, 1], &[0, 1, 2, 3]);
    free_of(out, b"both free, ", &[1, 1, 0, 0], &[0, 3]);
    free_of(out, b"none free, ", &[0, 0, 1, 65535], &[0, 3]);
    free_of(out, b"none there, ", &low[..2], &[0, 7]);
    free_of(out, b"no entry, ", &low[..0], &[0]);
}

pub(crate) fn all(out: &mut Output<impl Write>) {
    media(out);
    blocks(out);
    free_blocks(out);
}
