// A bad line answers nothing, and may leave some of its values set.
use lines::digits::{hex_bytes, number};
use session_lines::session::{Medium, Session, Step, silent, with_medium};

fn fill_entries(fat: &mut [u16], from: usize, to: usize, v: u16) {
    for e in fat.iter_mut().take(to).skip(from) {
        *e = v;
    }
}

// `medium N LEN FILL`
pub fn medium(s: Session, line: &[u8], fat: &mut [u16], area: &mut [u8]) -> Option<Step> {
    let (n, rest) = number(line, b' ', fat.len() as u64)?;
    let (len, rest) = number(rest, b' ', area.len() as u64)?;
    let (v, rest) = number(rest, b' ', 255)?;
    if !rest.is_empty() {
        return None;
    }
    let entries = n as usize;
    let bytes = len as usize;
    fill_entries(fat, 0, entries, 0);
    area[..bytes].fill(v as u8);
    Some(with_medium(
        s,
        Medium {
            entries,
            bytes,
            lent_entries: entries,
            lent_bytes: bytes,
        },
    ))
}

// `mfill V FROM TO`
pub fn mfill(s: Session, line: &[u8], fat: &mut [u16]) -> Option<Step> {
    let (v, rest) = number(line, b' ', 65535)?;
    let (first, rest) = number(rest, b' ', s.m.entries as u64)?;
    let (end, rest) = number(rest, b' ', s.m.entries as u64)?;
    if !rest.is_empty() || end < first {
        return None;
    }
    fill_entries(fat, first as usize, end as usize, v as u16);
    Some(silent(s))
}

// The values of `mfat`, from entry `first` on.
fn entries(line: &[u8], fat: &mut [u16], first: usize, end: usize) -> Option<()> {
    let mut left = line;
    let mut i = first;
    // What is read decides how far a turn goes, so no range goes over the values.
    while !left.is_empty() {
        let (v, rest) = number(left, b' ', 65535)?;
        if end <= i {
            return None;
        }
        *fat.get_mut(i)? = v as u16;
        left = rest;
        i += 1;
    }
    Some(())
}

// `mfat I V ..`
pub fn mfat(s: Session, line: &[u8], fat: &mut [u16]) -> Option<Step> {
    let end = s.m.entries;
    let (i, rest) = number(line, b' ', end as u64)?;
    entries(rest, fat, i as usize, end)?;
    Some(silent(s))
}

// `mdata OFFSET HEX`
pub fn mdata(s: Session, line: &[u8], area: &mut [u8]) -> Option<Step> {
    let bytes = s.m.bytes;
    let (off, rest) = number(line, b' ', bytes as u64)?;
    let (_, rest) = hex_bytes(rest, area.get_mut(off as usize..bytes)?)?;
    if !rest.is_empty() {
        return None;
    }
    Some(silent(s))
}

// `lend N LEN`
pub fn lend(s: Session, line: &[u8]) -> Option<Step> {
    let (n, rest) = number(line, b' ', s.m.entries as u64)?;
    let (len, rest) = number(rest, b' ', s.m.bytes as u64)?;
    if !rest.is_empty() {
        return None;
    }
    Some(with_medium(
        s,
        Medium {
            lent_entries: n as usize,
            lent_bytes: len as usize,
            ..s.m
        },
    ))
}
