// The lines that set the state directly, for corners that no call reaches.
use lines::digits::{hex_bytes, number};
use records::Rec;
use session_lines::session::{Session, Step, with_state};
use state::w::{BPC, Pair, St};

// `pair I C V`
pub fn pair(s: Session, line: &[u8]) -> Option<Step> {
    let (i, rest) = number(line, b' ', 39)?;
    let (c, rest) = number(rest, b' ', 65535)?;
    let (v, rest) = number(rest, b' ', 65535)?;
    if !rest.is_empty() {
        return None;
    }
    let mut w = s.w;
    w.pair[i as usize] = Pair {
        c: c as u16,
        v: v as u16,
    };
    Some(with_state(s, w))
}

// A number for each block.
fn blocks<'a>(line: &'a [u8], blk: &mut [u16; BPC]) -> Option<&'a [u8]> {
    let mut left = line;
    for b in blk.iter_mut() {
        let (v, rest) = number(left, b' ', 65535)?;
        *b = v as u16;
        left = rest;
    }
    Some(left)
}

// `slot I C SEALED RO MAP B0 .. B7`
pub fn slot(s: Session, line: &[u8]) -> Option<Step> {
    let (i, rest) = number(line, b' ', 27)?;
    let (c, rest) = number(rest, b' ', 65535)?;
    let (sealed, rest) = number(rest, b' ', 1)?;
    let (ro, rest) = number(rest, b' ', 255)?;
    let (map, rest) = number(rest, b' ', 18446744073709551615)?;
    let mut blk = [0u16; BPC];
    if !blocks(rest, &mut blk)?.is_empty() {
        return None;
    }
    let mut w = s.w;
    w.st[i as usize] = St {
        c: c as u16,
        sealed: sealed == 1,
        ro: ro as u8,
        map,
        blk,
    };
    Some(with_state(s, w))
}

// `rec I SLOT HEX`
pub fn rec(s: Session, line: &[u8]) -> Option<Step> {
    let (i, rest) = number(line, b' ', 9)?;
    let (slot, rest) = number(rest, b' ', 65535)?;
    let mut e = [0u8; 32];
    let (n, rest) = hex_bytes(rest, &mut e)?;
    if n != 32 || !rest.is_empty() {
        return None;
    }
    let mut w = s.w;
    w.rec[i as usize] = Rec {
        slot: slot as u16,
        e,
    };
    Some(with_state(s, w))
}
