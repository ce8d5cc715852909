// The digits that a line begins with, decimal and hex, and the rest of the line.
ghost use Rattle.std.specs.Prelude.{◌≡◌, ◌*◌, ◌+◌, ◌<◌, ◌≤◌, IfSome, option_map, leb, length};
ghost use Rattle.lines.specs.Digits.{is_digit, read, number_at, field_end, number_field, hex_digit, hex_byte};

fn is_digit(c: u8) -> bool
    ensures { result ≡ is_digit c }
{
    c.is_ascii_digit()
}

// Is a number that goes on with digit `d` still at most `most`.
fn has_room(v: u64, d: u64, most: u64) -> bool
    requires { v ≤ most }
    ensures { result ≡ leb (v * 10 + d) most }
{
    v <= most / 10 && d <= most - v * 10
}

// The number `v` of `n` digits, if there are any.
fn read(line: &[u8], n: usize, v: u64) -> Option<(u64, &[u8])>
    requires { n ≤ length line.now }
    ensures { option_map (λ r. (r.0, r.1.now)) result ≡ read line.now n v }
{
    if n == 0 {
        return None;
    }
    Some((v, &line[n..]))
}

// The number that the line begins with: one digit or more, and at most `most`.
fn digits(line: &[u8], most: u64) -> Option<(u64, &[u8])>
    ensures { option_map (λ r. (r.0, r.1.now)) result ≡ number_at line.now most }
{
    let mut v = 0;
    for i in 0..line.len() {
        let c = line[i];
        if !is_digit(c) {
            return read(line, i, v);
        }
        let d = u64::from(c - b'0');
        if !has_room(v, d, most) {
            return None;
        }
        v = v * 10 + d;
    }
    read(line, line.len(), v)
}

// A field ends with the line or with its separator, which is passed.
pub fn field_end(rest: &[u8], sep: u8) -> Option<&[u8]>
    ensures { option_map (λ r. r.now) result ≡ field_end rest.now sep }
{
    if rest.is_empty() {
        return Some(rest);
    }
    if rest[0] != sep {
        return None;
    }
    Some(&rest[1..])
}

// A field that is a number.
pub fn number(line: &[u8], sep: u8, most: u64) -> Option<(u64, &[u8])>
    ensures field { option_map (λ r. (r.0, r.1.now)) result ≡ number_field line.now sep most }
    ensures onward { IfSome result (λ r. (r.0 ≤ most) × (length r.1.now < length line.now)) }
{
    let (v, rest) = digits(line, most)?;
    Some((v, field_end(rest, sep)?))
}

// A hex digit's value.
fn hex_digit(c: u8) -> Option<u8>
    ensures value { result ≡ hex_digit c }
    ensures most { IfSome result (λ v. v < 16) }
{
    match c {
        b'0'..=b'9' => Some(c - b'0'),
        b'A'..=b'F' => Some(c - 55),
        b'a'..=b'f' => Some(c - 87),
        _ => None,
    }
}

// The byte that two hex digits give.
fn hex_byte(high: u8, low: u8) -> Option<u8>
    ensures { result ≡ hex_byte high low }
{
    Some(hex_digit(high)? * 16 + hex_digit(low)?)
}

// The bytes that the hex digits give with which the line begins, put into `out`: how many, and the rest of the line.
// Where their number is odd or `out` is too short the answer is None, and the pairs that fit are stored all the same.
pub fn hex_bytes<'a>(line: &'a [u8], out: &mut [u8]) -> Option<(usize, &'a [u8])>
    ensures onward { IfSome result (λ r. length r.1.now < length line.now) }
    ensures room { length out.new ≡ length out.old }
{
    let n = line
        .iter()
        .position(|c| !c.is_ascii_hexdigit())
        .unwrap_or(line.len());
    let bytes = n / 2;
    for i in 0..bytes.min(out.len()) {
        out[i] = hex_byte(line[2 * i], line[2 * i + 1])?;
    }
    if n == 0 || n % 2 == 1 || out.len() < bytes {
        return None;
    }
    Some((bytes, &line[n..]))
}
