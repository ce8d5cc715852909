// Slots of two sectors compared: equal, equal but for dates, turned.
ghost use Rattle.std.specs.Prelude.{◌≡◌, ℕ, ◌+◌, ◌-◌, ◌<◌, ◌≤◌, length};
ghost use Rattle.slots.specs.Slots.{is_date, same_slot, date_at, dates_only, turn_at};
ghost use Rattle.loops.specs.Loops.{all};

// Is byte `i` of a slot a date's.
pub fn is_date(i: usize) -> bool
    ensures { result ≡ is_date i }
{
    if i < 0x0D {
        return false;
    }
    if i <= 0x13 {
        return true;
    }
    if i < 0x16 {
        return false;
    }
    i <= 0x19
}

// Are the slots at `at` equal.
pub fn same_slot(a: &[u8], b: &[u8], at: usize) -> bool
    requires { (at + 32 ≤ length a.now) × (at + 32 ≤ length b.now) }
    ensures { result ≡ same_slot a.now b.now at }
{
    sector::equal(&a[at..at + 32], &b[at..at + 32])
}

// Is byte `i` of the slots at `at` the same, or a date's.
fn date_at(a: &[u8], b: &[u8], at: usize, i: usize) -> bool
    requires { (at + i < length a.now) × (at + i < length b.now) }
    ensures { result ≡ date_at a.now b.now at i }
{
    let k = at + i;
    if a[k] == b[k] {
        return true;
    }
    is_date(i)
}

// Do the slots at `at` differ in dates at most, from byte `from` on.
fn dates_from(a: &[u8], b: &[u8], at: usize, from: usize) -> bool
    requires { (at + 32 ≤ length a.now) × (at + 32 ≤ length b.now) × (from ≤ 32) }
    ensures { result ≡ all (date_at a.now b.now at) (32 - from) from }
{
    (from..32).all(|i| date_at(a, b, at, i))
}

// Do the slots at `at` differ in dates at most.
pub fn dates_only(a: &[u8], b: &[u8], at: usize) -> bool
    requires { (at + 32 ≤ length a.now) × (at + 32 ≤ length b.now) }
    ensures { result ≡ dates_only a.now b.now at }
{
    dates_from(a, b, at, 0)
}

// Is the slot at `at` turned: shown with another first byte, written with 0xE5, and dates besides.
pub fn is_turn(shown: &[u8], written: &[u8], at: usize) -> bool
    requires { (at + 32 ≤ length shown.now) × (at + 32 ≤ length written.now) }
    ensures { result ≡ turn_at shown.now written.now at }
{
    if shown[at] == 0xE5 {
        return false;
    }
    if written[at] != 0xE5 {
        return false;
    }
    dates_from(shown, written, at, 1)
}
