// The searches among places that hold a number each, 0 where they are not in use.
ghost use Rattle.std.specs.Prelude.{◌≡◌, ℕ, not};
ghost use Rattle.loops.specs.Loops.{some, count};
ghost use Rattle.loops.specs.Found.{find};
ghost use Rattle.loops.specs.Keyed.{used_for, used_place, free_place};

// A place with its number.
pub trait Place {
    ghost key: { Self → ℕ };

    fn key(&self) -> u16
        ensures { result ≡ key self.now };
}

// Is the place in use for number `c`.
fn is_for<P: Place>(p: &P, c: usize) -> bool
    ensures { result ≡ used_for (P.key p.now) c }
{
    let k = p.key();
    if k == 0 {
        return false;
    }
    k as usize == c
}

// The first place that is in use for number `c`.
pub fn index_of<P: Place, const N: usize>(places: &[P; N], c: usize) -> Option<usize>
    ensures { (d : P) → result ≡ find (used_place P.key d places.now c) N }
{
    for (i, p) in places.iter().enumerate() {
        if is_for(p, c) {
            return Some(i);
        }
    }
    None
}

// The first place that is not in use.
pub fn first_free<P: Place, const N: usize>(places: &[P; N]) -> Option<usize>
    ensures { (d : P) → result ≡ find (free_place P.key d places.now) N }
{
    for (i, p) in places.iter().enumerate() {
        if p.key() == 0 {
            return Some(i);
        }
    }
    None
}

// Is a place in use.
pub fn any_used<P: Place, const N: usize>(places: &[P; N]) -> bool
    ensures { (d : P) → result ≡ some (λ i. not (free_place P.key d places.now i)) N 0 }
{
    for p in places {
        if p.key() != 0 {
            return true;
        }
    }
    false
}

// How many places are not in use.
pub fn count_free<P: Place, const N: usize>(places: &[P; N]) -> usize
    ensures { (d : P) → result ≡ count (free_place P.key d places.now) N 0 }
{
    let mut n = 0;
    for p in places {
        if p.key() == 0 {
            n += 1;
        }
    }
    n
}
