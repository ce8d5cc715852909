// The host's FAT entries.
ghost use Rattle.std.specs.Prelude.{◌≡◌, ℕ, ◌<◌};
ghost use Rattle.state.specs.Pairs.{pair_idx, pair_of, free_pair, free_pairs, drop_at, add_at, set_pair};
ghost use Rattle.state.specs.Staged.{slot_of};

use crate::staged::slot_of;
use crate::w::{NPAIR, Pair, St, W};
use records::places::{count_free, first_free, index_of};

// The place with the pair of cluster `c`.
pub fn pair_idx(pair: &[Pair; NPAIR], c: u32) -> Option<usize>
    ensures { result ≡ pair_idx pair.now c }
{
    index_of(pair, c as usize)
}

// The host's FAT entry of cluster `c`, if it wrote one.
pub fn pair_of(pair: &[Pair; NPAIR], c: u32) -> Option<u16>
    ensures { result ≡ pair_of pair.now c }
{
    let i = pair_idx(pair, c)?;
    Some(pair[i].v)
}

// The first place that is not in use.
pub fn free_pair(pair: &[Pair; NPAIR]) -> Option<usize>
    ensures { result ≡ free_pair pair.now }
{
    first_free(pair)
}

// How many places are not in use.
pub fn free_pairs(pair: &[Pair; NPAIR]) -> usize
    ensures { result ≡ free_pairs pair.now }
{
    count_free(pair)
}

// A staging slot is not in use any more.
fn drop_slot(w: &mut W, c: u32)
    ensures { w.new ≡ drop_at w.old (slot_of w.old.st c) }
{
    let Some(k) = slot_of(&w.st, c) else {
        return;
    };
    w.st[k] = St::unused();
}

// A new pair in the first free place.
fn add_pair(w: &mut W, c: u16, v: u16)
    ensures { w.new ≡ add_at w.old c v (free_pair w.old.pair) }
{
    let Some(i) = free_pair(&w.pair) else {
        return;
    };
    w.pair[i] = Pair { c, v };
}

// The FAT entry of cluster `c` becomes `v`; 0 removes the pair and its staging slot.
pub fn set_pair(w: &mut W, c: u16, v: u16)
    ensures { w.new ≡ set_pair w.old c v }
{
    let Some(i) = pair_idx(&w.pair, c as u32) else {
        if v != 0 {
            add_pair(w, c, v);
        }
        return;
    };
    if v == 0 {
        w.pair[i] = Pair { c: 0, v: 0 };
        drop_slot(w, c as u32);
        return;
    }
    w.pair[i].v = v;
}
