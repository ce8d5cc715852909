// Chains of the host's files.

#![tactic(auto)]

ghost use Rattle.std.specs.Prelude.{◌≡◌, ◌-◌, ◌*◌, ◌^◌, ◌<◌, ◌≤◌, eqb, get_or};
ghost use Rattle.loops.specs.Loops.{some};
ghost use Rattle.state.specs.State.{max_slots};
ghost use Rattle.chains.specs.Chains.{staged_at, no_chain, complete_of};
ghost use Rattle.chains.specs.Needed.{needed_at};

use state::pairs::pair_of;
use state::staged::slot_of;
use state::w::{NPAIR, NST, Pair, St};
use vdisk::drive::{CB, SPC, nclus};

// Is a file's chain complete; its staging slots in the file's order, zeros after them, and how many they are, 0 if it isn't. The paper names the flag beside them.
#[derive(Clone, Copy)]
pub struct Chain {
    pub found: bool,
    pub slots: [u8; NST],
    pub n: usize,
}

// Slot `i` is one of the first `k`.
fn is_repeated(slots: [u8; NST], k: usize, i: u8) -> bool
    requires { k ≤ max_slots }
    ensures { result ≡ some (λ j. eqb (get_or slots j 0) i) k 0 }
{
    slots[..k].contains(&i)
}

// The sectors of the `k`-th cluster that the file reaches into, by bit.
fn need_of(size: u32, k: usize) -> u64
    requires { k * 32768 < size }
    ensures { result ≡ 2 ^ needed_at size k - 1 }
{
    let left = size - (k as u32) * CB;
    let secs = (left.min(CB) + 511) / 512;
    if secs >= SPC {
        return 0xFFFFFFFFFFFFFFFF;
    }
    (1u64 << secs) - 1
}

// Every needed sector is staged.
fn is_staged(x: &St, size: u32, k: usize) -> bool
    requires { k * 32768 < size }
    ensures { result ≡ staged_at x.now size k }
{
    let need = need_of(size, k);
    x.map & need == need
}

fn no_chain() -> Chain
    ensures { result ≡ no_chain }
{
    Chain {
        found: false,
        slots: [0u8; NST],
        n: 0,
    }
}

// The chain of a file by its start and size: every cluster has a pair and a staging slot of its own, with every needed sector staged, and the
// last link is from 0xFFF8 up.
pub fn complete(pair: &[Pair; NPAIR], st: &[St; NST], start: u32, size: u32) -> Chain
    ensures { result ≡ complete_of pair.now st.now start size }
{
    let n = nclus(size) as usize;
    if n > NST {
        return no_chain();
    }
    if n == 0 {
        return no_chain();
    }
    let mut slots = [0u8; NST];
    let mut c = start;
    for k in 0..n {
        let Some(next) = pair_of(pair, c) else {
            return no_chain();
        };
        let Some(i) = slot_of(st, c) else {
            return no_chain();
        };
        if is_repeated(slots, k, i as u8) {
            return no_chain();
        }
        if !is_staged(&st[i], size, k) {
            return no_chain();
        }
        slots[k] = i as u8;
        c = next as u32;
    }
    if c < 0xFFF8 {
        return no_chain();
    }
    Chain {
        found: true,
        slots,
        n,
    }
}
