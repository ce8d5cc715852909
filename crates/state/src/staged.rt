// The staged clusters.
ghost use Rattle.std.specs.Prelude.{◌≡◌};
ghost use Rattle.state.specs.Staged.{slot_of, free_slot, free_slots};

use crate::w::{NST, St};
use records::places::{count_free, first_free, index_of};

// The staging slot of cluster `c`.
pub fn slot_of(st: &[St; NST], c: u32) -> Option<usize>
    ensures { result ≡ slot_of st.now c }
{
    index_of(st, c as usize)
}

// The first slot that is not in use.
pub fn free_slot(st: &[St; NST]) -> Option<usize>
    ensures { result ≡ free_slot st.now }
{
    first_free(st)
}

// How many slots are not in use.
pub fn free_slots(st: &[St; NST]) -> usize
    ensures { result ≡ free_slots st.now }
{
    count_free(st)
}
