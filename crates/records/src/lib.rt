// The host's records in the root.

#![tactic(auto)]

pub mod places;

ghost use Rattle.std.specs.Prelude.{◌≡◌, ℕ, replicate, is_some};
ghost use Rattle.std.specs.Option.{unwrap_or};
ghost use Rattle.records.specs.Records.{rec_idx, free_rec, free_recs, root_rec};

use crate::places::{Place, count_free, first_free, index_of};

// Places for records.
pub const NREC: usize = 10;

// A raw slot, and the root slot that it stands for, 0 where the place is not in use.
#[repr(C)]
#[derive(Clone, Copy)]
pub struct Rec {
    pub slot: u16,
    pub e: [u8; 32],
}

impl Place for Rec {
    ghost key = { λ r. r.slot };

    fn key(&self) -> u16 {
        self.slot
    }
}

// The place of the record of root slot `idx`.
pub fn rec_idx(rec: &[Rec; NREC], idx: usize) -> Option<usize>
    ensures { result ≡ rec_idx rec.now idx }
{
    index_of(rec, idx)
}

// The first place that is not in use.
pub fn free_rec(rec: &[Rec; NREC]) -> Option<usize>
    ensures { result ≡ free_rec rec.now }
{
    first_free(rec)
}

// How many places are not in use.
pub fn free_recs(rec: &[Rec; NREC]) -> usize
    ensures { result ≡ free_recs rec.now }
{
    count_free(rec)
}

// The bytes of the host's record in root slot `idx`, if there is one. The definition gives zeros where there is none.
pub fn root_rec(rec: &[Rec; NREC], idx: usize) -> Option<[u8; 32]>
    ensures found { is_some result ≡ (root_rec rec.now idx).found }
    ensures bytes { unwrap_or result (replicate 32 0) ≡ (root_rec rec.now idx).e }
{
    let i = rec_idx(rec, idx)?;
    Some(rec[i].e)
}
