// The medium, what is read of it, and the search for a free block.

#![tactic(auto)]

pub mod blocks;
pub mod reads;
