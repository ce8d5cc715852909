// How data written to a host cluster is staged.

#![tactic(auto)]

pub mod blocks;
pub mod moves;
