// The calls that make a session, for a firmware to link: by reference, as those of the crate vwrite.

#![tactic(auto)]

pub mod ends;
pub mod gone;
pub mod mode;
pub mod start;
