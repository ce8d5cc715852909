// The lines that make a medium.

#![tactic(auto)]

pub mod media;
