// The lines that set the state: directly, and its mode.

#![tactic(auto)]

pub mod direct;
pub mod fields;
pub mod mode;
