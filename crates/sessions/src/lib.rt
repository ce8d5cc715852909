// The calls that make a session.

#![tactic(auto)]

pub mod gone;
pub mod mode;
pub mod poll;
pub mod start;
