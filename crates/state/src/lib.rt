// The session's state, and what is looked up in it.

#![tactic(auto)]

pub mod pairs;
pub mod queries;
pub mod staged;
pub mod w;
