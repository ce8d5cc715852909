// Recordings of calls: each line is read and run against a session.
#![tactic(auto)]

pub mod calls;
pub mod input;
