// The lines of the calls that may end the session.

#![tactic(auto)]

pub mod calls;
pub mod ends;
