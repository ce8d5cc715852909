// What is printed of a session, and of a line's answer.
#![tactic(auto)]

pub mod shown;
