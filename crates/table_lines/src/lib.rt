// The lines of the table: a start, and reports of gone.

#![tactic(auto)]

pub mod gone;
pub mod start;
