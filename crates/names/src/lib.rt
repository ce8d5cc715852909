// Names of root slots.

#![tactic(auto)]

pub mod entries;
pub mod text;
