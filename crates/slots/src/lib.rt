// Directory slots: the 32 bytes at a place of a sector.

#![tactic(auto)]

pub mod dates;
pub mod fields;
pub mod refers;
