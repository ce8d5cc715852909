// The lines of written sectors.

#![tactic(auto)]

mod sectors;
pub mod writes;
