// What the lines of a recording go on from.

#![tactic(auto)]

pub mod session;
