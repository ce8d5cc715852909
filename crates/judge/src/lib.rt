// How a written sector is judged by its place.

#![tactic(auto)]

pub mod boot;
pub mod classify;
mod data;
