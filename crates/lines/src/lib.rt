// Lines of text: their numbers, hex bytes and words.

#![tactic(auto)]

pub mod digits;
pub mod words;
