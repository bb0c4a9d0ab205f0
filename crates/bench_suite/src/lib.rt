// The bench suite: parts are 64-bit numbers, and the cipher of a text is the text itself.
#![tactic(auto)]

pub mod suite;
pub mod word;
