// What any store takes in: copy bytes, and all that another store shows.
#![tactic(auto)]

pub mod laws;
pub mod merge;
pub mod take_refusal;
pub mod taking;
