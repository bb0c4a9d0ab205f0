// What a store means, its keys and values, and that a lent store is a store.
#![tactic(auto)]

pub mod entries;
pub mod keys;
pub mod lent;
pub mod meaning;
pub mod refusal;
pub mod sighting;
pub mod spot;
pub mod values;
