// A floor laid over any store.
#![tactic(auto)]

pub mod layer;
