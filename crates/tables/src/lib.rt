// The keyed table over slots that the caller lends, a store of sessions and of sightings alike.
#![tactic(auto)]

pub mod keys;
pub mod slots;
pub mod table;
