// Opening messages by what a store shows of a session.
#![tactic(auto)]

pub mod laws;
pub mod open;
pub mod unseal;
