// The ratchet of a session and what is held of it, written once for every suite.
#![tactic(auto)]

pub mod advance;
pub mod copies;
pub mod holdings;
pub mod ids;
pub mod laws;
pub mod suite;
