// Copies of sessions as bytes: written, read, and the laws that both are one another's undoing.
#![tactic(auto)]

pub mod laws;
pub mod named;
pub mod output;
mod placing;
pub mod reading;
pub mod writing;
