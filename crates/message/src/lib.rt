// How a message is laid out: varints, the fields before the cipher, and what a copy seals.
#![tactic(auto)]

pub mod frame;
pub mod varint;
