// A script of calls: its lines, and the commands that they are.
#![tactic(auto)]

pub mod commands;
pub mod fault;
pub mod lines;
mod verbs;
mod words;
