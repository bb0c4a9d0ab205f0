// A session's own side: sealing messages and sharing copies, written once for every suite.
#![tactic(auto)]

mod sealing;
pub mod sender;
