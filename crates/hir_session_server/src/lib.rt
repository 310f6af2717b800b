//! A machine over a reader and a writer: bytes as they come, cut into lines, each answered.
#![tactic(auto)]

pub mod server;
