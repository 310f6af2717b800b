//! Into which lines an input is cut, and how a reply is written.
#![tactic(auto)]

pub mod open_line;
pub mod output;
