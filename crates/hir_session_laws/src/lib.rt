//! What holds of all that a session does.
#![tactic(auto)]

pub mod laws;
