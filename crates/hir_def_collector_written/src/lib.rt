//! What holds between what the sources write and what a run comes to: laws that no crate stands on.
#![tactic(auto)]

pub mod laws;
