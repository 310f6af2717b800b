//! How the expansion of what waits is looked up, and what is reported of it.
#![tactic(auto)]

pub mod expansion;
