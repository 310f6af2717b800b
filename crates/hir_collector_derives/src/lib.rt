//! What derives do to a run of the collector, and what is dropped.
#![tactic(auto)]

pub mod derives;
