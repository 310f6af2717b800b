//! What a run of the collector begins with, and the walk over the items of its root.
#![tactic(auto)]

pub mod begin;
