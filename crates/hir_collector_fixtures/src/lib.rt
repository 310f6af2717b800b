//! What tests of the collector stand on, apart from them, so that it is proved once and beside the collector.
#![tactic(auto)]

pub mod crates;
