//! What items that bind their names do to a run of the collector.
#![tactic(auto)]

pub mod declare;
pub mod enums;
pub mod exports;
