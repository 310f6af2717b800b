//! What items that define macros, and items that import, do to a run of the collector.
#![tactic(auto)]

pub mod imports;
pub mod macros;
