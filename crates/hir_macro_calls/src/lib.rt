//! Macro calls, paths of derives and attributes that wait: what is due of each, and the queue in which they stand between tries.
#![tactic(auto)]

pub mod due;
pub mod queue;
pub mod waiting;
