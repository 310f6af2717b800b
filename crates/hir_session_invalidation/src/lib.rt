//! Runs of the import rules over what was handed in, and the places that an edit of it invalidates.
#![tactic(auto)]

pub mod edited_source;
pub mod inputs;
pub mod invalidate;
pub mod sources;
