//! Macro calls, paths of derives and attributes in rounds: each waits until it reaches a macro, and what it expands to is walked.
#![tactic(auto)]

pub mod calls;
mod resume;
