//! Visibilities as they are written, after rust-analyzer's `RawVisibility`.
#![tactic(auto)]

pub mod raw_visibility;

pub use raw_visibility::{RawVisibility, VisibilityExplicitness};
