//! The associated items of traits and impls, and how a call's expansion is looked up.
#![tactic(auto)]

pub mod assoc;
pub mod container;
pub mod depth;
pub mod error;
pub mod expansions;
pub mod flatten;
pub mod laws;
pub mod query;
pub mod sources;
pub mod written;

pub use assoc::{ImplItems, TraitItems};
