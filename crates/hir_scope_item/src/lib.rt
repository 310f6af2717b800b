//! What a name is bound to in one namespace.
#![tactic(auto)]

pub mod item;
