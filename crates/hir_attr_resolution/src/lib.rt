//! The attributes of items: which are looked up, which stand for nothing, and which list derives.
#![tactic(auto)]

pub mod attributes;
pub mod builtin_attr;
