//! Where the items are that a module or an extern block holds: beside it, or in the file that is found for it, after rust-analyzer's
//! `mod_resolution`.
#![tactic(auto)]

pub mod mod_resolution;
pub mod modules;
