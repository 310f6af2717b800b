//! Macros in textual scope, which rust-analyzer calls legacy macros: `TextualScope`, whose clones share what they have in common.
#![tactic(auto)]

pub mod laws;
mod node;
#[cfg(test)]
mod tests;
pub mod textual_scope;

pub use textual_scope::{MacrosOf, TextualMacro, TextualMacros, TextualScope};
