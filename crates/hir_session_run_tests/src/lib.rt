//! Tests of sessions of `hir_session` by its `run`: over readers and writers that give little or fail, over input that ends anywhere, and over
//! input that is built: the most that a session takes, and a long chain of imports.
//!
//! Sessions that are given line by line stand in `hir_session_rows`, those by the library's calls in `hir_session_tests`.
#![tactic(auto)]

#[cfg(test)]
mod built;
#[cfg(test)]
mod chain;
#[cfg(test)]
mod faults;
#[cfg(test)]
mod sessions;
#[cfg(test)]
mod streams;
