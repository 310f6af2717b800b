//! Tests of `hir_session` by its calls; apart from it, so that it is proved once, and beside the program's own.
//!
//! Sessions that are given line by line stand in `hir_session_rows`.
#![tactic(auto)]

#[cfg(test)]
mod attributes;
#[cfg(test)]
mod calls;
#[cfg(test)]
mod crate_data;
#[cfg(test)]
mod eager;
#[cfg(test)]
mod library;
