//! Tests of `hir_assoc_items`, over what it makes public; apart from it, so that it is proved once.
#![tactic(auto)]

#[cfg(test)]
mod diagnostics;
#[cfg(test)]
mod lists;
#[cfg(test)]
mod queries;
#[cfg(test)]
mod readers;
