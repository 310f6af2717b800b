//! Tests of `hir_session` by its calls for the items of traits and impls; apart from it, so that it is proved once, and from its
//! other tests, so that they are proved side by side.
#![tactic(auto)]

#[cfg(test)]
mod items;
