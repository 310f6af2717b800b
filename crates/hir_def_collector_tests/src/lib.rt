//! Tests of `hir_def_collector`, over what it makes public; apart from it, so that it is proved once.
#![tactic(auto)]

#[cfg(test)]
mod collector;
