//! Tests of `hir_mod_dir`, over what it makes public; apart from it, so that it is proved once.
#![tactic(auto)]

#[cfg(test)]
mod files;
#[cfg(test)]
mod rows;
