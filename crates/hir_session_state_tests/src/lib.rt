//! Tests of `hir_session_state`, over what it makes public; apart from it, so that it is proved once.
#![tactic(auto)]

#[cfg(test)]
mod errors;
