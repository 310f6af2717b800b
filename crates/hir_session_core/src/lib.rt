//! The session: it takes edits, resolves again what they invalidate, and is asked what paths mean.
#![tactic(auto)]

pub use hir_session_invalidation;
pub use hir_session_sources;
pub use hir_session_state;

pub mod session;
