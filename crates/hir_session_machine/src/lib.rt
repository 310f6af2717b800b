//! What answers lines: a session, or none before the first that is made.
#![tactic(auto)]

pub use hir_lines;
pub use hir_session_core;
pub use hir_wire;

pub mod server_state;
