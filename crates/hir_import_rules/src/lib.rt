//! What imports are, what they bring, and the rules by which they are taken.
#![tactic(auto)]

pub mod directive;
pub mod error;
pub mod namespaces;
pub mod taken;

pub use directive::{ImportDirective, ImportSource};
pub use error::ImportError;
pub use namespaces::Namespaces;
pub use taken::Taken;
