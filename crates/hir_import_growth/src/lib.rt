//! A map that is built grows: which slots have changed, what is bound in it, and what is known of its globs meanwhile.
//!
//! `Changed` has the slots that may stand for something else than they did, and the items on which helpers of derives came into
//! scope. Where something is bound, `forget` notes where to look along globs; so what is known of them lasts.
#![tactic(auto)]

pub mod changed;
pub mod forgetting;
pub mod visibilities;

pub use changed::Changed;
pub use forgetting::forget;
