//! Macro calls that wait until something changes that their paths have read.
//!
//! A call that is tried and reaches no macro watches each slot that its path has read, and an attribute besides the item that
//! it stands on, since a derive may bring a helper of its name into scope there. `Changed` has the slots that may stand for
//! something else since, and the items on which helpers came into scope; `CallQueue::wake` queues what watches one of them.
//! So to try a call that isn't queued would be in vain.
#![tactic(auto)]

pub mod queue;

pub use hir_import_growth::Changed;
pub use queue::CallQueue;
