//! What a run of the collector begins with, and what it does to a map besides walking: what its crate's top says, preludes, the macros
//! and helpers in scope, the sources that it asks for, and what is reported of what is left over.
#![tactic(auto)]

pub mod called;
pub mod censor;
pub mod crate_top;
pub mod diagnostics;
pub mod extern_prelude;
pub mod first_keys;
pub mod helpers;
pub mod leftovers;
pub mod macro_use;
pub mod preludes;
pub mod sources;
pub mod start_data;
pub mod textual;
