//! Where the file of an outline module is looked for, after rust-analyzer's `ModDir`.
//!
//! `ModDir::candidates` gives the files that are tried for `mod name;`, and `resolve_candidate` the path of each, as seen
//! from the file that declares the module. The module's file is the first that is there: `resolve_declaration` finds it
//! over any set of files, and says which of them it asked for. A run that has to number the files that it asks for goes
//! over the candidates itself.
#![tactic(auto)]

pub mod candidate;
pub mod declaration;
pub mod laws;
pub mod mod_dir;
mod path_text;

pub use candidate::{Candidate, resolve_candidate};
pub use declaration::{Declaration, PresentFiles, resolve_declaration};
pub use mod_dir::ModDir;
