//! The numbers of files, blocks, expansions and macro calls: tables that only grow, so a number means one value for
//! good.
#![tactic(auto)]

mod interner;
pub mod laws;
pub mod source_place;
pub mod tables;

pub use source_place::SourcePlace;
pub use tables::Tables;
