//! Def maps: the modules of a crate, what their names stand for, and what paths mean in them.
//!
//! A `DefMap` has the modules of a crate or of a block by number, each parent before its children, with the names of each; the
//! variants of its enums; and the names that all its modules see.
//!
//! A path means what it leads to in maps that are looked up by id (`DefMaps`): the finished ones, which what has them lends
//! (`FinishedMaps`), and the one that is built, on top of them. Its first name is looked for in the module, in blocks around it,
//! and among the names that all modules see; each further one in what the names before it reached. The answer is read off the
//! maps: it takes no memory, and depends on nothing but the slots that are read on the way (`hir_def_map_laws`).
#![tactic(auto)]

pub use hir_def_map_rules::{hir_crate_graph, hir_raw_visibility, hir_scope, hir_textual_scope};

pub mod def_maps;
pub mod laws;
pub mod nameres;
pub mod resolve_visibility;
pub mod world;

pub use def_maps::DefMaps;
pub use nameres::DefMap;
pub use world::finished_maps::FinishedMaps;
pub use world::part::WorldPart;
