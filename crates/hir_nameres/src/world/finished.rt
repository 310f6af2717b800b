//! A finished map, and what a world keeps with it.

use crate::nameres::DefMap;
use hir_base::ids::{MapId, ModuleId};
use hir_def_map_rules::local_def_map::LocalDefMap;
use std::collections::BTreeSet;

/// A finished map in its place.
#[derive(Drop)]
pub struct Finished {
    pub map: DefMap,
    /// The crates that its paths may begin with.
    pub local: LocalDefMap,
    /// The module that holds the block, the one that holds that one's block, and so on.
    pub holders: Vec<ModuleId>,
    /// The recorded ones of the maps that it refers to: on all others it depends through these.
    pub named: BTreeSet<MapId>,
}
