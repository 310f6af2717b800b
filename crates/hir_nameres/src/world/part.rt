//! A restricted view of a world.
ghost use Rattle.hir_nameres.specs.World.{IsChecked};

mod look_up;

use crate::world::finished::Finished;
use hir_base::ids::{MapId, ModuleId};
use hir_def_map_rules::hir_crate_graph::CrateSet;
use std::collections::BTreeMap;

/// The maps of a world that may be read: all, or those of some crates and those in which some modules lie that hold a
/// block.
///
/// A map may be read only if the maps of all that holds it may be read too.
#[derive(Clone, Copy)]
pub struct WorldPart<'a> {
    maps: &'a BTreeMap<MapId, Finished>,
    /// Without it all maps may be read.
    crates: Option<&'a CrateSet>,
    holders: &'a [ModuleId],
    ghost checked: { IsChecked maps.now },
}
