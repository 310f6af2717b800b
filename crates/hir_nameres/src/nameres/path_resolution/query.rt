//! How a path is asked for.

use crate::def_maps::DefMaps;
use crate::nameres::path_resolution::{BuiltinShadowMode, MacroSubNs, ResolveMode};
use hir_def_map_rules::local_def_map::LocalDefMap;

/// The maps, the crates that a path may begin with, and how it is asked for.
#[derive(Clone, Copy)]
pub struct Query<'a> {
    pub maps: DefMaps<'a>,
    /// Without it a path may begin with no other crate.
    pub local: Option<&'a LocalDefMap>,
    pub mode: ResolveMode,
    pub shadow: BuiltinShadowMode,
    pub sub_ns: Option<MacroSubNs>,
}
