//! Def maps, and the worlds of finished ones.
//!
//! What def maps are and what paths mean in them stands in `hir_nameres`, and is handed on. A `World` has finished maps, none of
//! which refers to what isn't there: `insert` tests it, and `remove_with_dependents` removes all that refer to a map with it.
#![tactic(auto)]

pub use hir_nameres::{def_maps, laws, nameres, resolve_visibility};

pub mod world;

pub use def_maps::DefMaps;
pub use nameres::crate_data::DefMapCrateData;
pub use nameres::diagnostics::{DefDiagnostic, DefDiagnosticKind, DefDiagnostics};
pub use nameres::enum_variants::{EnumVariant, EnumVariants};
pub use nameres::local_def_map::LocalDefMap;
pub use nameres::module_data::ModuleData;
pub use nameres::modules_map::ModulesMap;
pub use nameres::origin::{ModuleOrigin, ModuleSource};
pub use nameres::path_resolution::{
    BuiltinShadowMode, MacroSubNs, ReachedFixedPoint, ResolveMode, ResolvePathResult,
    ResolvePathResultPrefixInfo,
};
pub use nameres::{AddModuleError, BlockInfo, DefMap};
pub use world::World;
pub use world::insert::{InsertError, Refused};
pub use world::part::WorldPart;
