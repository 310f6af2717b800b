//! The dependencies that paths may begin with.
ghost use Rattle.std.specs.Prelude.{◌≡◌, [], IfOk};
ghost use Rattle.hir_collector_rules.specs.Preludes.{extern_prelude, is_kept_away, joins};

use hir_base::ids::{MapId, ModuleId};
use hir_base::name::Name;
use hir_collector_rules::hir_nameres::nameres::crate_data::DefMapCrateData;
use hir_collector_rules::hir_nameres::nameres::local_def_map::LocalDefMap;
use hir_collector_rules::source_database::Dependency;
use std::alloc::{AllocError, Global};

/// Whether a crate of this name is kept away from one that does without the standard or the core library.
fn is_kept_away(crate_data: &DefMapCrateData, name: &Name) -> bool
    ensures value { result ≡ is_kept_away crate_data.now name.now }
{
    (crate_data.no_std() || crate_data.no_core()) && name.as_str() == "std"
        || crate_data.no_core() && name.as_str() == "core"
}

/// Whether a dependency joins those that paths may begin with: of one name the first.
fn joins(crate_data: &DefMapCrateData, local: &LocalDefMap, dependency: &Dependency) -> bool
    ensures value { result ≡ joins crate_data.now local.now dependency.now }
{
    dependency.is_prelude
        && !is_kept_away(crate_data, &dependency.name)
        && local.extern_crate(&dependency.name).is_none()
}

/// The dependencies that paths may begin with.
pub(crate) fn extern_prelude(
    alloc: Global,
    crate_data: &DefMapCrateData,
    dependencies: &[Dependency],
) -> Result<LocalDefMap, AllocError>
    ensures value { IfOk result (λ local. local ≡ extern_prelude crate_data.now [] dependencies.now) }
{
    let mut local = LocalDefMap::empty(alloc);
    for dependency in dependencies {
        if joins(crate_data, &local, dependency) {
            let root = ModuleId {
                map: MapId {
                    krate: dependency.krate,
                    block: None,
                },
                index: 0,
            };
            local.add_extern(dependency.name.clone()?, root, None)?;
        }
    }
    Ok(local)
}
