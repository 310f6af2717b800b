//! What others see of a procedural-macro crate.
ghost use Rattle.std.specs.Prelude.{◌≡◌};
ghost use Rattle.hir_collector_rules.specs.HirDefMapRules.State.{with_scope};
ghost use Rattle.hir_collector_rules.specs.Ended.{exporting_scope, without_functions};

use hir_base::ids::{Crate, ModuleDefId};
use hir_collector_rules::exported::ExportedFunction;
use hir_collector_rules::hir_nameres::nameres::DefMap;
use hir_collector_rules::hir_scope::item_scope::ItemScope;

/// Lets the names of functions stand for them no more.
fn remove_functions(scope: &mut ItemScope, exported: &[ExportedFunction])
    ensures value { scope.new ≡ without_functions exported.now scope.old }
{
    for function in exported {
        scope.remove_from_value_ns(&function.name, ModuleDefId::FunctionId(function.id));
    }
}

/// Lets other crates see the macros alone that a scope exports.
fn censor(scope: &mut ItemScope, krate: Crate, exported: &[ExportedFunction])
    ensures value { scope.new ≡ exporting_scope krate exported.now scope.old }
{
    remove_functions(scope, exported);
    scope.censor_non_proc_macros(krate);
}

/// Lets other crates see the macros alone that the root of a map exports.
pub fn censor_root(map: &mut DefMap, exported: &[ExportedFunction])
    ensures value { map.new ≡ with_scope map.old 0 (exporting_scope map.old.id.krate exported.now) }
{
    let krate = map.id().krate;
    let _ = map.module_count();
    censor(map.scope_mut(0), krate, exported);
}
