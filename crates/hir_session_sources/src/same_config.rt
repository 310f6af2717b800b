//! Whether crates are handed in alike.
ghost use Rattle.std.specs.Prelude.{◌≡◌, ◌↔◌, IsTrue};
ghost use Rattle.hir_session_state.specs.HirCollectorRules.Workspace.{config_view};
ghost use Rattle.hir_session_state.specs.Beginning.{IsSameConfig};
ghost use Rattle.hir_session_sources.specs.LoweredTrees.{LowerAlike};

use hir_item_tree::same::same_name;
use hir_item_tree::same_attrs::same_raw_attrs;
use hir_session_state::hir_collector_rules::source_database::{Config, Dependency};

fn same_dependency(a: &Dependency, b: &Dependency) -> bool
    ensures exact { IsTrue result ↔ (a.now ≡ b.now) }
{
    a.krate.0 == b.krate.0 && a.is_prelude == b.is_prelude && same_name(&a.name, &b.name)
}

fn same_dependencies(a: &[Dependency], b: &[Dependency]) -> bool
    ensures exact { IsTrue result ↔ (a.now ≡ b.now) }
{
    if a.len() != b.len() {
        return false;
    }
    for i in 0..a.len() {
        if !same_dependency(&a[i], &b[i]) {
            return false;
        }
    }
    true
}

/// Whether a crate is handed in as another was, their roots aside.
pub fn same_config(given: &Config, config: &Config) -> bool
    ensures exact { IsTrue result ↔ IsSameConfig (config_view given.now) (config_view config.now) }
{
    if config.edition != given.edition {
        return false;
    }
    if !same_raw_attrs(&config.attributes, &given.attributes) {
        return false;
    }
    if !same_dependencies(
        config.dependencies.as_slice(),
        given.dependencies.as_slice(),
    ) {
        return false;
    }
    config.options.same(&given.options)
}

/// Whether each source has the same under crates of one root that are handed in so: their options are the same, and what stands
/// in front of the root's attributes.
pub fn lower_alike(one: &Config, other: &Config) -> bool
    ensures exact { IsTrue result ↔ LowerAlike (config_view one.now) (config_view other.now) }
{
    if !same_raw_attrs(&one.attributes, &other.attributes) {
        return false;
    }
    one.options.same(&other.options)
}
