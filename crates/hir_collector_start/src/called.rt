//! Which macro the path of what waits reaches, and those that such a macro asks to have resolved first.
ghost use Rattle.std.specs.Prelude.{◌≡◌, None, cond, option_map};
ghost use Rattle.hir_collector_rules.specs.HirNameres.WorldParts.{part_of};
ghost use Rattle.hir_collector_rules.specs.Calls.{asked_before, called_macro, first_missing, inner_macro, is_eager, is_eager_by, is_same_macro, macro_among, suited, told_path};

use hir_base::ids::ModuleId;
use hir_base::macro_kind::{MacroExpander, MacroId};
use hir_base::mod_path::ModPath;
use hir_base::resolve_mode::MacroSubNs;
use hir_collector_rules::hir_nameres::def_maps::DefMaps;
use hir_collector_rules::hir_nameres::nameres::DefMap;
use hir_collector_rules::hir_nameres::nameres::local_def_map::LocalDefMap;
use hir_collector_rules::hir_nameres::nameres::path_resolution::query::Query;
use hir_collector_rules::hir_nameres::nameres::path_resolution::{BuiltinShadowMode, ResolveMode};
use hir_collector_rules::hir_nameres::world::part::WorldPart;
use hir_collector_rules::hir_scope::per_ns::PerNs;
use hir_collector_rules::macro_directive::{EagerMacro, MacroDirective};

/// The macro among what a path reaches.
fn macro_among(items: PerNs) -> Option<MacroId>
    ensures value { result ≡ macro_among items }
{
    match items.macros {
        Some(item) => Some(item.def),
        None => None,
    }
}

/// A macro, if it will do for what asks for one.
fn suited(call: &MacroDirective, found: Option<MacroId>) -> Option<MacroId>
    ensures value { result ≡ suited call.now.kind found }
{
    let makro = found?;
    if call.suits(makro) { Some(makro) } else { None }
}

/// The macro that a call, a path of a derive or an attribute reaches.
pub fn called_macro(
    world: WorldPart<'_>,
    map: &DefMap,
    local: &LocalDefMap,
    call: &MacroDirective,
) -> Option<MacroId>
    ensures value { result ≡ called_macro (part_of world.entry) local.now map.now call.now }
{
    let query = Query {
        maps: DefMaps::new(world, map),
        local: Some(local),
        mode: ResolveMode::Other,
        shadow: BuiltinShadowMode::Module,
        sub_ns: Some(call.sub_ns()),
    };
    let at = ModuleId {
        map: map.id(),
        index: call.site.home,
    };
    let path = call.path();
    let answer = query.resolve(at, path.kind(), path.segments());
    suited(call, macro_among(answer.resolved_def))
}

/// Whether a macro may ask for paths in the input of a call before it expands the call.
pub fn is_eager(makro: MacroId) -> bool
    ensures value { result ≡ is_eager makro }
{
    match makro {
        MacroId::Macro2Id(id) => is_eager_by(id.loc.expander),
        MacroId::MacroRulesId(id) => is_eager_by(id.loc.expander),
        MacroId::ProcMacroId(_) => false,
    }
}

fn is_eager_by(expander: MacroExpander) -> bool
    ensures value { result ≡ is_eager_by expander }
{
    match expander {
        MacroExpander::BuiltinEager => true,
        MacroExpander::Declarative(_)
        | MacroExpander::Builtin
        | MacroExpander::BuiltinAttr
        | MacroExpander::BuiltinDerive
        | MacroExpander::Unimplemented => false,
    }
}

/// The macro that such a path reaches in a module.
pub fn inner_macro(
    world: WorldPart<'_>,
    map: &DefMap,
    local: &LocalDefMap,
    home: u32,
    path: &ModPath,
) -> Option<MacroId>
    ensures value { result ≡ inner_macro (part_of world.entry) local.now map.now home path.now }
{
    let query = Query {
        maps: DefMaps::new(world, map),
        local: Some(local),
        mode: ResolveMode::Other,
        shadow: BuiltinShadowMode::Module,
        sub_ns: Some(MacroSubNs::Bang),
    };
    let at = ModuleId {
        map: map.id(),
        index: home,
    };
    let answer = query.resolve(at, path.kind(), path.segments());
    macro_among(answer.resolved_def)
}

/// The first of such paths that reaches nothing.
pub fn first_missing<'p>(
    world: WorldPart<'_>,
    map: &DefMap,
    local: &LocalDefMap,
    home: u32,
    paths: &'p [ModPath],
) -> Option<&'p ModPath>
    ensures value { option_map (λ path. path.now) result ≡ first_missing (part_of world.entry) local.now map.now home paths.now }
{
    let mut left = paths;
    'next: while let [path, others @ ..] = left {
        if inner_macro(world, map, local, home, path).is_none() {
            return Some(path);
        }
        left = others;
    }
    None
}

/// The first of the paths that an eager macro asked for, where it is among those that a call reached.
fn missing_by<'e>(
    world: WorldPart<'_>,
    map: &DefMap,
    local: &LocalDefMap,
    home: u32,
    seen: &'e EagerMacro,
    makro: MacroId,
) -> Option<&'e ModPath>
    ensures value { option_map (λ path. path.now) result ≡ cond (is_same_macro seen.now.makro makro)
        (first_missing (part_of world.entry) local.now map.now home seen.now.inner) None }
{
    if seen.makro == makro {
        first_missing(world, map, local, home, seen.inner.as_slice())
    } else {
        None
    }
}

/// The first of the paths that a macro asked for where a call reached it that reaches nothing.
pub fn missing_of<'e>(
    world: WorldPart<'_>,
    map: &DefMap,
    local: &LocalDefMap,
    home: u32,
    seen: &'e [EagerMacro],
    makro: MacroId,
) -> Option<&'e ModPath>
    ensures value { option_map (λ path. path.now) result ≡ first_missing (part_of world.entry) local.now map.now home (asked_before seen.now makro) }
{
    let mut left = seen;
    'next: while let [first, others @ ..] = left {
        if let Some(path) = missing_by(world, map, local, home, first, makro) {
            return Some(path);
        }
        left = others;
    }
    None
}

/// The path for which a call that is left over is told: the first that its macro asks for and that reaches nothing, or else
/// its own.
pub fn told_path<'c>(
    world: WorldPart<'_>,
    map: &DefMap,
    local: &LocalDefMap,
    call: &'c MacroDirective,
    seen: &'c [EagerMacro],
) -> &'c ModPath
    ensures value { result.now ≡ told_path (part_of world.entry) local.now map.now call.now seen.now }
{
    let Some(makro) = called_macro(world, map, local, call) else {
        return call.path();
    };
    match missing_of(world, map, local, call.site.home, seen, makro) {
        Some(path) => path,
        None => call.path(),
    }
}
