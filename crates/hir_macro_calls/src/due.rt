//! What is due of what waits.
ghost use Rattle.std.specs.Prelude.{◌≡◌, ◌<◌, None, Some};
ghost use Rattle.hir_collector_state.specs.HirNameres.WorldParts.{part_of};
ghost use Rattle.hir_macro_calls.specs.Due.{IsDueOf};
ghost use Rattle.hir_collector_state.specs.HirCollectorRules.Calls.{waiting_item};
ghost use Rattle.hir_collector_state.specs.HirCollectorRules.declared.macro_directive.MacroDirective.{MacroDirective};
ghost use Rattle.hir_collector_state.specs.HirCollectorRules.declared.macro_directive.WaitingItem.{WaitingItem};
ghost use Rattle.hir_collector_state.specs.HirCollectorRules.State.{core_in};

use hir_base::macro_kind::MacroId;
use hir_collector_state::def_collector::DefCollector;
use hir_collector_state::hir_collector_rules::macro_directive::MacroDirective;
use hir_collector_state::hir_nameres::world::part::WorldPart;

/// What is to be done about what waits.
#[derive(Clone, Copy)]
pub enum Due {
    Nothing,
    /// It is a call, and deeper than calls may be.
    TooDeep,
    /// It is an attribute for which nothing is looked up.
    Skips,
    /// It is a path of a derive, and reaches a builtin macro.
    Derives(MacroId),
    /// It reaches a macro, is no call, and is deeper than calls may be.
    Drops(MacroId),
    /// It reaches a macro.
    Reaches(MacroId),
}

/// What is to be done about what reaches a builtin macro that has no expansion.
fn due_of_builtin(call: &MacroDirective, makro: MacroId) -> Due
    ensures derives { waiting_item call.now ≡ None → result ≡ Due.Derives makro }
    ensures skips { (k : WaitingItem) → waiting_item call.now ≡ Some k → result ≡ Due.Skips }
{
    if call.waiting_item().is_some() {
        Due::Skips
    } else {
        Due::Derives(makro)
    }
}

/// What is to be done about what waits.
pub fn due_of(run: &DefCollector, world: WorldPart<'_>, i: usize, call: &MacroDirective) -> Due
    ensures value { IsDueOf (part_of world.entry) (core_in run.now) i call.now result }
    ensures below { (makro : MacroId) → result ≡ Due.Reaches makro → call.now.site.level < 4294967295 }
{
    if call.is_call() && run.is_too_deep(call) {
        return Due::TooDeep;
    }
    if run.is_inert_now(call) {
        return Due::Skips;
    }
    let Some(makro) = run.called_macro(world, call) else {
        return Due::Nothing;
    };
    if !call.has_expansion(makro) {
        return due_of_builtin(call, makro);
    }
    if run.is_too_deep(call) {
        return Due::Drops(makro);
    }
    if run.missing_path(world, i, call, makro).is_some() {
        return Due::Nothing;
    }
    Due::Reaches(makro)
}
