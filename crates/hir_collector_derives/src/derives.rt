//! What derives bring, and what is dropped.
ghost use Rattle.std.specs.Prelude.{◌≡◌, ◌<◌, ◌≤◌, IfOk, OnOk, Some, length, map, slice_get};
ghost use Rattle.hir_collector_state.specs.HirNameres.WorldParts.{part_of};
ghost use Rattle.hir_collector_state.specs.HirCollectorRules.Calls.{DerivedCall, builtin_impl, helper_by, helpers_brought};
ghost use Rattle.hir_collector_state.specs.HirCollectorRules.Derivation.{IsSpent};
ghost use Rattle.hir_collector_state.specs.HirCollectorRules.Keys.{Environment};
ghost use Rattle.hir_collector_state.specs.HirCollectorRules.Moves.{Makes};
ghost use Rattle.hir_collector_state.specs.HirCollectorRules.State.{at_rest, core_in, counted, with_fate};
ghost use Rattle.hir_collector_state.specs.HirCollectorRules.Steps.{DerivesBuiltin, IsReachedDeep, Steps, bringing};
ghost use Rattle.hir_collector_state.specs.Waiting.{IsNoted};

use either::Either;
use hir_base::ast_id::{AstId, MacroCallId};
use hir_base::macro_kind::{BuiltinDeriveImplId, MacroId};
use hir_base::name::Name;
use hir_collector_state::def_collector::DefCollector;
use hir_collector_state::hir_collector_rules::macro_directive::{
    Fate, MacroDirective, MacroDirectiveKind,
};
use hir_collector_state::hir_collector_rules::names::cloned;
use hir_collector_state::hir_collector_rules::start::{STEP_LIMIT, StepError};
use hir_collector_state::hir_nameres::nameres::derive_helpers::DeriveHelper;
use hir_collector_state::hir_nameres::world::part::WorldPart;
use std::alloc::AllocError;

/// The names of the helpers that come into scope with a macro: none but those of a derive.
fn helper_names(
    run: &DefCollector,
    world: WorldPart<'_>,
    call: &MacroDirective,
    makro: MacroId,
) -> Result<Vec<Name>, AllocError>
    ensures value { IfOk result (λ names. (became : DerivedCall) → map (helper_by makro became) names.items ≡ helpers_brought (part_of world.entry) (core_in run.now).map call.now makro became) }
{
    let alloc = run.allocator();
    match &call.kind {
        MacroDirectiveKind::Derive { .. } => match run.kept_of(world, makro) {
            Some(what) => cloned(alloc, what.helpers.as_slice()),
            None => Ok(Vec::new(alloc)),
        },
        MacroDirectiveKind::FnLike { .. } | MacroDirectiveKind::Attr { .. } => Ok(Vec::new(alloc)),
    }
}

/// Brings helpers of these names into scope on an item.
fn help_all(
    run: &mut DefCollector,
    node: AstId,
    makro: MacroId,
    became: Option<Either<MacroCallId, BuiltinDeriveImplId>>,
    names: &[Name],
) -> Result<(), AllocError>
    ensures ok { OnOk result (Makes (bringing node (map (helper_by makro became) names.now)) (core_in run.old) (core_in run.new)) }
    ensures noted { OnOk result (IsNoted run.old run.new) }
{
    for name in names {
        run.help(
            node,
            DeriveHelper {
                name: name.clone()?,
                makro,
                call: became,
            },
        )?;
    }
    Ok(())
}

/// Brings the helpers of a derive into scope on its item.
pub fn bring_helpers(
    run: &mut DefCollector,
    world: WorldPart<'_>,
    call: &MacroDirective,
    makro: MacroId,
    became: Option<Either<MacroCallId, BuiltinDeriveImplId>>,
) -> Result<(), AllocError>
    ensures ok { OnOk result (Makes (bringing call.now.ast_id (helpers_brought (part_of world.entry) (core_in run.old).map call.now makro became)) (core_in run.old) (core_in run.new)) }
    ensures noted { OnOk result (IsNoted run.old run.new) }
{
    let names = helper_names(run, world, call, makro)?;
    help_all(run, call.ast_id, makro, became, names.as_slice())
}

/// Drops what waits at the place: a call that is too deep.
pub fn drop_call(run: &mut DefCollector, i: usize) -> Result<(), StepError>
    ensures ok { OnOk result (core_in run.new ≡ counted (with_fate (core_in run.old) i Fate.Handled)) }
    ensures noted { OnOk result (IsNoted run.old run.new) }
    ensures many { result ≡ Err StepError.TooMany → STEP_LIMIT ≤ (core_in run.old).count }
{
    run.end_call(i, Fate::Handled);
    run.tick()?;
    Ok(())
}

/// Drops what waits at the place, a path of a derive or an attribute that reaches a macro and is too deep. The helpers of
/// a derive come into scope.
pub fn drop_reached(
    run: &mut DefCollector,
    world: WorldPart<'_>,
    i: usize,
    call: &MacroDirective,
    makro: MacroId,
) -> Result<(), StepError>
    requires deep { IsReachedDeep (part_of world) (at_rest (core_in run.old)) i call.now makro }
    ensures ok { OnOk result ((env : Environment) → Steps env (part_of world.entry) (at_rest (core_in run.old)) (at_rest (core_in run.new))) }
    ensures handled { OnOk result (slice_get (core_in run.new).fates i ≡ Some Fate.Handled) }
    ensures noted { OnOk result (IsNoted run.old run.new) }
    ensures many { result ≡ Err StepError.TooMany → (env : Environment) → IsSpent env (part_of world.entry) (at_rest (core_in run.old)) }
{
    run.end_call(i, Fate::Handled);
    bring_helpers(run, world, call, makro, None)?;
    run.tick()?;
    Ok(())
}

/// The impl that a builtin derive macro stands for.
pub fn builtin_impl(call: &MacroDirective, makro: MacroId) -> Option<BuiltinDeriveImplId>
    ensures value { result ≡ builtin_impl makro call.now.kind }
{
    match &call.kind {
        MacroDirectiveKind::Derive {
            attr,
            index,
            adt,
            ..
        } => Some(BuiltinDeriveImplId {
            adt: *adt,
            derive: makro,
            derive_attr_id: *attr,
            derive_index: *index,
        }),
        MacroDirectiveKind::FnLike { .. } | MacroDirectiveKind::Attr { .. } => None,
    }
}

/// Lists the impl for which the path of a derive at the place stands, which reaches a builtin macro, and notes that the path
/// became it.
pub fn derive_builtin(
    run: &mut DefCollector,
    world: WorldPart<'_>,
    i: usize,
    call: &MacroDirective,
    makro: MacroId,
    imp: BuiltinDeriveImplId,
) -> Result<(), StepError>
    requires in_range { call.now.site.home < length (core_in run.old).map.modules }
    requires builtin { DerivesBuiltin (part_of world) (at_rest (core_in run.old)) i call.now makro imp }
    ensures ok { OnOk result ((env : Environment) → Steps env (part_of world.entry) (at_rest (core_in run.old)) (at_rest (core_in run.new))) }
    ensures handled { OnOk result (slice_get (core_in run.new).fates i ≡ Some Fate.Handled) }
    ensures noted { OnOk result (IsNoted run.old run.new) }
    ensures many { result ≡ Err StepError.TooMany → (env : Environment) → IsSpent env (part_of world.entry) (at_rest (core_in run.old)) }
{
    let names = helper_names(run, world, call, makro)?;
    run.end_call(i, Fate::Handled);
    run.list_derived(call.site.home, imp)?;
    run.note_impl(call.site.home, call.ast_id, imp);
    help_all(
        run,
        call.ast_id,
        makro,
        Some(Either::Right(imp)),
        names.as_slice(),
    )?;
    run.tick()?;
    Ok(())
}
