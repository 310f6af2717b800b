//! Items that go on behind an attribute for which they waited.
ghost use Rattle.std.specs.Prelude.{◌≡◌, ◌+◌, ◌<◌, ℕ, IfOk, None, OnOk, Some, slice_get};
ghost use Rattle.hir_mod_collector.specs.HirTables.Tables.{KeepsTables};
ghost use Rattle.hir_mod_collector.specs.HirNameres.WorldParts.{part_of};
ghost use Rattle.hir_mod_collector.specs.HirImportRules.Rest.{IsAtRest};
ghost use Rattle.hir_mod_collector.specs.HirCollectorRules.CallMoves.{IsFirstWaiting, IsGivenUp, IsReady, NoneWaitsBefore};
ghost use Rattle.hir_mod_collector.specs.HirCollectorRules.Calls.{AreCallsPlaced, IsWaiting, LeadsNowhere, waiting_item};
ghost use Rattle.hir_mod_collector.specs.HirCollectorRules.Derivation.{IsSpent};
ghost use Rattle.hir_mod_collector.specs.HirCollectorRules.Moves.{OnceGrown};
ghost use Rattle.hir_mod_collector.specs.HirCollectorRules.State.{at_rest, core_in, import_state};
ghost use Rattle.hir_mod_collector.specs.HirCollectorRules.Steps.{IsDue, IsPassedOver, Steps, site_behind};
ghost use Rattle.hir_mod_collector.specs.HirCollectorState.Waiting.{IsNotedBeside};

use hir_macro_calls::waiting::{first_waiting, site_behind};
use hir_mod_collector::hir_collector_rules::macro_directive::{Fate, MacroDirective, WaitingItem};
use hir_mod_collector::hir_collector_rules::source_database::SourceDatabase;
use hir_mod_collector::hir_collector_rules::start::StepError;
use hir_mod_collector::hir_collector_state::def_collector::DefCollector;
use hir_mod_collector::hir_nameres::world::part::WorldPart;
use hir_mod_collector::mod_collector::walk_item;
use hir_tables::Tables;

/// Lets the item of the attribute at the place go on behind it, since that is inert by now, or builtin: handles the item,
/// with all that is in it.
pub fn skip<D: SourceDatabase>(
    run: &mut DefCollector,
    db: &mut D,
    world: WorldPart<'_>,
    locations: &mut Tables,
    i: usize,
    call: &MacroDirective,
    item: &WaitingItem,
) -> Result<(), StepError>
    requires ready { IsReady locations.old (part_of world) (core_in run.old) }
    requires due { IsDue (at_rest (core_in run.old)) i call.now }
    requires of { waiting_item call.now ≡ Some item.now }
    requires passed { IsPassedOver (part_of world) (at_rest (core_in run.old)) call.now }
    ensures kept { KeepsTables locations.old locations.new }
    ensures same { D.workspace db.new ≡ D.workspace db.old }
    ensures placed { AreCallsPlaced locations.old → AreCallsPlaced locations.new }
    ensures ok { OnOk result (OnceGrown locations.new (D.workspace db.old) (λ env. Steps env (part_of world.entry) (at_rest (core_in run.old)) (at_rest (core_in run.new)))) }
    ensures handled { OnOk result (slice_get (core_in run.new).fates i ≡ Some Fate.Handled) }
    ensures noted { OnOk result (IsNotedBeside (part_of world.entry) run.old run.new) }
    ensures many { result ≡ Err StepError.TooMany → OnceGrown locations.new (D.workspace db.old) (λ env. IsSpent env (part_of world.entry) (at_rest (core_in run.old))) }
{
    let site = site_behind(&call.site)?;
    run.end_call(i, Fate::Handled);
    run.tick()?;
    walk_item(
        run,
        db,
        world,
        locations,
        item.source.tree(),
        &site,
        item.id,
        item.done,
    )?;
    Ok(())
}

/// Gives up the attribute at the place, the first that waits: reports it, and handles its item, with all that is in it.
fn give_up_at<D: SourceDatabase>(
    run: &mut DefCollector,
    db: &mut D,
    world: WorldPart<'_>,
    locations: &mut Tables,
    i: usize,
    call: &MacroDirective,
    item: &WaitingItem,
) -> Result<(), StepError>
    requires ready { IsReady locations.old (part_of world) (core_in run.old) }
    requires rests { IsAtRest (part_of world) (import_state (at_rest (core_in run.old))) }
    requires nowhere { (j : ℕ) → LeadsNowhere (part_of world) (at_rest (core_in run.old)) j }
    requires first { IsFirstWaiting (core_in run.old) i }
    requires waits { IsWaiting (at_rest (core_in run.old)) i call.now }
    requires of { waiting_item call.now ≡ Some item.now }
    ensures kept { KeepsTables locations.old locations.new }
    ensures same { D.workspace db.new ≡ D.workspace db.old }
    ensures placed { AreCallsPlaced locations.old → AreCallsPlaced locations.new }
    ensures ok { OnOk result (OnceGrown locations.new (D.workspace db.old) (λ env. Steps env (part_of world.entry) (at_rest (core_in run.old)) (at_rest (core_in run.new)))) }
    ensures counts { OnOk result ((core_in run.old).count < (core_in run.new).count) }
    ensures before { OnOk result (NoneWaitsBefore (core_in run.new) (i + 1)) }
    ensures noted { OnOk result (IsNotedBeside (part_of world.entry) run.old run.new) }
    ensures many { result ≡ Err StepError.TooMany → OnceGrown locations.new (D.workspace db.old) (λ env. IsSpent env (part_of world.entry) (at_rest (core_in run.old))) }
{
    let site = site_behind(&call.site)?;
    let told = run.call_report(world, i, call)?;
    run.end_call(i, Fate::GivenUp);
    run.tell(told)?;
    run.tick()?;
    walk_item(
        run,
        db,
        world,
        locations,
        item.source.tree(),
        &site,
        item.id,
        item.done,
    )?;
    Ok(())
}

/// Gives up the first attribute that waits, of which none does at the first so many places: how many places are before
/// the next; none where no attribute waits.
pub fn give_up<D: SourceDatabase>(
    run: &mut DefCollector,
    db: &mut D,
    world: WorldPart<'_>,
    locations: &mut Tables,
    first: usize,
) -> Result<Option<usize>, StepError>
    requires ready { IsReady locations.old (part_of world) (core_in run.old) }
    requires rests { IsAtRest (part_of world) (import_state (at_rest (core_in run.old))) }
    requires nowhere { (j : ℕ) → LeadsNowhere (part_of world) (at_rest (core_in run.old)) j }
    requires first { NoneWaitsBefore (core_in run.old) first }
    ensures kept { KeepsTables locations.old locations.new }
    ensures same { D.workspace db.new ≡ D.workspace db.old }
    ensures placed { AreCallsPlaced locations.old → AreCallsPlaced locations.new }
    ensures ok { OnOk result (OnceGrown locations.new (D.workspace db.old) (λ env. Steps env (part_of world.entry) (at_rest (core_in run.old)) (at_rest (core_in run.new)))) }
    ensures given { IfOk result (λ next. IsGivenUp (core_in run.old) (core_in run.new) next) }
    ensures noted { OnOk result (IsNotedBeside (part_of world.entry) run.old run.new) }
    ensures many { result ≡ Err StepError.TooMany → OnceGrown locations.new (D.workspace db.old) (λ env. IsSpent env (part_of world.entry) (at_rest (core_in run.old))) }
{
    let Some(i) = first_waiting(run, first) else {
        return Ok(None);
    };
    let Some(call) = run.waiting(i) else {
        return Ok(None);
    };
    let call = call.clone()?;
    let Some(item) = call.waiting_item() else {
        return Ok(None);
    };
    give_up_at(run, db, world, locations, i, &call, item)?;
    Ok(Some(i + 1))
}
