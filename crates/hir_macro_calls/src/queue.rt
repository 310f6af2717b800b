//! The queue of calls, between tries.
ghost use Rattle.std.specs.Prelude.{◌≡◌, ◌<◌, None, OnOk, Some, length, option_map, slice_get};
ghost use Rattle.hir_collector_state.specs.HirDefMapRules.State.{IsInOrder};
ghost use Rattle.hir_collector_state.specs.HirNameres.WorldParts.{part_of};
ghost use Rattle.hir_worklist.specs.Queue.{count_of};
ghost use Rattle.hir_collector_state.specs.HirImportRules.Changed.{nothing};
ghost use Rattle.hir_call_queue.specs.Waking.{GoesOn, IsWoken, is_apart, worklist_of};
ghost use Rattle.hir_collector_state.specs.HirCollectorRules.Calls.{LeadsNowhere, waiting_item};
ghost use Rattle.hir_collector_state.specs.HirCollectorRules.declared.macro_directive.MacroDirective.{MacroDirective};
ghost use Rattle.hir_collector_state.specs.HirCollectorRules.State.{at_rest, core_in};
ghost use Rattle.hir_macro_calls.specs.Due.{missing_at};
ghost use Rattle.hir_collector_imports.specs.Waiting.{IsBetweenPasses, IsStale, IsUpToDate, LiesApart, item_of};

use hir_base::ast_id::AstId;
use hir_base::mod_path::ModPath;
use hir_call_queue::CallQueue;
use hir_collector_state::def_collector::DefCollector;
use hir_collector_state::hir_collector_rules::macro_directive::MacroDirective;
use hir_collector_state::hir_nameres::world::part::WorldPart;
use std::alloc::AllocError;

/// The item that an attribute stands on, where that is what waits.
fn item_of(call: &MacroDirective) -> Option<AstId>
    ensures value { result ≡ item_of call.now }
{
    match call.waiting_item() {
        Some(_) => Some(call.ast_id),
        None => None,
    }
}

/// The first path that reaches nothing of those that the macro which a call at the place reaches was seen to ask for.
fn missing_at<'a>(
    run: &'a DefCollector,
    world: WorldPart<'_>,
    i: usize,
    call: &MacroDirective,
) -> Option<&'a ModPath>
    ensures value { option_map (λ path. path.now) result ≡ missing_at (part_of world.entry) (core_in run.now) i call.now }
{
    if run.eager_at(i).is_empty() {
        return None;
    }
    match run.called_macro(world, call) {
        Some(makro) => run.missing_path(world, i, call, makro),
        None => None,
    }
}

/// Has the call at the place, if it waits, watch the slots that its path reads, and those of the first path that its macro
/// asks for and that reaches nothing; an attribute besides the item that it stands on.
pub fn watch(
    run: &DefCollector,
    world: WorldPart<'_>,
    queue: &mut CallQueue,
    i: usize,
) -> Result<(), AllocError>
    requires apart { LiesApart (part_of world) queue.old (core_in run.now) }
    requires low { (d : MacroDirective) → slice_get (core_in run.now).calls i ≡ Some d → d.site.home < length (core_in run.now).map.modules }
    requires in_order { IsInOrder (core_in run.now).map }
    requires up_to_date { IsUpToDate (part_of world) queue.old (core_in run.now) (Some i) }
    requires nowhere { LeadsNowhere (part_of world) (at_rest (core_in run.now)) i }
    ensures up_to_date { OnOk result (IsUpToDate (part_of world.entry) queue.new (core_in run.now) None) }
    ensures stays { OnOk result (GoesOn queue.old queue.new) }
{
    let Some(call) = run.waiting(i) else {
        return Ok(());
    };
    let slots = run.call_slots(world, call);
    queue.watch(i, slots, run.map().module_count(), item_of(call))?;
    let Some(path) = missing_at(run, world, i, call) else {
        return Ok(());
    };
    let inner = run.inner_slots(world, call.site.home, path);
    queue.watch(i, inner, run.map().module_count(), None)?;
    Ok(())
}

/// Queues the calls that have read what has changed, which is forgotten then.
pub fn wake(run: &mut DefCollector, queue: &mut CallQueue) -> Result<(), AllocError>
    ensures woken { OnOk result (IsWoken run.old.changed queue.old queue.new) }
    ensures same { core_in run.new ≡ core_in run.old }
    ensures globs { run.new.globs ≡ run.old.globs }
    ensures none { OnOk result (run.new.changed ≡ nothing) }
{
    queue.wake(run.changed())?;
    run.forget_changes();
    Ok(())
}

/// Queues the calls that have read what has changed, and those that came besides.
pub fn requeue(
    run: &mut DefCollector,
    world: WorldPart<'_>,
    queue: &mut CallQueue,
) -> Result<(), AllocError>
    requires apart { LiesApart (part_of world) queue.old (core_in run.old) }
    requires stale { IsStale (part_of world) queue.old run.old }
    requires between { IsBetweenPasses queue.old }
    requires settled { (core_in run.old).settled ≡ length (core_in run.old).calls }
    ensures same { core_in run.new ≡ core_in run.old }
    ensures up_to_date { OnOk result (IsUpToDate (part_of world.entry) queue.new (core_in run.new) None) }
    ensures between { OnOk result (IsBetweenPasses queue.new) }
    ensures all { OnOk result (count_of (worklist_of queue.new) ≡ length (core_in run.new).calls) }
    ensures queue { OnOk result (is_apart queue.new ≡ is_apart queue.old) }
{
    wake(run, queue)?;
    queue.append(run.settled())?;
    Ok(())
}
