//! Macro calls, derives and attributes: what each expands to, and rounds in which they are tried.
ghost use Rattle.std.specs.Prelude.{◌≡◌, ◌<◌, ◌≤◌, ℕ, cond, true, false, IfOk, None, OnOk, Some, length, slice_get};
ghost use Rattle.hir_mod_collector.specs.HirTables.Tables.{KeepsTables};
ghost use Rattle.hir_mod_collector.specs.HirDefMapRules.State.{IsInOrder};
ghost use Rattle.hir_mod_collector.specs.HirNameres.WorldParts.{part_of};
ghost use Rattle.hir_mod_collector.specs.HirImportRules.Rest.{IsAtRest, IsSound};
ghost use Rattle.hir_mod_collector.specs.HirImportGrowth.Growth.{GlobsLast};
ghost use Rattle.hir_import_resolution.specs.Rounds.{IsResumable, is_apart as are_apart, is_lasting};
ghost use Rattle.hir_mod_collector.specs.HirImportRules.declared.directive.ImportDirective.{ImportDirective};
ghost use Rattle.hir_worklist.specs.Queue.{count_of};
ghost use Rattle.hir_mod_collector.specs.HirImportRules.Changed.{ChangedValue, joined};
ghost use Rattle.hir_call_queue.specs.Waking.{GoesOn, is_apart, worklist_of};
ghost use Rattle.hir_mod_collector.specs.HirCollectorRules.CallMoves.{ComesToRest, IsReady, NoneWaitsBefore, TriesCall, TriesCalls};
ghost use Rattle.hir_macro_calls.specs.Due.{IsDueOf};
ghost use Rattle.hir_macro_rounds.specs.Turns.{CountsOn, StaysBehind, TakesTurn};
ghost use Rattle.hir_mod_collector.specs.HirCollectorRules.Calls.{AreCallsPlaced, call_site, waiting_item};
ghost use Rattle.hir_mod_collector.specs.HirCollectorRules.declared.macro_directive.MacroDirective.{MacroDirective};
ghost use Rattle.hir_mod_collector.specs.HirCollectorRules.Derivation.{IsSpent};
ghost use Rattle.hir_mod_collector.specs.HirCollectorRules.Keys.{Environment, IsMeant, environment};
ghost use Rattle.hir_mod_collector.specs.HirCollectorRules.Moves.{OnceGrown};
ghost use Rattle.hir_mod_collector.specs.HirCollectorRules.UnknownSources.{LeadsToUnknownSource, ReachesUnknownSource};
ghost use Rattle.hir_mod_collector.specs.HirCollectorRules.State.{Run, at_rest, core_in, counted, import_state, with_eager};
ghost use Rattle.hir_mod_collector.specs.HirCollectorRules.Steps.{CallsMacro, IsDue, Steps};
ghost use Rattle.hir_mod_collector.specs.HirCollectorImports.Waiting.{IsBehind, IsBetweenPasses, IsGathered, IsStale, IsUpToDate, KeepsApart, LiesApart};
ghost use Rattle.hir_mod_collector.specs.HirCollectorState.Waiting.{IsNoted, IsNotedBeside, NotesSlots};

use crate::resume::{give_up, skip};
use either::Either;
use hir_base::macro_kind::MacroId;
use hir_call_expansion::expansion::{
    CallLook, Expansion, call_site, is_meant, look_at_call, report_failed,
};
use hir_call_queue::{CallQueue, Changed};
use hir_collector_derives::derives::{
    bring_helpers, builtin_impl, derive_builtin, drop_call, drop_reached,
};
use hir_import_resolution::ImportQueue;
use hir_macro_calls::due::{Due, due_of};
use hir_macro_calls::queue::{requeue, wake, watch};
use hir_mod_collector::hir_collector_imports::settling;
use hir_mod_collector::hir_collector_rules::inner_paths::InnerPaths;
use hir_mod_collector::hir_collector_rules::macro_directive::{EagerMacro, Fate, MacroDirective};
use hir_mod_collector::hir_collector_rules::source_database::SourceDatabase;
use hir_mod_collector::hir_collector_rules::start::{CollectError, STEP_LIMIT, StepError};
use hir_mod_collector::hir_collector_state::def_collector::DefCollector;
use hir_mod_collector::hir_nameres::world::part::WorldPart;
use hir_mod_collector::mod_collector::walk_all;
use hir_tables::Tables;

/// How many rounds may make progress. One more ends a run.
pub const ROUND_LIMIT: u32 = 8192;

/// Has what waits at the place wait on: the macro that it reaches asks for these paths first, and one of them reaches nothing.
fn wait_for_paths(
    run: &mut DefCollector,
    i: usize,
    makro: MacroId,
    inner: InnerPaths,
) -> Result<(), StepError>
    ensures ok { OnOk result (core_in run.new ≡ counted (with_eager (core_in run.old) i (record { makro = makro; inner = inner }))) }
    ensures noted { OnOk result (IsNoted run.old run.new) }
    ensures many { result ≡ Err StepError.TooMany → STEP_LIMIT ≤ (core_in run.old).count }
{
    run.meet_eager(i, EagerMacro { makro, inner })?;
    run.tick()?;
    Ok(())
}

/// Expands what waits at the place, which reaches a macro whose source has a number: notes the call in its module, and handles
/// the items of its expansion, with all that is in them. Where the macro asks for a path first that reaches nothing, notes
/// the paths that it asks for. Whether it expanded.
fn expand_known<D: SourceDatabase>(
    run: &mut DefCollector,
    db: &mut D,
    world: WorldPart<'_>,
    locations: &mut Tables,
    i: usize,
    call: &MacroDirective,
    makro: MacroId,
) -> Result<bool, CollectError>
    requires ready { IsReady locations.old (part_of world) (core_in run.old) }
    requires called { CallsMacro (part_of world) (at_rest (core_in run.old)) i call.now makro }
    requires shallow { call.now.site.level < (core_in run.old).map.crate_data.recursion_limit }
    requires below { call.now.site.level < 4294967295 }
    requires known { IsMeant locations.old makro }
    ensures kept { KeepsTables locations.old locations.new }
    ensures same { D.workspace db.new ≡ D.workspace db.old }
    ensures placed { AreCallsPlaced locations.old → AreCallsPlaced locations.new }
    ensures ok { OnOk result (OnceGrown locations.new (D.workspace db.old) (λ env. Steps env (part_of world.entry) (at_rest (core_in run.old)) (at_rest (core_in run.new)))) }
    ensures noted { OnOk result (IsNotedBeside (part_of world.entry) run.old run.new) }
    ensures tried { IfOk result (λ done. TriesCall (part_of world.entry) (core_in run.old) (core_in run.new) i done) }
    ensures many { result ≡ Err CollectError.TooMany → OnceGrown locations.new (D.workspace db.old) (λ env. IsSpent env (part_of world.entry) (at_rest (core_in run.old))) }
    ensures unknown { result ≡ Err CollectError.UnknownSource → ReachesUnknownSource locations.new (part_of world.entry) (at_rest (core_in run.old)) }
{
    let look = look_at_call(run, db, world, locations, call, makro)?;
    let expansion = match look {
        CallLook::Expands(expansion) => expansion,
        CallLook::Waits(inner) => {
            wait_for_paths(run, i, makro, inner)?;
            return Ok(false);
        }
    };
    let Expansion { id, error, source } = expansion;
    let site = call_site(call, id)?;
    run.end_call(i, Fate::Handled);
    run.note_call(call, id)?;
    bring_helpers(run, world, call, makro, Some(Either::Left(id)))?;
    report_failed(run, call, error)?;
    run.tick()?;
    let ids = source.tree().top_level_items();
    walk_all(run, db, world, locations, &source, &site, ids)?;
    Ok(true)
}

/// Expands what waits at the place, which reaches a macro, unless a source that writes the macro has no number, or one of
/// those that it asks for first. Whether it expanded.
fn expand<D: SourceDatabase>(
    run: &mut DefCollector,
    db: &mut D,
    world: WorldPart<'_>,
    locations: &mut Tables,
    i: usize,
    call: &MacroDirective,
    makro: MacroId,
) -> Result<bool, CollectError>
    requires ready { IsReady locations.old (part_of world) (core_in run.old) }
    requires called { CallsMacro (part_of world) (at_rest (core_in run.old)) i call.now makro }
    requires shallow { call.now.site.level < (core_in run.old).map.crate_data.recursion_limit }
    requires below { call.now.site.level < 4294967295 }
    ensures kept { KeepsTables locations.old locations.new }
    ensures same { D.workspace db.new ≡ D.workspace db.old }
    ensures placed { AreCallsPlaced locations.old → AreCallsPlaced locations.new }
    ensures ok { OnOk result (OnceGrown locations.new (D.workspace db.old) (λ env. Steps env (part_of world.entry) (at_rest (core_in run.old)) (at_rest (core_in run.new)))) }
    ensures noted { OnOk result (IsNotedBeside (part_of world.entry) run.old run.new) }
    ensures tried { IfOk result (λ done. TriesCall (part_of world.entry) (core_in run.old) (core_in run.new) i done) }
    ensures many { result ≡ Err CollectError.TooMany → OnceGrown locations.new (D.workspace db.old) (λ env. IsSpent env (part_of world.entry) (at_rest (core_in run.old))) }
    ensures unknown { result ≡ Err CollectError.UnknownSource → ReachesUnknownSource locations.new (part_of world.entry) (at_rest (core_in run.old)) }
{
    if !is_meant(locations, makro) {
        return Err(CollectError::UnknownSource);
    }
    expand_known(run, db, world, locations, i, call, makro)
}

/// Does what is to be done about what waits at the place.
fn do_due<D: SourceDatabase>(
    run: &mut DefCollector,
    db: &mut D,
    world: WorldPart<'_>,
    locations: &mut Tables,
    i: usize,
    call: &MacroDirective,
    due: Due,
) -> Result<bool, CollectError>
    requires ready { IsReady locations.old (part_of world) (core_in run.old) }
    requires waits { IsDue (at_rest (core_in run.old)) i call.now }
    requires due { IsDueOf (part_of world) (core_in run.old) i call.now due }
    requires below { (makro : MacroId) → due ≡ Due.Reaches makro → call.now.site.level < 4294967295 }
    ensures kept { KeepsTables locations.old locations.new }
    ensures same { D.workspace db.new ≡ D.workspace db.old }
    ensures placed { AreCallsPlaced locations.old → AreCallsPlaced locations.new }
    ensures ok { OnOk result (OnceGrown locations.new (D.workspace db.old) (λ env. Steps env (part_of world.entry) (at_rest (core_in run.old)) (at_rest (core_in run.new)))) }
    ensures tried { IfOk result (λ done. TriesCall (part_of world.entry) (core_in run.old) (core_in run.new) i done) }
    ensures noted { OnOk result (IsNotedBeside (part_of world.entry) run.old run.new) }
    ensures many { result ≡ Err CollectError.TooMany → OnceGrown locations.new (D.workspace db.old) (λ env. IsSpent env (part_of world.entry) (at_rest (core_in run.old))) }
    ensures unknown { result ≡ Err CollectError.UnknownSource → LeadsToUnknownSource (environment locations.new (D.workspace db.old)) (part_of world.entry) (at_rest (core_in run.old)) }
{
    match due {
        Due::Nothing => return Ok(false),
        Due::TooDeep => drop_call(run, i)?,
        Due::Skips => {
            let Some(item) = call.waiting_item() else {
                return Ok(false);
            };
            skip(run, db, world, locations, i, call, item)?;
        }
        Due::Derives(makro) => {
            let Some(imp) = builtin_impl(call, makro) else {
                return Ok(false);
            };
            derive_builtin(run, world, i, call, makro, imp)?;
        }
        Due::Drops(makro) => drop_reached(run, world, i, call, makro)?,
        Due::Reaches(makro) => return expand(run, db, world, locations, i, call, makro),
    }
    Ok(true)
}

/// Tries what waits at the place, if something does: whether it was handled.
fn try_call<D: SourceDatabase>(
    run: &mut DefCollector,
    db: &mut D,
    world: WorldPart<'_>,
    locations: &mut Tables,
    i: usize,
) -> Result<bool, CollectError>
    requires ready { IsReady locations.old (part_of world) (core_in run.old) }
    requires settled { i < (core_in run.old).settled }
    ensures kept { KeepsTables locations.old locations.new }
    ensures same { D.workspace db.new ≡ D.workspace db.old }
    ensures placed { AreCallsPlaced locations.old → AreCallsPlaced locations.new }
    ensures ok { OnOk result (OnceGrown locations.new (D.workspace db.old) (λ env. Steps env (part_of world.entry) (at_rest (core_in run.old)) (at_rest (core_in run.new)))) }
    ensures noted { OnOk result (IsNotedBeside (part_of world.entry) run.old run.new) }
    ensures tried { IfOk result (λ done. TriesCall (part_of world.entry) (core_in run.old) (core_in run.new) i done) }
    ensures many { result ≡ Err CollectError.TooMany → OnceGrown locations.new (D.workspace db.old) (λ env. IsSpent env (part_of world.entry) (at_rest (core_in run.old))) }
    ensures unknown { result ≡ Err CollectError.UnknownSource → LeadsToUnknownSource (environment locations.new (D.workspace db.old)) (part_of world.entry) (at_rest (core_in run.old)) }
{
    let Some(call) = run.waiting(i) else {
        return Ok(false);
    };
    let due = due_of(run, world, i, call);
    if let Due::Nothing = due {
        return Ok(false);
    }
    let call = call.clone()?;
    do_due(run, db, world, locations, i, &call, due)
}

/// Tries the call at the place, which was taken off the queue: whether it was handled. Where it was, what has read what
/// has changed by that is queued, and what has changed is gathered in `grown`; where it wasn't, it watches what it has read.
fn try_queued<D: SourceDatabase>(
    run: &mut DefCollector,
    db: &mut D,
    world: WorldPart<'_>,
    locations: &mut Tables,
    queue: &mut CallQueue,
    grown: &mut Changed,
    i: usize,
) -> Result<bool, CollectError>
    requires ready { IsReady locations.old (part_of world) (core_in run.old) }
    requires settled { i < (core_in run.old).settled }
    requires apart { LiesApart (part_of world) queue.old (core_in run.old) }
    requires up_to_date { IsUpToDate (part_of world) queue.old (core_in run.old) (Some i) }
    ensures kept { KeepsTables locations.old locations.new }
    ensures same { D.workspace db.new ≡ D.workspace db.old }
    ensures placed { AreCallsPlaced locations.old → AreCallsPlaced locations.new }
    ensures ok { OnOk result (OnceGrown locations.new (D.workspace db.old) (λ env. Steps env (part_of world.entry) (at_rest (core_in run.old)) (at_rest (core_in run.new)))) }
    ensures tried { IfOk result (λ done. TriesCall (part_of world.entry) (core_in run.old) (core_in run.new) i done) }
    ensures up_to_date { OnOk result (IsUpToDate (part_of world.entry) queue.new (core_in run.new) None) }
    ensures stays { OnOk result (GoesOn queue.old queue.new) }
    ensures gathered { OnOk result (IsGathered (part_of world.entry) grown.old run.old grown.new run.new) }
    ensures many { result ≡ Err CollectError.TooMany → OnceGrown locations.new (D.workspace db.old) (λ env. IsSpent env (part_of world.entry) (at_rest (core_in run.old))) }
    ensures unknown { result ≡ Err CollectError.UnknownSource → LeadsToUnknownSource (environment locations.new (D.workspace db.old)) (part_of world.entry) (at_rest (core_in run.old)) }
{
    let done = try_call(run, db, world, locations, i)?;
    if !done {
        watch(run, world, queue, i)?;
        return Ok(false);
    }
    grown.append(run.changed())?;
    wake(run, queue)?;
    Ok(true)
}

/// Whether one of two holds.
fn either(first: bool, second: bool) -> bool
    ensures value { result ≡ cond first true second }
{
    first || second
}

/// Tries each call that is queued, one after another: whether one was handled. A call sees what those before it have
/// expanded to; those that are come upon meanwhile wait for the next round. A call that isn't queued would be tried in
/// vain. What has changed is gathered in `grown`.
fn try_calls<D: SourceDatabase>(
    run: &mut DefCollector,
    db: &mut D,
    world: WorldPart<'_>,
    locations: &mut Tables,
    queue: &mut CallQueue,
    grown: &mut Changed,
) -> Result<bool, CollectError>
    requires ready { IsReady locations.old (part_of world) (core_in run.old) }
    requires settled { (core_in run.old).settled ≡ length (core_in run.old).calls }
    requires apart { LiesApart (part_of world) queue.old (core_in run.old) }
    requires up_to_date { IsUpToDate (part_of world) queue.old (core_in run.old) None }
    requires between { IsBetweenPasses queue.old }
    requires all { count_of (worklist_of queue.old) ≡ length (core_in run.old).calls }
    ensures kept { KeepsTables locations.old locations.new }
    ensures same { D.workspace db.new ≡ D.workspace db.old }
    ensures placed { AreCallsPlaced locations.old → AreCallsPlaced locations.new }
    ensures ok { OnOk result (OnceGrown locations.new (D.workspace db.old) (λ env. Steps env (part_of world.entry) (at_rest (core_in run.old)) (at_rest (core_in run.new)))) }
    ensures tried { IfOk result (λ progress. OnceGrown locations.new (D.workspace db.old) (λ env. TriesCalls env (part_of world.entry) (core_in run.old) (core_in run.new) progress)) }
    ensures up_to_date { OnOk result (IsUpToDate (part_of world.entry) queue.new (core_in run.new) None) }
    ensures between { OnOk result (IsBetweenPasses queue.new) }
    ensures queue { OnOk result (is_apart queue.new ≡ is_apart queue.old) }
    ensures gathered { OnOk result (IsGathered (part_of world.entry) grown.old run.old grown.new run.new) }
    ensures many { result ≡ Err CollectError.TooMany → OnceGrown locations.new (D.workspace db.old) (λ env. IsSpent env (part_of world.entry) (at_rest (core_in run.old))) }
    ensures unknown { result ≡ Err CollectError.UnknownSource → LeadsToUnknownSource (environment locations.new (D.workspace db.old)) (part_of world.entry) (at_rest (core_in run.old)) }
{
    let mut progress = false;
    queue.open();
    'tries: while let Some(i) = queue.take() {
        let done = try_queued(run, db, world, locations, queue, grown, i)?;
        progress = either(done, progress);
    }
    Ok(progress)
}

/// Takes imports until no more comes of them: of those that rested only such as have read one of the slots that have changed
/// since, `grown`, unless all slots count as changed. Then those calls may be expanded that there are.
fn settle(
    run: DefCollector,
    world: WorldPart<'_>,
    apart: bool,
    imports: ImportQueue,
    grown: &Changed,
) -> Result<(DefCollector, ImportQueue), StepError>
    requires apart { apart ≡ true → KeepsApart (part_of world) (core_in run) }
    requires imports { (i : ℕ) (r : ImportDirective) → slice_get (core_in run).reached i ≡ Some r → r.home < length (core_in run).map.modules }
    requires in_order { IsInOrder (core_in run).map }
    requires sound { IsSound (part_of world) (import_state (at_rest (core_in run))) }
    requires queue { is_lasting imports ≡ true → are_apart imports ≡ apart }
    requires resumable { is_lasting imports ≡ true → grown.now.all ≡ false → IsResumable (part_of world) imports (import_state (at_rest (core_in run))) grown.now.slots }
    requires globs { is_lasting imports ≡ true → grown.now.all ≡ false → GlobsLast (part_of world) (import_state (at_rest (core_in run))) run.globs }
    ensures ok { IfOk result (λ r. (env : Environment) → Steps env (part_of world.entry) (at_rest (core_in run)) (at_rest (core_in r.0))) }
    ensures rests { IfOk result (λ r. IsAtRest (part_of world.entry) (import_state (at_rest (core_in r.0)))) }
    ensures settled { IfOk result (λ r. (core_in r.0).settled ≡ length (core_in r.0).calls) }
    ensures counts { IfOk result (λ r. (core_in run).count ≤ (core_in r.0).count) }
    ensures noted { IfOk result (λ r. NotesSlots run r.0) }
    ensures queue { IfOk result (λ r. are_apart r.1 ≡ apart) }
    // nothing has changed since, and it doesn't matter what is noted
    ensures behind { IfOk result (λ r. length (core_in r.0).taken ≡ length (core_in r.0).reached → (changed : ChangedValue) (now : Run) → core_in now ≡ core_in r.0 → IsBehind (part_of world.entry) r.1 changed now) }
    ensures many { result ≡ Err StepError.TooMany → (env : Environment) → IsSpent env (part_of world.entry) (at_rest (core_in run)) }
{
    let (mut run, imports) = settling::settle(run, world, apart, imports, grown)?;
    run.rest()?;
    Ok((run, imports))
}

/// What a turn came to.
#[derive(Clone, Copy)]
enum Turn {
    /// Something that waited was handled.
    Round,
    /// Nothing that waits reached anything, and the first attribute that waits was given up, at the place before this.
    GaveUp(usize),
    /// Nothing that waits reached anything, and no attribute waits.
    Rests,
}

/// Tries what waits, where imports rest; where nothing is handled, gives up the first attribute that waits. What has changed
/// by that is gathered in `grown`, or noted.
fn take_waiting<D: SourceDatabase>(
    run: &mut DefCollector,
    db: &mut D,
    world: WorldPart<'_>,
    locations: &mut Tables,
    queue: &mut CallQueue,
    grown: &mut Changed,
    first: usize,
) -> Result<Turn, CollectError>
    requires apart { LiesApart (part_of world) queue.old (core_in run.old) }
    requires stale { IsStale (part_of world) queue.old run.old }
    requires between { IsBetweenPasses queue.old }
    requires settled { (core_in run.old).settled ≡ length (core_in run.old).calls }
    requires rests { IsAtRest (part_of world) (import_state (at_rest (core_in run.old))) }
    requires ready { IsReady locations.old (part_of world) (core_in run.old) }
    requires first { NoneWaitsBefore (core_in run.old) first }
    ensures kept { KeepsTables locations.old locations.new }
    ensures same { D.workspace db.new ≡ D.workspace db.old }
    ensures placed { AreCallsPlaced locations.old → AreCallsPlaced locations.new }
    ensures ok { OnOk result (OnceGrown locations.new (D.workspace db.old) (λ env. Steps env (part_of world.entry) (at_rest (core_in run.old)) (at_rest (core_in run.new)))) }
    ensures queue { OnOk result (is_apart queue.new ≡ is_apart queue.old) }
    ensures stale { OnOk result (IsStale (part_of world.entry) queue.new run.new) }
    ensures between { OnOk result (IsBetweenPasses queue.new) }
    ensures behind { OnOk result (StaysBehind (part_of world.entry) (core_in run.old) grown.new run.new) }
    ensures counts { IfOk result (λ turn. CountsOn (core_in run.old) (core_in run.new) turn) }
    ensures turned { IfOk result (λ turn. OnceGrown locations.new (D.workspace db.old) (λ env. TakesTurn env (part_of world.entry) (core_in run.old) (core_in run.new) first turn)) }
    ensures many { result ≡ Err CollectError.TooMany → OnceGrown locations.new (D.workspace db.old) (λ env. IsSpent env (part_of world.entry) (at_rest (core_in run.old))) }
    ensures unknown { result ≡ Err CollectError.UnknownSource → LeadsToUnknownSource (environment locations.new (D.workspace db.old)) (part_of world.entry) (at_rest (core_in run.old)) }
{
    requeue(run, world, queue)?;
    if try_calls(run, db, world, locations, queue, grown)? {
        return Ok(Turn::Round);
    }
    let given = give_up(run, db, world, locations, first)?;
    match given {
        Some(next) => Ok(Turn::GaveUp(next)),
        None => Ok(Turn::Rests),
    }
}

/// Takes imports until no more comes of them, and tries what waits; where nothing is handled, gives up the first
/// attribute that waits. What has changed since imports rested last is gathered in `grown`.
fn take_turn<D: SourceDatabase>(
    run: DefCollector,
    db: &mut D,
    world: WorldPart<'_>,
    locations: &mut Tables,
    queue: &mut CallQueue,
    imports: ImportQueue,
    grown: &mut Changed,
    apart: bool,
    first: usize,
) -> Result<(DefCollector, ImportQueue, Turn), CollectError>
    requires apart { apart ≡ true → KeepsApart (part_of world) (core_in run) }
    requires queue { is_apart queue.old ≡ apart }
    requires stale { IsStale (part_of world) queue.old run }
    requires between { IsBetweenPasses queue.old }
    requires imports { is_lasting imports ≡ true → are_apart imports ≡ apart }
    requires behind { IsBehind (part_of world) imports (joined grown.old run.changed) run }
    requires ready { IsReady locations.old (part_of world) (core_in run) }
    requires first { NoneWaitsBefore (core_in run) first }
    ensures kept { KeepsTables locations.old locations.new }
    ensures same { D.workspace db.new ≡ D.workspace db.old }
    ensures placed { AreCallsPlaced locations.old → AreCallsPlaced locations.new }
    ensures ok { IfOk result (λ r. OnceGrown locations.new (D.workspace db.old) (λ env. Steps env (part_of world.entry) (at_rest (core_in run)) (at_rest (core_in r.0)))) }
    ensures queue { OnOk result (is_apart queue.new ≡ is_apart queue.old) }
    ensures stale { IfOk result (λ r. IsStale (part_of world.entry) queue.new r.0) }
    ensures between { OnOk result (IsBetweenPasses queue.new) }
    ensures imports { IfOk result (λ r. are_apart r.1 ≡ apart) }
    ensures behind { IfOk result (λ r. IsBehind (part_of world.entry) r.1 (joined grown.new r.0.changed) r.0) }
    ensures counts { IfOk result (λ r. CountsOn (core_in run) (core_in r.0) r.2) }
    ensures turned { IfOk result (λ r. OnceGrown locations.new (D.workspace db.old) (λ env. TakesTurn env (part_of world.entry) (core_in run) (core_in r.0) first r.2)) }
    ensures many { result ≡ Err CollectError.TooMany → OnceGrown locations.new (D.workspace db.old) (λ env. IsSpent env (part_of world.entry) (at_rest (core_in run))) }
    ensures unknown { result ≡ Err CollectError.UnknownSource → LeadsToUnknownSource (environment locations.new (D.workspace db.old)) (part_of world.entry) (at_rest (core_in run)) }
{
    grown.append(run.changed())?;
    let (mut run, imports) = settle(run, world, apart, imports, grown)?;
    grown.clear();
    let turn = take_waiting(&mut run, db, world, locations, queue, grown, first)?;
    Ok((run, imports, turn))
}

/// Takes imports, expands calls, derives and attributes, round by round, until no more comes of them, and whether rounds
/// were cut off.
///
/// A round tries each call, path of a derive and attribute that waits once imports rest, those aside that would be tried in
/// vain. Imports that rested are taken up again where they have read something that has changed since. Where nothing that
/// waits reaches anything, the first attribute that waits is given up, which isn't counted as a round. More rounds than
/// `ROUND_LIMIT` end the run, with imports and calls that would go on; names go along globs all the same.
pub fn resolve_rounds<D: SourceDatabase>(
    run: DefCollector,
    db: &mut D,
    world: WorldPart<'_>,
    locations: &mut Tables,
    apart: bool,
) -> Result<(DefCollector, bool), CollectError>
    requires apart { apart ≡ true → KeepsApart (part_of world) (core_in run) }
    requires ready { IsReady locations.old (part_of world) (core_in run) }
    ensures kept { KeepsTables locations.old locations.new }
    ensures same { D.workspace db.new ≡ D.workspace db.old }
    ensures placed { AreCallsPlaced locations.old → AreCallsPlaced locations.new }
    ensures ok { IfOk result (λ r. OnceGrown locations.new (D.workspace db.old) (λ env. Steps env (part_of world.entry) (at_rest (core_in run)) (at_rest (core_in r.0)))) }
    ensures rests { IfOk result (λ r. OnceGrown locations.new (D.workspace db.old) (λ env. ComesToRest env (part_of world.entry) (core_in run) (core_in r.0) r.1)) }
    ensures many { result ≡ Err CollectError.TooMany → OnceGrown locations.new (D.workspace db.old) (λ env. IsSpent env (part_of world.entry) (at_rest (core_in run))) }
    ensures unknown { result ≡ Err CollectError.UnknownSource → LeadsToUnknownSource (environment locations.new (D.workspace db.old)) (part_of world.entry) (at_rest (core_in run)) }
{
    let mut run = run;
    let alloc = run.allocator();
    let mut queue = CallQueue::new(alloc, apart);
    let mut imports = ImportQueue::none(alloc);
    let mut grown = Changed::everything(alloc);
    let mut rounds: u32 = 0;
    let mut first: usize = 0;
    'rounds: while rounds <= ROUND_LIMIT {
        let (next, rested, turn) = take_turn(
            run, db, world, locations, &mut queue, imports, &mut grown, apart, first,
        )?;
        run = next;
        imports = rested;
        let is_counted = run.count() <= STEP_LIMIT;
        prove!(is_counted);
        match turn {
            Turn::Round => rounds += 1,
            Turn::GaveUp(behind) => first = behind,
            Turn::Rests => return Ok((run, false)),
        }
    }
    let run = settling::spread(run, world)?;
    Ok((run, true))
}
