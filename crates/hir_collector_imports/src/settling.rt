//! A run takes its imports until no more comes of them.
#![tactic(auto, unfolding(hir_collector_rules::specs::State::core_in))]

ghost use Rattle.std.specs.Prelude.{◌≡◌, ◌<◌, ◌≤◌, ℕ, true, false, Some, length, slice_get, IfOk};
ghost use Rattle.hir_collector_state.specs.HirDefMapRules.State.{IsInOrder};
ghost use Rattle.hir_collector_state.specs.HirNameres.WorldParts.{part_of};
ghost use Rattle.hir_collector_state.specs.HirDefMapLaws.SlotChanges.{ScopesChangeAmong};
ghost use Rattle.hir_import_resolution.specs.Inner.State.{IsApart, state_in};
ghost use Rattle.hir_collector_state.specs.HirImportRules.Rest.{IsAtRest, IsClosed, IsSound, IsSpent as ImportsAreSpent};
ghost use Rattle.hir_collector_state.specs.HirImportGrowth.Growth.{GlobsLast};
ghost use Rattle.hir_import_resolution.specs.Rounds.{IsResumable, IsUpToDate as AreUpToDate, is_apart, is_lasting};
ghost use Rattle.hir_collector_state.specs.HirImportRules.Rules.{Steps as StepsOfImports};
ghost use Rattle.hir_collector_rules.specs.Keys.{Environment};
ghost use Rattle.hir_collector_rules.specs.State.{at_rest, core_in, core_with_imports, import_state};
ghost use Rattle.hir_collector_rules.specs.Steps.{Steps};
ghost use Rattle.hir_collector_rules.specs.Derivation.{IsSpent};
ghost use Rattle.hir_collector_state.specs.Waiting.{NotesSlots};

use crate::changes::{changed_by, changed_by_imports};
use hir_collector_rules::start::{STEP_LIMIT, StepError};
use hir_collector_state::def_collector::DefCollector;
use hir_collector_state::hir_import_growth::Changed;
use hir_collector_state::hir_nameres::world::part::WorldPart;
use hir_import_resolution::{
    ImportDirective, ImportError, ImportQueue, Imports, Resting, begin_imports, resume_imports,
    spread_globs,
};
use std::alloc::Global;

/// Takes imports until no more comes of them: all, or where what was found out lasts and not all slots count as changed, those
/// of the queue that have read one of the slots, and those that came besides.
fn take_imports(
    alloc: Global,
    world: WorldPart<'_>,
    apart: bool,
    queue: ImportQueue,
    grown: &Changed,
    imports: Imports,
) -> Result<Resting, ImportError>
    requires small { imports.count ≤ STEP_LIMIT }
    requires apart { apart ≡ true → IsApart (part_of world) imports.map.id imports.local }
    requires there { (i : ℕ) (r : ImportDirective) → slice_get imports.imports.items i ≡ Some r → r.home < length imports.map.modules }
    requires in_order { IsInOrder imports.map }
    requires sound { IsSound (part_of world) (state_in imports) }
    requires queue { is_lasting queue ≡ true → is_apart queue ≡ apart }
    requires resumable { is_lasting queue ≡ true → grown.now.all ≡ false → IsResumable (part_of world) queue (state_in imports) grown.now.slots }
    requires globs { is_lasting queue ≡ true → grown.now.all ≡ false → GlobsLast (part_of world) (state_in imports) imports.globs }
    ensures derived { IfOk result (λ r. StepsOfImports (part_of world.entry) (state_in imports) (state_in r.imports)) }
    ensures rests { IfOk result (λ r. IsAtRest (part_of world.entry) (state_in r.imports)) }
    ensures sound { IfOk result (λ r. IsSound (part_of world.entry) (state_in r.imports)) }
    ensures up_to_date { IfOk result (λ r. AreUpToDate (part_of world.entry) r.queue (state_in r.imports)) }
    ensures changes { IfOk result (λ r. apart ≡ true → ScopesChangeAmong imports.map r.imports.map imports.local r.changed.items) }
    ensures local { IfOk result (λ r. r.imports.local ≡ imports.local) }
    ensures small { IfOk result (λ r. r.imports.count ≤ STEP_LIMIT) }
    ensures apart { IfOk result (λ r. is_apart r.queue ≡ apart) }
    ensures many { result ≡ Err ImportError.TooMany → ImportsAreSpent (part_of world.entry) (state_in imports) }
{
    if queue.lasts() && !grown.is_everything() {
        return resume_imports(alloc, world, queue, imports, grown.slots());
    }
    begin_imports(alloc, world, apart, imports)
}

/// Takes imports, and what comes of them along globs, until no more comes. Of those in `queue`, where what was found out of
/// them lasts and not all slots count as changed, only those are tried that have read one of the slots that have changed
/// since they rested, `grown`.
pub fn settle(
    run: DefCollector,
    world: WorldPart<'_>,
    apart: bool,
    queue: ImportQueue,
    grown: &Changed,
) -> Result<(DefCollector, ImportQueue), StepError>
    requires apart { apart ≡ true → IsApart (part_of world) (core_in run).map.id (core_in run).local }
    requires there { (i : ℕ) (r : ImportDirective) → slice_get (core_in run).reached i ≡ Some r → r.home < length (core_in run).map.modules }
    requires in_order { IsInOrder (core_in run).map }
    requires sound { IsSound (part_of world) (import_state (at_rest (core_in run))) }
    requires queue { is_lasting queue ≡ true → is_apart queue ≡ apart }
    requires resumable { is_lasting queue ≡ true → grown.now.all ≡ false → IsResumable (part_of world) queue (import_state (at_rest (core_in run))) grown.now.slots }
    requires globs { is_lasting queue ≡ true → grown.now.all ≡ false → GlobsLast (part_of world) (import_state (at_rest (core_in run))) run.globs }
    ensures ok { IfOk result (λ r. (env : Environment) → Steps env (part_of world.entry) (at_rest (core_in run)) (at_rest (core_in r.0))) }
    ensures noted { IfOk result (λ r. NotesSlots run r.0) }
    ensures rests { IfOk result (λ r. IsAtRest (part_of world.entry) (import_state (at_rest (core_in r.0)))) }
    ensures sound { IfOk result (λ r. IsSound (part_of world.entry) (import_state (at_rest (core_in r.0)))) }
    ensures up_to_date { IfOk result (λ r. AreUpToDate (part_of world.entry) r.1 (import_state (at_rest (core_in r.0)))) }
    ensures apart { IfOk result (λ r. is_apart r.1 ≡ apart) }
    ensures others { IfOk result (λ r. core_in r.0 ≡ core_with_imports (core_in run) (import_state (at_rest (core_in r.0)))) }
    ensures many { result ≡ Err StepError.TooMany → (env : Environment) → IsSpent env (part_of world.entry) (at_rest (core_in run)) }
{
    let alloc = run.allocator();
    let before = run.count;
    let resting = take_imports(
        alloc,
        world,
        apart,
        queue,
        grown,
        Imports {
            map: run.map,
            local: run.local,
            from_glob_import: run.from_glob_import,
            imports: run.reached,
            taken: run.taken,
            globs: run.globs,
            count: run.count,
        },
    )?;
    let imports = resting.imports;
    let slots = resting.changed.as_slice();
    let changed = changed_by_imports(run.changed, apart, slots, before, imports.count)?;
    let next = DefCollector {
        map: imports.map,
        local: imports.local,
        dependencies: run.dependencies,
        options: run.options,
        from_glob_import: imports.from_glob_import,
        globs: imports.globs,
        reached: imports.imports,
        taken: imports.taken,
        calls: run.calls,
        fates: run.fates,
        eager: run.eager,
        settled: run.settled,
        is_proc_macro: run.is_proc_macro,
        exported: run.exported,
        asked: run.asked,
        count: imports.count,
        changed,
    };
    Ok((next, resting.queue))
}

/// Lets names go along globs until none is left to go.
pub fn spread(run: DefCollector, world: WorldPart<'_>) -> Result<DefCollector, StepError>
    requires sound { IsSound (part_of world) (import_state (at_rest (core_in run))) }
    ensures ok { IfOk result (λ r. (env : Environment) → Steps env (part_of world.entry) (at_rest (core_in run)) (at_rest (core_in r))) }
    ensures noted { IfOk result (λ r. NotesSlots run r) }
    ensures closed { IfOk result (λ r. IsClosed (part_of world.entry) (import_state (at_rest (core_in r)))) }
    ensures sound { IfOk result (λ r. IsSound (part_of world.entry) (import_state (at_rest (core_in r)))) }
    ensures others { IfOk result (λ r. core_in r ≡ core_with_imports (core_in run) (import_state (at_rest (core_in r)))) }
    ensures many { result ≡ Err StepError.TooMany → (env : Environment) → IsSpent env (part_of world.entry) (at_rest (core_in run)) }
{
    let alloc = run.allocator();
    let before = run.count;
    let imports = spread_globs(
        alloc,
        world,
        Imports {
            map: run.map,
            local: run.local,
            from_glob_import: run.from_glob_import,
            imports: run.reached,
            taken: run.taken,
            globs: run.globs,
            count: run.count,
        },
    )?;
    Ok(DefCollector {
        map: imports.map,
        local: imports.local,
        dependencies: run.dependencies,
        options: run.options,
        from_glob_import: imports.from_glob_import,
        globs: imports.globs,
        reached: imports.imports,
        taken: imports.taken,
        calls: run.calls,
        fates: run.fates,
        eager: run.eager,
        settled: run.settled,
        is_proc_macro: run.is_proc_macro,
        exported: run.exported,
        asked: run.asked,
        count: imports.count,
        changed: changed_by(run.changed, before, imports.count),
    })
}
