//! Imports that are resolved round by round, while the map that has them grows between rounds.
ghost use Rattle.std.specs.Prelude.{◌≡◌, ◌≤◌, ◌<◌, ℕ, [], true, IfOk, None, Some, length, slice_get};
ghost use Rattle.hir_def_map_rules.specs.State.{IsInOrder};
ghost use Rattle.hir_nameres.specs.WorldParts.{part_of};
ghost use Rattle.hir_def_map_laws.specs.SlotChanges.{ScopesChangeAmong};
ghost use Rattle.hir_import_rules.specs.declared.directive.ImportDirective.{ImportDirective};
ghost use Rattle.hir_import_resolution.specs.Inner.Queue.{IsBegun};
ghost use Rattle.hir_import_resolution.specs.Inner.State.{IsApart, finished_by, state_by, state_in};
ghost use Rattle.hir_import_rules.specs.Lasting.{Lasts};
ghost use Rattle.hir_import_rules.specs.Rest.{IsAtRest, IsSound, IsSpent};
ghost use Rattle.hir_import_resolution.specs.Rounds.{AreQueued, IsResumable, IsUpToDate, is_apart, is_lasting};
ghost use Rattle.hir_import_growth.specs.Growth.{GlobsLast};
ghost use Rattle.hir_import_rules.specs.Rules.{Steps};

use crate::import_queue::ImportQueue;
use crate::imports::Imports;
use crate::lasting::do_globs_last;
use crate::resolver::Resolver;
use hir_glob_imports::MAX_STEPS;
use hir_import_rules::error::ImportError;
use hir_nameres::nameres::path_resolution::slots::Slot;
use hir_nameres::world::part::WorldPart;
use std::alloc::{AllocError, Global};

/// Imports that rest.
#[derive(Drop)]
pub struct Resting {
    pub imports: Imports,
    /// What they read, so that they are tried again once that has changed.
    pub queue: ImportQueue,
    /// The slots that changed as they were taken; it may list one twice. It's empty where finished maps may refer to the map
    /// that is built.
    pub changed: Vec<Slot>,
}

/// Looks at all names along all globs and tries what is queued, until no more comes of the imports.
fn settle_reopened(
    alloc: Global,
    world: WorldPart<'_>,
    queue: ImportQueue,
    imports: Imports,
) -> Result<Resting, ImportError>
    requires small { imports.count ≤ MAX_STEPS }
    requires apart { is_apart queue ≡ true → IsApart (part_of world) imports.map.id imports.local }
    requires queued { AreQueued (part_of world) queue (state_in imports) }
    requires lasts { is_lasting queue ≡ true → Lasts (part_of world) (state_in imports) }
    requires watches { is_lasting queue ≡ true → is_apart queue ≡ true }
    requires sound { IsSound (part_of world) (state_in imports) }
    ensures derived { IfOk result (λ r. Steps (part_of world.entry) (state_in imports) (state_in r.imports)) }
    ensures rests { IfOk result (λ r. IsAtRest (part_of world.entry) (state_in r.imports)) }
    ensures sound { IfOk result (λ r. IsSound (part_of world.entry) (state_in r.imports)) }
    ensures up_to_date { IfOk result (λ r. IsUpToDate (part_of world.entry) r.queue (state_in r.imports)) }
    ensures changes { IfOk result (λ r. is_apart queue ≡ true → ScopesChangeAmong imports.map r.imports.map imports.local r.changed.items) }
    ensures local { IfOk result (λ r. r.imports.local ≡ imports.local) }
    ensures small { IfOk result (λ r. r.imports.count ≤ MAX_STEPS) }
    ensures apart { IfOk result (λ r. is_apart r.queue ≡ is_apart queue) }
    ensures many { result ≡ Err ImportError.TooMany → IsSpent (part_of world.entry) (state_in imports) }
{
    let mut resolver = Resolver::new(alloc, world, queue, imports);
    resolver.reopen()?;
    resolver.settle()?;
    Ok(resolver.finish())
}

/// Takes imports, in the order in which they were found, until no more comes of them: tries each, and looks at all names along
/// all globs. Where `ImportQueue::lasts` says so they may be taken up again by `resume_imports`.
pub fn begin_imports(
    alloc: Global,
    world: WorldPart<'_>,
    apart: bool,
    imports: Imports,
) -> Result<Resting, ImportError>
    requires small { imports.count ≤ MAX_STEPS }
    requires apart { apart ≡ true → IsApart (part_of world) imports.map.id imports.local }
    requires there { (i : ℕ) (r : ImportDirective) → slice_get imports.imports.items i ≡ Some r → r.home < length imports.map.modules }
    requires in_order { IsInOrder imports.map }
    requires sound { IsSound (part_of world) (state_in imports) }
    ensures derived { IfOk result (λ r. Steps (part_of world.entry) (state_in imports) (state_in r.imports)) }
    ensures rests { IfOk result (λ r. IsAtRest (part_of world.entry) (state_in r.imports)) }
    ensures sound { IfOk result (λ r. IsSound (part_of world.entry) (state_in r.imports)) }
    ensures up_to_date { IfOk result (λ r. IsUpToDate (part_of world.entry) r.queue (state_in r.imports)) }
    // each scope that changed is at one of the slots
    ensures changes { IfOk result (λ r. apart ≡ true → ScopesChangeAmong imports.map r.imports.map imports.local r.changed.items) }
    ensures local { IfOk result (λ r. r.imports.local ≡ imports.local) }
    ensures small { IfOk result (λ r. r.imports.count ≤ MAX_STEPS) }
    ensures apart { IfOk result (λ r. is_apart r.queue ≡ apart) }
    // Steps lead on to as many as are counted, and one more may be taken.
    ensures many { result ≡ Err ImportError.TooMany → IsSpent (part_of world.entry) (state_in imports) }
{
    let lasting = do_globs_last(apart, world, &imports);
    let mut queue = ImportQueue::new(alloc, apart, lasting);
    queue.append(imports.imports.len())?;
    settle_reopened(alloc, world, queue, imports)
}

/// Takes over imports that came to rest: queues those that read a slot that has changed, and those that came besides.
fn resumed<'a>(
    alloc: Global,
    world: WorldPart<'a>,
    queue: ImportQueue,
    imports: Imports,
    changed: &[Slot],
) -> Result<Resolver<'a>, AllocError>
    requires small { imports.count ≤ MAX_STEPS }
    requires there { (i : ℕ) (r : ImportDirective) → slice_get imports.imports.items i ≡ Some r → r.home < length imports.map.modules }
    requires in_order { IsInOrder imports.map }
    requires sound { IsSound (part_of world) (state_in imports) }
    requires lasts { is_lasting queue ≡ true }
    requires resumable { IsResumable (part_of world) queue (state_in imports) changed.now }
    requires globs { GlobsLast (part_of world) (state_in imports) imports.globs }
    ensures begun { IfOk result (λ r. IsBegun r None) }
    ensures over { IfOk result (λ r. r.worklist.current ≡ []) }
    ensures outside { IfOk result (λ r. r.worklist.end ≡ 0) }
    ensures state { IfOk result (λ r. state_by r ≡ state_in imports) }
    ensures finished { IfOk result (λ r. finished_by r ≡ part_of world.entry) }
    ensures apart { IfOk result (λ r. r.apart ≡ is_apart queue) }
    ensures reported { IfOk result (λ r. r.reported.items ≡ []) }
{
    let mut queue = queue;
    queue.wake(changed)?;
    let count = imports.imports.len();
    queue.append(count)?;
    let resolver = Resolver::new(alloc, world, queue, imports);
    Ok(resolver)
}

/// Takes up imports that came to rest, once their map has grown: tries those that read a slot that has changed, and those
/// that came besides, until no more comes of them. Along globs names go only from where that is noted.
///
/// Between two rounds modules and enums may come, names may be bound (`forget`) and go along globs (`spread_changes`), and
/// imports may be found, which are pushed behind the others with nothing taken. `changed` has each slot in which the map
/// differs from when the imports came to rest. That anything lasts isn't promised: where it doesn't, or more has changed,
/// they are begun anew.
///
/// ```text
/// let mut resting = begin_imports(alloc, world, apart, imports)?;
/// while walk_expansions(&mut resting.imports, &mut changed)? {
///     resting = if resting.queue.lasts() {
///         resume_imports(alloc, world, resting.queue, resting.imports, &changed)?
///     } else {
///         begin_imports(alloc, world, apart, resting.imports)?
///     };
///     changed.clear();
/// }
/// ```
pub fn resume_imports(
    alloc: Global,
    world: WorldPart<'_>,
    queue: ImportQueue,
    imports: Imports,
    changed: &[Slot],
) -> Result<Resting, ImportError>
    requires small { imports.count ≤ MAX_STEPS }
    requires there { (i : ℕ) (r : ImportDirective) → slice_get imports.imports.items i ≡ Some r → r.home < length imports.map.modules }
    requires in_order { IsInOrder imports.map }
    requires sound { IsSound (part_of world) (state_in imports) }
    requires lasts { is_lasting queue ≡ true }
    requires resumable { IsResumable (part_of world) queue (state_in imports) changed.now }
    requires globs { GlobsLast (part_of world) (state_in imports) imports.globs }
    ensures derived { IfOk result (λ r. Steps (part_of world.entry) (state_in imports) (state_in r.imports)) }
    ensures rests { IfOk result (λ r. IsAtRest (part_of world.entry) (state_in r.imports)) }
    ensures sound { IfOk result (λ r. IsSound (part_of world.entry) (state_in r.imports)) }
    ensures up_to_date { IfOk result (λ r. IsUpToDate (part_of world.entry) r.queue (state_in r.imports)) }
    // each scope that changed is at one of the slots
    ensures changes { IfOk result (λ r. is_apart queue ≡ true → ScopesChangeAmong imports.map r.imports.map imports.local r.changed.items) }
    ensures local { IfOk result (λ r. r.imports.local ≡ imports.local) }
    ensures small { IfOk result (λ r. r.imports.count ≤ MAX_STEPS) }
    ensures apart { IfOk result (λ r. is_apart r.queue ≡ is_apart queue) }
    // Steps lead on to as many as are counted, and one more may be taken.
    ensures many { result ≡ Err ImportError.TooMany → IsSpent (part_of world.entry) (state_in imports) }
{
    let mut resolver = resumed(alloc, world, queue, imports, changed)?;
    resolver.settle()?;
    Ok(resolver.finish())
}
