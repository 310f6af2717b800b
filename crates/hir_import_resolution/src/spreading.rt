//! Names that go along globs while the map that has them grows.
ghost use Rattle.std.specs.Prelude.{◌≡◌, ◌≤◌, [], Err, IfOk, OnOk};
ghost use Rattle.hir_nameres.specs.WorldParts.{part_of};
ghost use Rattle.hir_def_map_laws.specs.SlotChanges.{ScopesChangeAmong};
ghost use Rattle.hir_import_resolution.specs.Inner.State.{path_slots, state_in};
ghost use Rattle.hir_import_rules.specs.Rest.{BroughtStands, IsClosed, IsSound, IsSpent};
ghost use Rattle.hir_import_growth.specs.Growth.{GlobsLast};
ghost use Rattle.hir_import_rules.specs.Rules.{Steps};

use crate::import_queue::ImportQueue;
use crate::imports::Imports;
use crate::resolver::Resolver;
use hir_glob_imports::{MAX_STEPS, Slot};
use hir_import_rules::error::ImportError;
use hir_nameres::world::part::WorldPart;
use std::alloc::Global;

/// Lets names go along globs from where it is noted that they have yet to go, until none is left; which slots changed. No
/// import is taken.
///
/// The imports are given back in any case. After rust-analyzer's `DefCollector::update`.
pub fn spread_changes(
    alloc: Global,
    world: WorldPart<'_>,
    imports: Imports,
) -> (Imports, Result<Vec<Slot>, ImportError>)
    requires small { imports.count ≤ MAX_STEPS }
    ensures derived { OnOk result.1 (Steps (part_of world.entry) (state_in imports) (state_in result.0)) }
    // each scope that changed is at one of the slots
    ensures changes { IfOk result.1 (λ slots. ScopesChangeAmong imports.map result.0.map imports.local (path_slots slots.items)) }
    ensures settled { OnOk result.1 (result.0.globs.pending ≡ []) }
    // what is known of globs stays true
    ensures globs { OnOk result.1 (GlobsLast (part_of world.entry) (state_in imports) imports.globs → GlobsLast (part_of world.entry) (state_in result.0) result.0.globs) }
    ensures local { result.0.local ≡ imports.local }
    ensures imports { result.0.imports.items ≡ imports.imports.items }
    ensures taken { result.0.taken.items ≡ imports.taken.items }
    ensures small { result.0.count ≤ MAX_STEPS }
    // Steps lead on to as many as are counted, and one more may be taken.
    ensures many { result.1 ≡ Err ImportError.TooMany → IsSpent (part_of world.entry) (state_in imports) }
{
    let queue = ImportQueue::none(alloc);
    let mut resolver = Resolver::new(alloc, world, queue, imports);
    let spread = resolver.spread();
    let (imports, changes) = resolver.finish_wave();
    match spread {
        Ok(()) => (imports, Ok(changes)),
        Err(error) => (imports, Err(error)),
    }
}

/// Lets names go along globs until none is left to go. No import is taken.
pub fn spread_globs(
    alloc: Global,
    world: WorldPart<'_>,
    imports: Imports,
) -> Result<Imports, ImportError>
    requires small { imports.count ≤ MAX_STEPS }
    requires sound { IsSound (part_of world) (state_in imports) }
    ensures derived { IfOk result (λ i. Steps (part_of world.entry) (state_in imports) (state_in i)) }
    ensures closed { IfOk result (λ i. IsClosed (part_of world.entry) (state_in i)) }
    ensures stands { IfOk result (λ i. BroughtStands (part_of world.entry) (state_in i)) }
    ensures sound { IfOk result (λ i. IsSound (part_of world.entry) (state_in i)) }
    ensures small { IfOk result (λ i. i.count ≤ MAX_STEPS) }
    // Steps lead on to as many as are counted, and one more may be taken.
    ensures many { result ≡ Err ImportError.TooMany → IsSpent (part_of world.entry) (state_in imports) }
{
    let queue = ImportQueue::none(alloc);
    let mut resolver = Resolver::new(alloc, world, queue, imports);
    resolver.reopen()?;
    resolver.spread()?;
    let resting = resolver.finish();
    Ok(resting.imports)
}
