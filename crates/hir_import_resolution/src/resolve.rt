//! Imports until no more comes of them.
ghost use Rattle.std.specs.Prelude.{◌≡◌, ◌≤◌, ◌<◌, ℕ, true, IfOk, Some, length, slice_get};
ghost use Rattle.hir_import_rules.specs.declared.directive.ImportDirective.{ImportDirective};
ghost use Rattle.hir_def_map_rules.specs.State.{IsInOrder};
ghost use Rattle.hir_nameres.specs.WorldParts.{part_of};
ghost use Rattle.hir_import_rules.specs.Rest.{IsAtRest, IsSound, IsSpent};
ghost use Rattle.hir_import_rules.specs.Rules.{Steps};
ghost use Rattle.hir_import_resolution.specs.Inner.State.{IsApart, state_in};

use crate::imports::Imports;
use crate::rounds::begin_imports;
use hir_glob_imports::MAX_STEPS;
use hir_import_rules::error::ImportError;
use hir_nameres::world::part::WorldPart;
use std::alloc::Global;

/// Takes imports, in the order in which they were found, until no more comes of them.
///
/// With `apart` the finished maps don't refer to the map that is built. An import is then tried again only when something
/// has changed that its path read; without it each change may change each answer, and all are tried again. After
/// rust-analyzer's `DefCollector::resolve_imports`.
pub fn resolve_imports(
    alloc: Global,
    world: WorldPart<'_>,
    apart: bool,
    imports: Imports,
) -> Result<Imports, ImportError>
    requires small { imports.count ≤ MAX_STEPS }
    requires apart { apart ≡ true → IsApart (part_of world) imports.map.id imports.local }
    requires there { (i : ℕ) (r : ImportDirective) → slice_get imports.imports.items i ≡ Some r → r.home < length imports.map.modules }
    requires in_order { IsInOrder imports.map }
    requires sound { IsSound (part_of world) (state_in imports) }
    ensures derived { IfOk result (λ r. Steps (part_of world.entry) (state_in imports) (state_in r)) }
    ensures rests { IfOk result (λ r. IsAtRest (part_of world.entry) (state_in r)) }
    ensures small { IfOk result (λ r. r.count ≤ MAX_STEPS) }
    // Steps lead on to as many as are counted, and one more may be taken.
    ensures many { result ≡ Err ImportError.TooMany → IsSpent (part_of world.entry) (state_in imports) }
{
    let resting = begin_imports(alloc, world, apart, imports)?;
    Ok(resting.imports)
}
