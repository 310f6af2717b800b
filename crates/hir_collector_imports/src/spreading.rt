//! Names that go along globs as soon as they are bound.
#![tactic(auto, unfolding(hir_collector_rules::specs::State::core_in))]

ghost use Rattle.std.specs.Prelude.{◌≡◌, [], List, OnOk, length};
ghost use Rattle.hir_collector_state.specs.HirNameres.WorldParts.{part_of};
ghost use Rattle.hir_collector_rules.specs.Derivation.{IsSpent};
ghost use Rattle.hir_collector_rules.specs.Keys.{Environment};
ghost use Rattle.hir_collector_rules.specs.State.{Task, core_in, joined};
ghost use Rattle.hir_collector_rules.specs.Steps.{Steps};
ghost use Rattle.hir_collector_state.specs.Waiting.{IsNotedBeside};

use crate::along_globs::with_changes_spread;
use core::mem::replace_with;
use hir_collector_rules::start::StepError;
use hir_collector_state::def_collector::DefCollector;
use hir_collector_state::hir_nameres::world::part::WorldPart;

/// Lets what was bound go along globs, until nothing is left to go.
///
/// After rust-analyzer's `DefCollector::update_recursive`.
pub fn spread_changes(run: &mut DefCollector, world: WorldPart<'_>) -> Result<(), StepError>
    ensures ok { OnOk result ((env : Environment) (rest : List Task) → Steps env (part_of world.entry) (joined (core_in run.old) rest) (joined (core_in run.new) rest)) }
    ensures noted { OnOk result (IsNotedBeside (part_of world.entry) run.old run.new) }
    ensures settled { OnOk result (run.new.globs.pending ≡ []) }
    ensures modules { OnOk result (length (core_in run.new).map.modules ≡ length (core_in run.old).map.modules) }
    ensures many { result ≡ Err StepError.TooMany → (env : Environment) (rest : List Task) → IsSpent env (part_of world.entry) (joined (core_in run.old) rest) }
{
    if run.globs.is_settled() {
        return Ok(());
    }
    replace_with(run, world, with_changes_spread)
}
