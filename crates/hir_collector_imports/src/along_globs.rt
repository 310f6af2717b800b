//! What globs change in a run, which is noted.
#![tactic(auto, unfolding(hir_collector_rules::specs::State::core_in))]

ghost use Rattle.std.specs.Prelude.{◌≡◌, [], IsOkAnd, List, OnOk, length, option_copied};
ghost use Rattle.hir_collector_state.specs.HirNameres.WorldParts.{part_of};
ghost use Rattle.hir_collector_rules.specs.Derivation.{IsSpent};
ghost use Rattle.hir_collector_rules.specs.Keys.{Environment};
ghost use Rattle.hir_collector_rules.specs.State.{Task, core_in, joined};
ghost use Rattle.hir_collector_rules.specs.Steps.{Steps};
ghost use Rattle.hir_collector_state.specs.Waiting.{IsNotedBeside};
ghost use Rattle.hir_collector_imports.specs.Waiting.{noted_along, noted_name};

use hir_base::name::Name;
use hir_collector_rules::start::StepError;
use hir_collector_state::def_collector::DefCollector;
use hir_collector_state::hir_glob_imports::Slot;
use hir_collector_state::hir_import_growth::Changed;
use hir_collector_state::hir_nameres::world::part::WorldPart;
use hir_import_resolution::{ImportError, Imports, spread_changes};
use std::alloc::AllocError;

/// Notes the slot of a name in a module. A trait without a name has no slot of paths, so then all count as changed.
fn note(changed: &mut Changed, at: u32, name: Option<&Name>) -> Result<(), AllocError>
    ensures ok { OnOk result (changed.new ≡ noted_name at (option_copied name.entry) changed.old) }
{
    let Some(name) = name else {
        changed.add_everything();
        return Ok(());
    };
    changed.add(at, name)
}

/// Notes the slots that globs have changed.
fn note_each(changed: &mut Changed, slots: &[Slot]) -> Result<(), AllocError>
    ensures ok { OnOk result (changed.new ≡ noted_along slots.now changed.old) }
{
    let mut left = slots;
    'next: while let [slot, others @ ..] = left {
        note(changed, slot.at, slot.key.name())?;
        left = others;
    }
    Ok(())
}

/// Notes what globs have changed, where they didn't fail.
fn note_changes(
    changed: &mut Changed,
    slots: Result<Vec<Slot>, ImportError>,
) -> Result<(), StepError>
    ensures ok { OnOk result (IsOkAnd slots (λ s. changed.new ≡ noted_along s.items changed.old)) }
    ensures many { result ≡ Err StepError.TooMany → slots ≡ Err ImportError.TooMany }
{
    let slots = slots?;
    note_each(changed, slots.as_slice())?;
    Ok(())
}

/// Lets what was bound go along globs; the run is given back in any case.
pub(crate) fn with_changes_spread(
    run: DefCollector,
    world: WorldPart<'_>,
) -> (DefCollector, Result<(), StepError>)
    ensures ok { OnOk result.1 ((env : Environment) (rest : List Task) → Steps env (part_of world.entry) (joined (core_in run) rest) (joined (core_in result.0) rest)) }
    ensures noted { OnOk result.1 (IsNotedBeside (part_of world.entry) run result.0) }
    ensures settled { OnOk result.1 (result.0.globs.pending ≡ []) }
    ensures modules { OnOk result.1 (length (core_in result.0).map.modules ≡ length (core_in run).map.modules) }
    ensures many { result.1 ≡ Err StepError.TooMany → (env : Environment) (rest : List Task) → IsSpent env (part_of world.entry) (joined (core_in run) rest) }
{
    let alloc = run.allocator();
    let (imports, slots) = spread_changes(
        alloc,
        world,
        Imports {
            map: run.map,
            local: run.local,
            from_glob_import: run.from_glob_import,
            imports: run.reached,
            taken: run.taken,
            globs: run.globs,
            count: run.count,
        },
    );
    let mut changed = run.changed;
    let noted = note_changes(&mut changed, slots);
    let next = DefCollector {
        map: imports.map,
        local: imports.local,
        dependencies: run.dependencies,
        options: run.options,
        from_glob_import: imports.from_glob_import,
        globs: imports.globs,
        reached: imports.imports,
        taken: imports.taken,
        calls: run.calls,
        fates: run.fates,
        eager: run.eager,
        settled: run.settled,
        is_proc_macro: run.is_proc_macro,
        exported: run.exported,
        asked: run.asked,
        count: imports.count,
        changed,
    };
    (next, noted)
}
