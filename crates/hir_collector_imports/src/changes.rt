//! Which slots may have changed.
ghost use Rattle.std.specs.Prelude.{◌≡◌, ◌≢◌, true, false, IfOk};
ghost use Rattle.hir_collector_state.specs.HirImportRules.Changed.{everything, with_slots};

use hir_collector_state::hir_import_growth::Changed;
use hir_collector_state::hir_nameres::nameres::path_resolution::slots::Slot;
use std::alloc::AllocError;

/// What may have changed once steps were counted: anything, where any was.
pub fn changed_by(changed: Changed, before: u32, count: u32) -> Changed
    ensures still { count ≡ before → result ≡ changed }
    ensures moves { count ≢ before → result ≡ everything }
{
    if count == before {
        return changed;
    }
    let mut changed = changed;
    changed.add_everything();
    changed
}

/// What may have changed once imports were taken: the slots that they changed besides, where those are known.
pub fn changed_by_imports(
    changed: Changed,
    apart: bool,
    slots: &[Slot],
    before: u32,
    count: u32,
) -> Result<Changed, AllocError>
    ensures known { apart ≡ true → IfOk result (λ c. c ≡ with_slots slots.now changed) }
    ensures still { apart ≡ false → count ≡ before → IfOk result (λ c. c ≡ changed) }
    ensures moves { apart ≡ false → count ≢ before → IfOk result (λ c. c ≡ everything) }
{
    if !apart {
        return Ok(changed_by(changed, before, count));
    }
    let mut changed = changed;
    changed.add_each(slots)?;
    Ok(changed)
}
