//! Definitions that are listed and bound.
ghost use Rattle.std.specs.Prelude.{◌≡◌, ◌≤◌, OnOk};
ghost use Rattle.hir_collector_rules.specs.State.{core_in, counted};
ghost use Rattle.hir_collector_rules.specs.Steps.{with_declaration};
ghost use Rattle.hir_collector_state.specs.Waiting.{IsNoted};

use crate::def_collector::DefCollector;
use hir_collector_rules::declaration::Declaration;
use hir_collector_rules::start::{STEP_LIMIT, StepError};
use std::alloc::AllocError;

/// Lists a definition in a module, and binds its name there.
pub fn bind(run: &mut DefCollector, home: u32, declaration: Declaration) -> Result<(), AllocError>
    ensures ok { OnOk result (core_in run.new ≡ with_declaration (core_in run.old) home declaration) }
    ensures noted { OnOk result (IsNoted run.old run.new) }
{
    let Declaration { name, def, items } = declaration;
    run.declare(home, def)?;
    run.bind(home, name, items)?;
    Ok(())
}

/// Lists a definition in a module and binds its name there, as the last part of a step.
pub fn declare(run: &mut DefCollector, home: u32, declaration: Declaration) -> Result<(), StepError>
    ensures ok { OnOk result (core_in run.new ≡ counted (with_declaration (core_in run.old) home declaration)) }
    ensures noted { OnOk result (IsNoted run.old run.new) }
    ensures many { result ≡ Err StepError.TooMany → STEP_LIMIT ≤ (core_in run.old).count }
{
    bind(run, home, declaration)?;
    run.tick()?;
    Ok(())
}
