//! What a module declares, whether or not a name stands for it, is listed in its scope.
//!
//! After rust-analyzer's `ModCollector`, which calls these methods of a module's `ItemScope`.
ghost use Rattle.std.specs.Prelude.{◌≡◌, OnOk, OnErr};
ghost use Rattle.hir_def_map_rules.specs.State.{changed_at, with_module_scope};
ghost use Rattle.hir_def_map_rules.specs.Declaration.{listed};

use crate::module_data::ModuleData;
use hir_base::ids::{ConstId, ExternBlockId, ExternCrateId, ImplId, ModuleDefId, UseId};
use std::alloc::AllocError;

/// What a module may declare.
#[derive(Clone, Copy)]
pub enum Declaration {
    Def(ModuleDefId),
    Use(UseId),
    ExternCrate(ExternCrateId),
    /// An impl, and whether it is of a trait.
    Impl(ImplId, bool),
    ExternBlock(ExternBlockId),
    UnnamedConst(ConstId),
}

/// Lists a declaration in one of the modules, where it is there.
pub fn list_in(
    modules: &mut Vec<ModuleData>,
    at: usize,
    declaration: Declaration,
) -> Result<(), AllocError>
    ensures ok { OnOk result (modules.new.items
        ≡ changed_at modules.old.items at (with_module_scope (listed declaration))) }
    ensures err { OnErr result (modules.new.items ≡ modules.old.items) }
{
    if at >= modules.len() {
        return Ok(());
    }
    modules[at].list(declaration)
}
