//! An item of one namespace, after rust-analyzer's `ItemInNs`.
ghost use Rattle.std.specs.Prelude.{◌≡◌};
ghost use Rattle.hir_per_ns.specs.PerNs.{def_of_item, module_of_item, crate_of_item};

use hir_ids::ids::{Crate, HasModule, ModuleDefId, ModuleId};
use hir_ids::macro_kind::MacroId;

/// An item, by the namespace that it stands in.
#[derive(Clone, Copy, Debug, PartialEq, Eq, Hash)]
pub enum ItemInNs {
    Types(ModuleDefId),
    Values(ModuleDefId),
    Macros(MacroId),
}

impl ItemInNs {
    /// The definition of a type or value; None for a macro.
    pub fn as_module_def_id(self) -> Option<ModuleDefId>
        ensures value { result ≡ def_of_item self }
    {
        match self {
            ItemInNs::Types(id) | ItemInNs::Values(id) => Some(id),
            ItemInNs::Macros(_) => None,
        }
    }

    /// The crate in which the item is defined; None for a builtin type.
    pub fn krate(&self) -> Option<Crate>
        ensures value { result ≡ crate_of_item self.now }
    {
        match self.module() {
            Some(holder) => Some(holder.krate()),
            None => None,
        }
    }

    /// The module in which the item is defined; None for a builtin type.
    pub fn module(&self) -> Option<ModuleId>
        ensures value { result ≡ module_of_item self.now }
    {
        match *self {
            ItemInNs::Types(id) | ItemInNs::Values(id) => id.module(),
            ItemInNs::Macros(id) => Some(id.module()),
        }
    }
}
