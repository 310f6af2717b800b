//! The scope of a module, to be changed.
ghost use Rattle.std.specs.Prelude.{◌≡◌};
ghost use Rattle.std.specs.Borrow.{sem};
ghost use Rattle.hir_def_map_rules.specs.Inner.LentScopes.{LendsScope};

use crate::module_data::ModuleData;
use hir_scope::item_scope::ItemScope;

impl ModuleData {
    /// What its names stand for, to be changed: each write of `ItemScope` can be made on it, and on a module of a map by
    /// `map[id].scope_mut()`. The names that globs brought are kept by the caller.
    pub fn scope_mut(&mut self) -> &mut ItemScope
        ensures value { result.now ≡ self.old.scope }
        ensures* lends { sem 𝓛 (LendsScope self.entry result) }
    {
        &mut self.scope
    }
}
