//! Scopes of modules, lent to follow imports from one to the next.
ghost use Rattle.std.specs.Prelude.{◌≡◌, Option};
ghost use Rattle.std.specs.Option.{option_copied};
ghost use Rattle.hir_ids.specs.declared.ids.ModuleId.{ModuleId};
ghost use Rattle.hir_scope.specs.Scope.{ScopeValue};

use crate::item_scope::ItemScope;
use hir_ids::ids::ModuleId;

/// The scopes of modules.
pub trait Scopes {
    // the scope of a module, where it is there
    ghost scope_of: { Self → ModuleId → Option ScopeValue };

    fn scope(&self, of: ModuleId) -> Option<&ItemScope>
        ensures value { option_copied result ≡ scope_of self.now of };
}
