//! Hiding what a procedural-macro crate doesn't export, after rust-analyzer's `censor_non_proc_macros`.
ghost use Rattle.std.specs.Prelude.{◌≡◌};
ghost use Rattle.hir_scope.specs.Scope.Updates.{censored, censored_item, censored_macro, censored_vis, censored_scope};

use crate::imports::{ImportId, ImportOrExternCrate};
use crate::item_scope::ItemScope;
use crate::per_ns::{Item, MacrosItem, TypesItem, ValuesItem};
use crate::visibility::Visibility;
use hir_ids::ids::{Crate, TraitId};
use hir_ids::macro_kind::MacroId;
use hir_scope_table::entry::Revise;
use indexmap::IndexMap;

/// Restricts each trait to the crate.
fn censor_traits(traits: &mut IndexMap<TraitId, Item<(), ImportId>>, krate: Crate)
    ensures value { traits.new.entries ≡ censored krate traits.old.entries }
{
    traits.retain(|_, item| {
        item.vis = Visibility::PubCrate(krate);
        true
    });
}

/// The visibility of a macro of a procedural-macro crate.
fn censored_vis(
    krate: Crate,
    def: MacroId,
    import: Option<ImportOrExternCrate>,
    vis: Visibility,
) -> Visibility
    ensures value { result ≡ censored_vis krate def import vis }
{
    match (def, import) {
        (MacroId::ProcMacroId(_), None) => vis,
        _ => Visibility::PubCrate(krate),
    }
}

/// Restricts items to a crate, except procedural macros that a scope binds itself.
#[derive(Clone, Copy)]
struct Censor {
    krate: Crate,
}

impl Revise<TypesItem, ValuesItem, MacrosItem> for Censor {
    ghost type_of = { λ c. censored_item c.krate };

    ghost value_of = { λ c. censored_item c.krate };

    ghost macro_of = { λ c. censored_macro c.krate };

    fn revise_type(&self, item: TypesItem) -> TypesItem {
        Item {
            def: item.def,
            vis: Visibility::PubCrate(self.krate),
            import: item.import,
        }
    }

    fn revise_value(&self, item: ValuesItem) -> ValuesItem {
        Item {
            def: item.def,
            vis: Visibility::PubCrate(self.krate),
            import: item.import,
        }
    }

    fn revise_macro(&self, item: MacrosItem) -> MacrosItem {
        Item {
            def: item.def,
            vis: censored_vis(self.krate, item.def, item.import, item.vis),
            import: item.import,
        }
    }
}

impl ItemScope {
    /// Restricts everything to the crate, except procedural macros that it binds itself.
    pub fn censor_non_proc_macros(&mut self, krate: Crate)
        ensures value { self.new ≡ censored_scope krate self.old }
    {
        self.names.revise(&Censor { krate });
        censor_traits(&mut self.unnamed_traits, krate);
    }
}
