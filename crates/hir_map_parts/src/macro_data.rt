//! What is kept of a macro beside its id.

use hir_base::name::Name;
use std::marker::Model;

/// The name of a macro, of a procedural one that under which it is exported, and the names of the attributes that
/// deriving with it brings into scope.
///
/// After rust-analyzer's `exported_derives` and the names of its procedural macros.
#[derive(Drop)]
pub struct MacroData {
    pub name: Name,
    pub helpers: Vec<Name>,
}

impl Model for MacroData {
    ghost use Rattle.hir_map_parts.specs.State.{MacroDataValue};

    ghost Value = { MacroDataValue };

    ghost view = { λ d. record { name = d.name; helpers = d.helpers.items } };
}

impl PartialEq for MacroData {
    ghost use Rattle.std.specs.Cmp.{partial_equiv_from_equiv};
    ghost use Rattle.hir_map_parts.specs.Inner.MacroEquality.{same_macro_data, same_macro_data_equiv};

    ghost eq = { same_macro_data };

    ghost laws = { partial_equiv_from_equiv same_macro_data_equiv };

    fn eq(&self, other: &MacroData) -> bool {
        self.name == other.name && self.helpers == other.helpers
    }
}

impl Eq for MacroData {
    ghost use Rattle.hir_map_parts.specs.Inner.MacroEquality.{same_macro_data_equiv};

    ghost laws = { same_macro_data_equiv };
}
