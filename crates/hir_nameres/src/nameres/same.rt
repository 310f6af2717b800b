//! When two def maps are equal: part by part, and in each list entry by entry, in order.
ghost use Rattle.std.specs.Prelude.{◌≡◌};
ghost use Rattle.hir_def_map_rules.specs.Equality.{same_def_map, same_items, same_macro_use, same_macros, same_prelude, same_preludes, same_reports};

use crate::nameres::DefMap;
use hir_base::ids::{ModuleId, UseId};

fn is_same_prelude(
    prelude: Option<(ModuleId, Option<UseId>)>,
    other: Option<(ModuleId, Option<UseId>)>,
) -> bool
    ensures value { result ≡ same_prelude prelude other }
{
    match (prelude, other) {
        (Some((one, by)), Some((another, other_by))) => one == another && by == other_by,
        (None, None) => true,
        _ => false,
    }
}

impl DefMap {
    fn has_same_items(&self, other: &DefMap) -> bool
        ensures value { result ≡ same_items self.now other.now }
    {
        self.id() == other.id()
            && self.holder == other.holder
            && self.modules.as_slice() == other.modules.as_slice()
            && self.enums == other.enums
    }

    fn has_same_macro_use(&self, other: &DefMap) -> bool
        ensures value { result ≡ same_macro_use self.now other.now }
    {
        self.macro_use_prelude == other.macro_use_prelude
    }

    fn has_same_preludes(&self, other: &DefMap) -> bool
        ensures value { result ≡ same_preludes self.now other.now }
    {
        self.has_same_macro_use(other) && is_same_prelude(self.prelude, other.prelude)
    }

    fn has_same_macros(&self, other: &DefMap) -> bool
        ensures value { result ≡ same_macros self.now other.now }
    {
        self.macro_ids == other.macro_ids
            && self.proc_macros == other.proc_macros
            && self.macro_data == other.macro_data
            && self.derive_helpers == other.derive_helpers
    }

    fn has_same_reports(&self, other: &DefMap) -> bool
        ensures value { result ≡ same_reports self.now other.now }
    {
        self.has_same_macros(other) && self.diagnostics == other.diagnostics
    }
}

impl PartialEq for DefMap {
    ghost use Rattle.std.specs.Cmp.{partial_equiv_from_equiv};
    ghost use Rattle.hir_def_map_rules.specs.Equality.{same_def_map_equiv};

    ghost eq = { same_def_map };

    ghost laws = { partial_equiv_from_equiv same_def_map_equiv };

    /// Whether two maps have the same parts, each list in the same order.
    fn eq(&self, other: &DefMap) -> bool {
        self.has_same_items(other)
            && self.has_same_preludes(other)
            && self.has_same_reports(other)
            && self.crate_data == other.crate_data
    }
}

impl Eq for DefMap {
    ghost use Rattle.hir_def_map_rules.specs.Equality.{same_def_map_equiv};

    ghost laws = { same_def_map_equiv };
}
