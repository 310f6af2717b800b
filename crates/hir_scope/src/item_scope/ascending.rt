//! The names and the imports of a scope ascend, since the keys of its tables do.
ghost use Rattle.std.specs.Cmp.Lexicographic.{slice_cmp};
ghost use Rattle.std.specs.List.Sorted.{IsStrictlySortedBy};
ghost use Rattle.std.specs.Map.{keys_of};
ghost use Rattle.std.specs.Ordering.{nat_cmp};
ghost use Rattle.hir_scope.specs.Scope.Entries.{scope_names, import_order, imports_of_scope};
ghost use Rattle.hir_scope.specs.Laws.{BindingsAscend};

use crate::item_scope::ItemScope;
use std::collections::BTreeMap;

// The keys of a map ascend.
fn keys_ascend<K: Ord, V>(entries: &BTreeMap<K, V>)
    ensures ascends { IsStrictlySortedBy K.cmp (keys_of entries.now.entries) }
{
    let _ = entries.len();
}

impl ItemScope {
    pub(crate) fn names_ascend(&self)
        ensures names { IsStrictlySortedBy (slice_cmp nat_cmp) (scope_names self.now) }
    {
        self.names.is_kept();
    }

    pub(crate) fn bindings_ascend(&self)
        ensures types { BindingsAscend self.now.types }
        ensures values { BindingsAscend self.now.values }
        ensures macros { BindingsAscend self.now.macros }
    {
        self.names.is_kept();
    }

    pub(crate) fn imports_ascend(&self)
        ensures imports { IsStrictlySortedBy import_order (imports_of_scope self.now) }
    {
        keys_ascend(&self.type_records);
        keys_ascend(&self.macro_records);
        keys_ascend(&self.value_records);
    }
}
