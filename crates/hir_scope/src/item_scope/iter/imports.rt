//! The imports of a scope, in order.
ghost use Rattle.std.specs.Prelude.{◌≡◌, List};
ghost use Rattle.std.specs.Iterator.{YieldsFirst, YieldsFirstRef, item_count};
ghost use Rattle.hir_scope.specs.Scope.Entries.{imports_among, value_imports_among, imports_of_scope};

use crate::imports::{ImportId, ImportOrDef, ImportOrExternCrate, ImportOrGlob};
use crate::item_scope::ItemScope;
use hir_scope_table::merge_sorted::{MergeSorted, SortedWalk};
use std::collections::btree_map;
use std::marker::Model;

/// The imports that have a record as types, or as macros.
#[derive(Drop)]
struct ItemImports<'a> {
    left: btree_map::Keys<'a, ImportOrExternCrate, ImportOrDef>,
}

impl<'a> SortedWalk<'a, ImportId> for ItemImports<'a> {
    ghost left = { λ walk. imports_among walk.left };

    fn advance(&mut self) -> Option<&'a ImportId> {
        'next: while let Some(key) = self.left.next() {
            if let ImportOrExternCrate::Import(import) = key {
                return Some(import);
            }
        }
        None
    }
}

/// The imports that have a record as values.
#[derive(Drop)]
struct ValueImports<'a> {
    left: btree_map::Keys<'a, ImportOrGlob, ImportOrDef>,
}

impl<'a> SortedWalk<'a, ImportId> for ValueImports<'a> {
    ghost left = { λ walk. value_imports_among walk.left };

    fn advance(&mut self) -> Option<&'a ImportId> {
        'next: while let Some(key) = self.left.next() {
            if let ImportOrGlob::Import(import) = key {
                return Some(import);
            }
        }
        None
    }
}

/// The imports that have a record as types or as macros.
type TypesAndMacros<'a> = MergeSorted<'a, ImportId, ItemImports<'a>, ItemImports<'a>>;

/// Imports in order; see `ItemScope::imports`.
#[derive(Drop)]
pub struct Imports<'a> {
    imports: MergeSorted<'a, ImportId, TypesAndMacros<'a>, ValueImports<'a>>,
}

impl<'a> Model for Imports<'a> {
    ghost use Rattle.std.specs.Prelude.{List};
    ghost use Rattle.hir_per_ns.specs.declared.imports.ImportId.{ImportId};

    ghost Value = { List ImportId };

    ghost view = { λ walk. ⟦<MergeSorted<'static, ImportId, TypesAndMacros<'static>, ValueImports<'static>> as SortedWalk<'static, ImportId>>⟧.left walk.imports };
}

impl ItemScope {
    /// The imports of one name that have a record in some namespace, in order.
    #[tactic(auto, unfolding(crate::specs::Scope::Entries::import_order))]
    pub fn imports(&self) -> Imports<'_>
        ensures value { result ≡ imports_of_scope self.now }
    {
        let types = ItemImports {
            left: self.type_records.keys(),
        };
        let macros = ItemImports {
            left: self.macro_records.keys(),
        };
        let values = ValueImports {
            left: self.value_records.keys(),
        };
        Imports {
            imports: MergeSorted::new(MergeSorted::new(types, macros), values),
        }
    }
}

impl<'a> Iterator for Imports<'a> {
    type Item = ImportId;

    ghost next_gives = { YieldsFirst (λ (left : List _). left) };

    ghost remaining = { item_count (λ (left : List _). left) };

    fn next(&mut self) -> Option<ImportId> {
        self.imports.advance().copied()
    }
}
