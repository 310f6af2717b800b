//! Walks over the modules, traits and macro calls of a scope.
ghost use Rattle.std.specs.Prelude.{◌≡◌, ◌++◌, [], Option, List, map};
ghost use Rattle.std.specs.Iterator.{YieldsFirst, item_count};
ghost use Rattle.std.specs.BTreeMap.{values};
ghost use Rattle.std.specs.Map.{values_of};
ghost use Rattle.hir_scope.specs.Scope.Reads.{modules_among, traits_among, calls_among, calls_of_attributes, calls_of_items};

use crate::imports::{ImportId, ImportOrExternCrate};
use crate::item_scope::ItemScope;
use crate::item_scope::iter::bindings::Bindings;
use crate::item_scope::macro_calls::{DeriveAttribute, DeriveAttributes};
use crate::per_ns::Item;
use crate::visibility::Visibility;
use either::Either;
use hir_ids::ast_id::{AstId, MacroCallId};
use hir_ids::ids::{ModuleDefId, ModuleId, TraitId};
use hir_ids::macro_kind::BuiltinDeriveImplId;
use std::marker::Model;

/// The modules of a scope by name; see `ItemScope::modules_in_scope`.
#[derive(Drop)]
pub struct ModulesInScope<'a> {
    left: Bindings<'a, ModuleDefId, ImportOrExternCrate>,
}

impl<'a> Model for ModulesInScope<'a> {
    ghost use Rattle.std.specs.Prelude.{List};
    ghost use Rattle.hir_ids.specs.declared.ids.ModuleId.{ModuleId};
    ghost use Rattle.hir_per_ns.specs.declared.visibility.Visibility.{Visibility};
    ghost use Rattle.std.specs.Map.{values_of};
    ghost use Rattle.hir_scope.specs.Scope.Reads.{modules_among};

    ghost Value = { List (ModuleId × Visibility) };

    ghost view = { λ walk. modules_among (values_of walk.left) };
}

/// The traits of a scope; see `ItemScope::traits`.
#[derive(Drop)]
pub struct Traits<'a> {
    bound: Bindings<'a, ModuleDefId, ImportOrExternCrate>,
    unnamed: indexmap::map::Keys<'a, TraitId, Item<(), ImportId>>,
}

impl<'a> Model for Traits<'a> {
    ghost use Rattle.std.specs.Prelude.{List, ◌++◌};
    ghost use Rattle.hir_ids.specs.declared.ids.TraitId.{TraitId};
    ghost use Rattle.std.specs.Map.{values_of};
    ghost use Rattle.hir_scope.specs.Scope.Reads.{traits_among};

    ghost Value = { List TraitId };

    ghost view = { λ walk. traits_among (values_of walk.bound) ++ walk.unnamed };
}

impl ItemScope {
    /// The modules that are bound as types, by name, each with its visibility here.
    pub fn modules_in_scope(&self) -> ModulesInScope<'_>
        ensures value { result ≡ modules_among (values_of self.now.types) }
    {
        ModulesInScope { left: self.types() }
    }

    /// The traits that are bound by name, and then those that are imported without a name.
    pub fn traits(&self) -> Traits<'_>
        ensures value { result ≡ traits_among (values_of self.now.types) ++ map (λ entry. entry.0) self.now.unnamed_traits }
    {
        Traits {
            bound: self.types(),
            unnamed: self.unnamed_traits.keys(),
        }
    }

    /// The traits that are imported without a name, each with its visibility and what brought it.
    pub fn unnamed_traits(&self) -> indexmap::map::Iter<'_, TraitId, Item<(), ImportId>>
        ensures value { result ≡ self.now.unnamed_traits }
    {
        self.unnamed_traits.iter()
    }
}

impl<'a> Iterator for ModulesInScope<'a> {
    type Item = (ModuleId, Visibility);

    ghost next_gives = { YieldsFirst (λ (left : List _). left) };

    ghost remaining = { item_count (λ (left : List _). left) };

    fn next(&mut self) -> Option<(ModuleId, Visibility)> {
        'next: while let Some((_, item)) = self.left.next() {
            if let ModuleDefId::ModuleId(id) = item.def {
                return Some((id, item.vis));
            }
        }
        None
    }
}

impl<'a> Iterator for Traits<'a> {
    type Item = TraitId;

    ghost next_gives = { YieldsFirst (λ (left : List _). left) };

    ghost remaining = { item_count (λ (left : List _). left) };

    fn next(&mut self) -> Option<TraitId> {
        'next: while let Some((_, item)) = self.bound.next() {
            if let ModuleDefId::TraitId(id) = item.def {
                return Some(id);
            }
        }
        self.unnamed.next().copied()
    }
}
