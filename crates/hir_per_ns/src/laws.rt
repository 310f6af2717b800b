//! Laws of scopes, and of the ids of imports and of items by namespace. The functions do nothing: their contracts are the laws.
ghost use Rattle.hir_ids.specs.Laws.{HashesAlike, OrdersTotally};

use crate::imports::{GlobId, ImportId, ImportOrDef, ImportOrExternCrate, ImportOrGlob};
use crate::item_in_ns::ItemInNs;
use std::hash::Hash;

/// What a type's own laws say of its hash.
fn hashes_alike<T: Eq + Hash>()
    ensures alike { HashesAlike T.eq T.hash_input }
{}

/// What a type's own laws say of its order.
fn orders_totally<T: Ord>()
    ensures total { OrdersTotally T.eq T.cmp }
{}

/// Equal ids of imports, of what they reached, and of items by namespace are hashed alike.
pub fn equal_ids_hash_alike()
    ensures imports { HashesAlike (⟦<ImportId as PartialEq>⟧.eq) (⟦<ImportId as Hash>⟧.hash_input) }
    ensures globs { HashesAlike (⟦<GlobId as PartialEq>⟧.eq) (⟦<GlobId as Hash>⟧.hash_input) }
    ensures of_values { HashesAlike (⟦<ImportOrGlob as PartialEq>⟧.eq) (⟦<ImportOrGlob as Hash>⟧.hash_input) }
    ensures of_items { HashesAlike (⟦<ImportOrExternCrate as PartialEq>⟧.eq) (⟦<ImportOrExternCrate as Hash>⟧.hash_input) }
    ensures reached { HashesAlike (⟦<ImportOrDef as PartialEq>⟧.eq) (⟦<ImportOrDef as Hash>⟧.hash_input) }
    ensures items { HashesAlike (⟦<ItemInNs as PartialEq>⟧.eq) (⟦<ItemInNs as Hash>⟧.hash_input) }
{
    hashes_alike::<ImportId>();
    hashes_alike::<GlobId>();
    hashes_alike::<ImportOrGlob>();
    hashes_alike::<ImportOrExternCrate>();
    hashes_alike::<ImportOrDef>();
    hashes_alike::<ItemInNs>();
}

/// Ids of imports are totally ordered, in accord with their equality.
pub fn import_ids_are_totally_ordered()
    ensures imports { OrdersTotally (⟦<ImportId as PartialEq>⟧.eq) (⟦<ImportId as Ord>⟧.cmp) }
    ensures globs { OrdersTotally (⟦<GlobId as PartialEq>⟧.eq) (⟦<GlobId as Ord>⟧.cmp) }
    ensures of_values { OrdersTotally (⟦<ImportOrGlob as PartialEq>⟧.eq) (⟦<ImportOrGlob as Ord>⟧.cmp) }
    ensures of_items { OrdersTotally (⟦<ImportOrExternCrate as PartialEq>⟧.eq) (⟦<ImportOrExternCrate as Ord>⟧.cmp) }
{
    orders_totally::<ImportId>();
    orders_totally::<GlobId>();
    orders_totally::<ImportOrGlob>();
    orders_totally::<ImportOrExternCrate>();
}
