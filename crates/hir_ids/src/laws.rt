//! What equality, order and hash of each plain value keep. The functions do nothing: their contracts are the laws, at
//! the type that they are called with: a name, a path, a place, an id or a number.
ghost use Rattle.hir_ids.specs.Laws.{HashesAlike, OrdersTotally};

use std::hash::Hash;

/// Equal values are hashed alike.
pub fn equal_values_hash_alike<T: Eq + Hash>()
    ensures law { HashesAlike T.eq T.hash_input }
{}

/// Values are totally ordered, in accord with their equality.
pub fn values_are_totally_ordered<T: Ord>()
    ensures law { OrdersTotally T.eq T.cmp }
{}
