//! Values that are found by their numbers, and numbers that are found by their values.
ghost use Rattle.std.specs.Prelude.{◌≡◌, ◌↔◌, false, [], slice_get, length, option_copied, OnOk, OnErr, IfOk};
ghost use Rattle.std.specs.List.{IsDistinct, list_any};
ghost use Rattle.hir_base.specs.Locations.{max_locations, with_value, IsNumberOf};

use hir_base::locations::{LocationsError, MAX_LOCATIONS};
use indexmap::IndexSet;
use std::alloc::Global;
use std::hash::Hash;
use std::marker::Model;

/// A table as `Locations`, in which the number of a value can be looked up.
#[derive(Drop)]
pub(crate) struct Interner<V: Eq + Hash> {
    values: IndexSet<V>,
}

impl<V: Eq + Hash> Model for Interner<V> {
    ghost use Rattle.std.specs.Prelude.{List, length, ◌≤◌};
    ghost use Rattle.std.specs.List.{IsDistinct};

    ghost Value = { List V };

    ghost view = { λ t. t.values.keys };

    ghost invariant = { λ t. (length t.values.keys ≤ 2147483647) × IsDistinct V.eq t.values.keys };
}

impl<V: Eq + Hash + Drop> Interner<V> {
    pub fn new(alloc: Global) -> Interner<V>
        ensures value { result ≡ [] }
    {
        Interner {
            values: IndexSet::new(alloc),
        }
    }

    /// The number of a value, which a value that isn't there gets first.
    pub fn intern(&mut self, value: V) -> Result<u32, LocationsError>
        ensures found { IfOk result (λ number. IsNumberOf V.eq self.new value number) }
        ensures ok { OnOk result (self.new ≡ with_value V.eq self.old value) }
        ensures again { (number : _) → IsNumberOf V.eq self.old value number → (result ≡ Ok number) × (self.new ≡ self.old) }
        ensures distinct { IsDistinct V.eq self.new }
        ensures err { OnErr result (self.new ≡ self.old) }
        ensures too_many { (result ≡ Err LocationsError.TooMany)
            ↔ ((length self.old ≡ max_locations) × (list_any (V.eq value) self.old ≡ false)) }
    {
        if let Some(number) = self.values.get_index_of(&value) {
            return Ok(number as u32);
        }
        if self.values.len() >= MAX_LOCATIONS {
            return Err(LocationsError::TooMany);
        }
        let (number, _) = self.values.insert_full(value)?;
        Ok(number as u32)
    }

    /// The value that has this number.
    pub fn get(&self, number: u32) -> Option<&V>
        ensures value { option_copied result ≡ slice_get self.now number }
    {
        self.values.get_index(number as usize)
    }

    /// The number that a value has.
    pub fn number_of(&self, value: &V) -> Option<u32>
        ensures value { (number : _) → (result ≡ Some number) ↔ IsNumberOf V.eq self.now value.now number }
        ensures distinct { IsDistinct V.eq self.now }
    {
        match self.values.get_index_of(value) {
            Some(number) => Some(number as u32),
            None => None,
        }
    }
}
