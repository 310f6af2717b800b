//! Tables that give each value a number for good.
ghost use Rattle.std.specs.Prelude.{◌≡◌, [], slice_get, length, option_copied, OnOk, OnErr, IfOk, IsErrOf};
ghost use Rattle.std.specs.List.{IsDistinct};
ghost use Rattle.hir_base.specs.declared.locations.LocationsError.TheVariants.{Memory};
ghost use Rattle.hir_ids.specs.Refusal.{Gives};
ghost use Rattle.hir_base.specs.Locations.{IsMemory, number_given, with_value, NeedsRoom, KeepsNumbers, IsNumberOf};

use indexmap::IndexSet;
use std::alloc::{AllocFailed, Global};
use std::hash::Hash;
use std::marker::Model;
use thiserror::Error;

/// The most values of a table.
pub const MAX_LOCATIONS: usize = 2147483647;

/// Why a table takes no value, in the order in which it is looked for.
#[derive(Clone, Copy, Debug, PartialEq, Eq, Error)]
pub enum LocationsError {
    /// The table has `MAX_LOCATIONS` values, and this is none of them.
    #[error("more than {MAX_LOCATIONS} values")]
    TooMany,
    #[error("out of memory")]
    Memory,
}

impl<T: Drop> From<AllocFailed<T>> for LocationsError {
    ghost from_gives = { λ _ e. e ≡ Memory };

    fn from(_: AllocFailed<T>) -> Self {
        LocationsError::Memory
    }
}

/// Values, each of which has a number. A value that is put in again gets the number that it has, so a number means
/// one value for good.
#[derive(Drop)]
pub struct Locations<V: Eq + Hash> {
    values: IndexSet<V>,
}

impl<V: Eq + Hash> Model for Locations<V> {
    ghost use Rattle.std.specs.Prelude.{List, length, ◌≤◌};

    ghost Value = { List V };

    ghost view = { λ t. t.values.keys };

    ghost invariant = { λ t. length t.values.keys ≤ 2147483647 };
}

impl<V: Eq + Hash + Drop> Locations<V> {
    /// A table without values.
    pub fn new(alloc: Global) -> Locations<V>
        ensures value { result ≡ [] }
    {
        Locations {
            values: IndexSet::new(alloc),
        }
    }

    #[tactic(auto, using(crate::proofs::NumberLemmas::stored_at, crate::proofs::NumberLemmas::kept_by_append))]
    /// The number of a value, which a value that isn't there gets first.
    pub fn intern(&mut self, value: V) -> Result<u32, LocationsError>
        ensures answer { Gives IsMemory result (number_given V.eq self.old value) }
        ensures ok { OnOk result (self.new ≡ with_value V.eq self.old value) }

        // A number means one value for good.
        ensures kept { KeepsNumbers self.old self.new }
        ensures found { IfOk result (λ number. IsNumberOf V.eq self.new value number) }
        ensures err { OnErr result (self.new ≡ self.old) }
        ensures room { IsErrOf result LocationsError.Memory → NeedsRoom V.eq self.old value }
    {
        if let Some(number) = self.values.get_index_of(&value) {
            return Ok(number as u32);
        }
        if self.values.len() >= MAX_LOCATIONS {
            return Err(LocationsError::TooMany);
        }
        let (number, _) = self.values.insert_full(value)?;
        Ok(number as u32)
    }

    /// The value that has this number.
    pub fn get(&self, number: u32) -> Option<&V>
        ensures value { option_copied result ≡ slice_get self.now number }
    {
        self.values.get_index(number as usize)
    }

    /// How many values have numbers: all below it.
    pub fn len(&self) -> usize
        ensures value { result ≡ length self.now }
        ensures distinct { IsDistinct V.eq self.now }
    {
        self.values.len()
    }
}
