//! Maps whose entries stand in the order of their keys, in a list with a gap.
ghost use Rattle.std.specs.Prelude.{◌≡◌, ◌<◌, ◌≤◌, [], true, false, None, Some, cond, length, option_copied, IfOk, OnOk, OnErr};
ghost use Rattle.std.specs.BTreeMap.{is_at, insert_entry};
ghost use Rattle.std.specs.List.Sorted.{IsStrictlySortedBy};
ghost use Rattle.std.specs.Map.{keys_of, lookup, remove_entry};
ghost use Rattle.std.specs.Ordering.{is_eq};
ghost use Rattle.std.specs.declared.cmp.Ordering.TheVariants.{Less};
ghost use Rattle.hir_scope_table.specs.Inner.Place.{BelongsAt, ComparesAt, IsAboveFirst};
ghost use Rattle.hir_scope_table.specs.Inner.Reserved.{IsEntryFor};

use crate::gap_list::GapList;
use std::alloc::{AllocError, Global};
use std::cmp::Ordering;
use std::marker::Model;

/// A map whose keys are put in run by run: a key that is put in beside the last one is compared with two others, and moves
/// none.
#[derive(Drop)]
pub struct GapMap<K: Ord, V> {
    entries: GapList<(K, V)>,
}

impl<K: Ord, V> Model for GapMap<K, V> {
    ghost use Rattle.std.specs.Prelude.{List};

    ghost Value = { List (K × V) };

    ghost use Rattle.std.specs.List.Sorted.{IsStrictlySortedBy};
    ghost use Rattle.std.specs.Map.{keys_of};

    ghost view = { λ m. m.entries };

    ghost invariant = { λ m. IsStrictlySortedBy K.cmp (keys_of m.entries) };
}

/// Where a key belongs among entries, and whether it is there.
#[derive(Clone, Copy)]
struct Place {
    at: usize,
    found: bool,
}

/// Where a key belongs that is above all entries before one place, and below the one at another.
fn place_within<K: Ord, V>(entries: &GapList<(K, V)>, key: &K, from: usize, to: usize) -> Place
    requires sorted { IsStrictlySortedBy K.cmp (keys_of entries.now) }
    requires ordered { from ≤ to }
    requires within { to ≤ length entries.now }
    requires above { IsAboveFirst (K.cmp key.now) entries.now from }
    requires below { ComparesAt (K.cmp key.now) entries.now to Less }
    ensures belongs { BelongsAt (K.cmp key.now) entries.now result.at result.found }
{
    let mut at = from;
    let mut left = to - from;
    'halves: while left > 0 {
        let half = left / 2;
        let middle = at + half;
        match key.cmp(&entries.at(middle).0) {
            Ordering::Less => {
                left = half;
            }
            Ordering::Equal => {
                return Place {
                    at: middle,
                    found: true,
                };
            }
            Ordering::Greater => {
                at = middle + 1;
                left = left - half - 1;
            }
        }
    }
    Place { at, found: false }
}

/// Where a key belongs that is above all entries before a place; it is compared with the one there first.
fn place_behind<K: Ord, V>(entries: &GapList<(K, V)>, key: &K, from: usize) -> Place
    requires sorted { IsStrictlySortedBy K.cmp (keys_of entries.now) }
    requires within { from ≤ length entries.now }
    requires above { IsAboveFirst (K.cmp key.now) entries.now from }
    ensures belongs { BelongsAt (K.cmp key.now) entries.now result.at result.found }
{
    if from == entries.len() {
        return Place {
            at: from,
            found: false,
        };
    }
    match key.cmp(&entries.at(from).0) {
        Ordering::Less => Place {
            at: from,
            found: false,
        },
        Ordering::Equal => Place {
            at: from,
            found: true,
        },
        Ordering::Greater => place_within(entries, key, from + 1, entries.len()),
    }
}

/// Where a key belongs among entries in order. It is compared with the one that was put in last first, and then with the one
/// behind that.
fn place_of<K: Ord, V>(entries: &GapList<(K, V)>, key: &K) -> Place
    requires sorted { IsStrictlySortedBy K.cmp (keys_of entries.now) }
    ensures belongs { BelongsAt (K.cmp key.now) entries.now result.at result.found }
{
    let last = entries.last();
    if last >= entries.len() {
        return place_within(entries, key, 0, entries.len());
    }
    match key.cmp(&entries.at(last).0) {
        Ordering::Less => place_within(entries, key, 0, last),
        Ordering::Equal => Place {
            at: last,
            found: true,
        },
        Ordering::Greater => place_behind(entries, key, last + 1),
    }
}

impl<K: Ord, V> GapMap<K, V> {
    /// No entries.
    pub fn new(alloc: Global) -> GapMap<K, V>
        ensures value { result ≡ [] }
    {
        GapMap {
            entries: GapList::new(alloc),
        }
    }

    // The keys ascend.
    pub fn is_ordered(&self)
        ensures ordered { IsStrictlySortedBy K.cmp (keys_of self.now) }
    {
        let _ = &self.entries;
    }

    /// The value of a key, if it has one.
    pub fn get(&self, key: &K) -> Option<&V>
        ensures value { option_copied result ≡ lookup (is_at (K.cmp key.now)) self.now }
    {
        let place = place_of(&self.entries, key);
        if place.found {
            Some(&self.entries.at(place.at).1)
        } else {
            None
        }
    }
}

impl<K: Ord + Drop, V: Drop> GapMap<K, V> {
    /// Adds an entry unless its key is there; says whether it was added.
    pub fn add(&mut self, key: K, value: V) -> Result<bool, AllocError>
        ensures ok { IfOk result (λ added. IsEntryFor K.cmp self.old (Some (key, value)) added self.new) }
        ensures err { OnErr result (self.new ≡ self.old) }
    {
        let place = place_of(&self.entries, &key);
        if place.found {
            return Ok(false);
        }
        self.entries.insert(place.at, (key, value))?;
        Ok(true)
    }

    /// Writes the value of a key, which gets an entry if it has none.
    pub fn insert(&mut self, key: K, value: V) -> Result<(), AllocError>
        ensures ok { OnOk result (self.new ≡ insert_entry K.cmp self.old key value) }
        ensures found { OnOk result ((q : K) → lookup (is_at (K.cmp q)) self.new
            ≡ cond (is_eq (K.cmp key q)) (Some value) (lookup (is_at (K.cmp q)) self.old)) }
        ensures err { OnErr result (self.new ≡ self.old) }
    {
        let place = place_of(&self.entries, &key);
        if place.found {
            self.entries.set_second(place.at, value);
            Ok(())
        } else {
            self.entries.insert(place.at, (key, value))?;
            Ok(())
        }
    }

    /// Takes out a key.
    pub fn remove(&mut self, key: &K)
        ensures value { self.new ≡ remove_entry (is_at (K.cmp key.now)) self.old }
        ensures found { (q : K) → lookup (is_at (K.cmp q)) self.new ≡ cond (is_eq (K.cmp key.now q)) None (lookup (is_at (K.cmp q)) self.old) }
    {
        let place = place_of(&self.entries, key);
        if place.found {
            self.entries.remove(place.at);
        }
    }
}
