//! Which places asked for which keys.
ghost use Rattle.std.specs.Prelude.{◌≡◌, ◌<◌, ◌&&◌, ◌||◌, ◌∷◌, [], ℕ, nat_eq, length, slice_get, true, false, not, OnOk, OnErr, option_map};
ghost use Rattle.std.specs.BTreeMap.{is_at};
ghost use Rattle.hir_collector_rules.specs.HirIds.declared.ids.MapId.{MapId};
ghost use Rattle.hir_collector_rules.specs.HirIds.contracts.ids.MapIdOrd.TheImpl as map_order;
ghost use Rattle.hir_collector_rules.specs.declared.source_database.Key.{Key};
ghost use Rattle.hir_collector_rules.specs.contracts.source_database.KeyOrd.TheImpl as key_order;
ghost use Rattle.hir_session_state.specs.declared.source_number.SourceNumber.{SourceNumber as Number};
ghost use Rattle.hir_session_state.specs.Askers.{has_asked, has_asked_at, has_place, is_asker, is_first, Enters, IsSame, IsSameBut, Leaves};
ghost use Rattle.hir_session_state.specs.NumberCodes.{number_code};

use crate::source_number::{SourceNumber, asked_number};
use hir_base::ids::MapId;
use hir_collector_rules::collected::Asked;
use hir_collector_rules::source_database::Key;
use hir_tables::Tables;
use std::alloc::{AllocError, Global};
use std::collections::{BTreeMap, BTreeSet};
use std::default::MadeWith;

/// The places whose runs asked for a key. Most keys have one, which takes no memory of its own.
#[derive(Drop)]
pub struct KeyPlaces {
    first: Option<MapId>,
    others: BTreeSet<MapId>,
}

impl MadeWith<Global> for KeyPlaces {
    ghost use Rattle.std.specs.Prelude.{◌≡◌, false};
    ghost use Rattle.hir_collector_rules.specs.HirIds.declared.ids.MapId.{MapId};
    ghost use Rattle.hir_session_state.specs.Askers.{has_place};

    ghost is_made_with = { λ places. (id : MapId) → has_place places id ≡ false };

    fn made_with(alloc: Global) -> KeyPlaces {
        KeyPlaces {
            first: None,
            others: BTreeSet::new(alloc),
        }
    }
}

impl KeyPlaces {
    fn is_first(&self, id: MapId) -> bool
        ensures value { result ≡ is_first self.now.first id }
    {
        match self.first {
            Some(first) => first == id,
            None => false,
        }
    }

    fn add(&mut self, id: MapId) -> Result<(), AllocError>
        ensures ok { OnOk result ((j : MapId) → has_place self.new j ≡ (has_place self.old j || is_at (map_order.ghosts.cmp id) j)) }
        ensures err { OnErr result ((j : MapId) → has_place self.new j ≡ has_place self.old j) }
    {
        if self.first.is_none() {
            self.first = Some(id);
            return Ok(());
        }
        if self.is_first(id) {
            return Ok(());
        }
        self.others.insert(id)?;
        Ok(())
    }

    fn remove(&mut self, id: MapId)
        ensures left { (j : MapId) → has_place self.new j ≡ (has_place self.old j && not (is_at (map_order.ghosts.cmp id) j)) }
    {
        self.others.remove(&id);
        if self.is_first(id) {
            self.first = None;
        }
    }

    fn is_empty(&self) -> bool
        ensures none { result ≡ true → (id : MapId) → has_place self.now id ≡ false }
    {
        self.first.is_none() && self.others.is_empty()
    }

    /// The place that came first, if it is left.
    pub fn first(&self) -> Option<MapId>
        ensures value { result ≡ self.now.first }
    {
        self.first
    }

    /// The places beside it.
    pub fn others(&self) -> &BTreeSet<MapId>
        ensures value { result.now ≡ self.now.others }
    {
        &self.others
    }
}

/// By key, the places whose runs asked for it.
pub type KeyAskers = BTreeMap<Key, KeyPlaces>;

/// By source, and then by key, the places whose kept runs asked for it. A source's keys stand at its number (`SourceNumber::code`).
#[derive(Drop)]
pub struct Askers {
    by_source: Vec<KeyAskers>,
}

fn add_to(keys: &mut KeyAskers, key: Key, id: MapId) -> Result<(), AllocError>
    ensures ok { OnOk result ((k : Key) (j : MapId) → has_asked keys.new k j
        ≡ (has_asked keys.old k j || (is_at (key_order.ghosts.cmp key) k && is_at (map_order.ghosts.cmp id) j))) }
    ensures err { OnErr result ((k : Key) (j : MapId) → has_asked keys.new k j ≡ has_asked keys.old k j) }
{
    let places = keys.entry(key)?.or_default();
    places.add(id)
}

fn remove_from(keys: &mut KeyAskers, key: Key, id: MapId)
    ensures left { (k : Key) (j : MapId) → has_asked keys.new k j
        ≡ (has_asked keys.old k j && not (is_at (key_order.ghosts.cmp key) k && is_at (map_order.ghosts.cmp id) j)) }
{
    let Some(places) = keys.get_mut(&key) else {
        return;
    };
    places.remove(id);
    if places.is_empty() {
        keys.remove(&key);
    }
}

/// Has a list reach a number; what is put behind its end was asked for by nobody.
fn grow_to(list: &mut Vec<KeyAskers>, at: usize) -> Result<(), AllocError>
    ensures same { (n : ℕ) (k : Key) (j : MapId) → has_asked_at list.new.items n k j ≡ has_asked_at list.old.items n k j }
    ensures ok { OnOk result (at < length list.new.items) }
{
    let alloc = *list.allocator();
    while list.len() <= at {
        list.push(BTreeMap::new(alloc))?;
    }
    Ok(())
}

fn add_at(list: &mut Vec<KeyAskers>, at: usize, key: Key, id: MapId) -> Result<(), AllocError>
    ensures ok { OnOk result ((n : ℕ) (k : Key) (j : MapId) → has_asked_at list.new.items n k j
        ≡ (has_asked_at list.old.items n k j || (nat_eq at n && (is_at (key_order.ghosts.cmp key) k && is_at (map_order.ghosts.cmp id) j)))) }
    ensures err { OnErr result ((n : ℕ) (k : Key) (j : MapId) → has_asked_at list.new.items n k j ≡ has_asked_at list.old.items n k j) }
{
    grow_to(list, at)?;
    add_to(&mut list[at], key, id)
}

fn remove_at(list: &mut Vec<KeyAskers>, at: usize, key: Key, id: MapId)
    ensures left { (n : ℕ) (k : Key) (j : MapId) → has_asked_at list.new.items n k j
        ≡ (has_asked_at list.old.items n k j && not (nat_eq at n && (is_at (key_order.ghosts.cmp key) k && is_at (map_order.ghosts.cmp id) j))) }
{
    if let Some(keys) = list.get_mut(at) {
        remove_from(keys, key, id);
    }
}

impl Askers {
    /// None.
    pub fn new(alloc: Global) -> Askers
        ensures none { (number : Number) (key : Key) (id : MapId) → is_asker result number key id ≡ false }
    {
        Askers {
            by_source: Vec::new(alloc),
        }
    }

    /// The keys of a source for which places asked, each with these places.
    pub fn of(&self, number: SourceNumber) -> Option<&KeyAskers>
        ensures value { option_map (λ keys. keys.now) result ≡ slice_get self.now.by_source.items (number_code number) }
    {
        self.by_source.get(number.code())
    }

    fn add(&mut self, number: SourceNumber, key: Key, id: MapId) -> Result<(), AllocError>
        ensures ok { OnOk result ((n : Number) (k : Key) (j : MapId) → is_asker self.new n k j
            ≡ (is_asker self.old n k j
            || (nat_eq (number_code number) (number_code n) && (is_at (key_order.ghosts.cmp key) k && is_at (map_order.ghosts.cmp id) j)))) }
        ensures err { OnErr result (IsSame self.old self.new) }
    {
        add_at(&mut self.by_source, number.code(), key, id)
    }

    fn remove(&mut self, number: SourceNumber, key: Key, id: MapId)
        ensures left { (n : Number) (k : Key) (j : MapId) → is_asker self.new n k j
            ≡ (is_asker self.old n k j
            && not (nat_eq (number_code number) (number_code n) && (is_at (key_order.ghosts.cmp key) k && is_at (map_order.ghosts.cmp id) j))) }
    {
        remove_at(&mut self.by_source, number.code(), key, id);
    }

    fn enter_at(&mut self, tables: &Tables, key: Key, id: MapId) -> Result<(), AllocError>
        ensures ok { OnOk result (Enters tables.now self.old self.new (key ∷ []) id) }
        ensures err { OnErr result (IsSame self.old self.new) }
    {
        match asked_number(tables, key) {
            Some(number) => self.add(number, key, id),
            None => Ok(()),
        }
    }

    fn leave_at(&mut self, tables: &Tables, key: Key, id: MapId)
        ensures left { Leaves tables.now self.old self.new (key ∷ []) id }
    {
        if let Some(number) = asked_number(tables, key) {
            self.remove(number, key, id);
        }
    }

    fn enter_each(&mut self, tables: &Tables, keys: &[Key], id: MapId) -> Result<(), AllocError>
        ensures ok { OnOk result (Enters tables.now self.old self.new keys.now id) }
        ensures others { IsSameBut tables.now self.old self.new keys.now id }
    {
        for key in keys {
            self.enter_at(tables, *key, id)?;
        }
        Ok(())
    }

    fn leave_each(&mut self, tables: &Tables, keys: &[Key], id: MapId)
        ensures left { Leaves tables.now self.old self.new keys.now id }
    {
        for key in keys {
            self.leave_at(tables, *key, id);
        }
    }

    /// Takes a place out of those that asked for the keys for which its run asked.
    pub fn leave(&mut self, tables: &Tables, asked: &Asked, id: MapId)
        ensures left { Leaves tables.now self.old self.new asked.now id }
    {
        self.leave_each(tables, asked.own(), id);
    }

    /// Enters a place, which is entered nowhere yet, among those that asked for the keys for which its run asked.
    pub fn enter(&mut self, tables: &Tables, asked: &Asked, id: MapId) -> Result<(), AllocError>
        requires fresh { (number : Number) (key : Key) → is_asker self.old number key id ≡ false }
        ensures ok { OnOk result (Enters tables.now self.old self.new asked.now id) }
        ensures err { OnErr result (IsSame self.old self.new) }
    {
        let keys = asked.own();
        match self.enter_each(tables, keys, id) {
            Ok(()) => Ok(()),
            Err(refused) => {
                self.leave_each(tables, keys, id);
                Err(refused)
            }
        }
    }
}
