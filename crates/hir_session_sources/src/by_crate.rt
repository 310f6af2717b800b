//! What is stored under crates, by key, so that what a crate has is found without a look at what others have.
ghost use Rattle.std.specs.Prelude.{◌≡◌, filter, not, OnOk, OnErr, option_map, if◌then◌else◌};
ghost use Rattle.std.specs.BTreeMap.{insert_entry, is_at};
ghost use Rattle.std.specs.Map.{lookup, set_value};
ghost use Rattle.hir_session_state.specs.HirIds.declared.ids.Crate.{Crate};
ghost use Rattle.hir_session_state.specs.HirIds.contracts.ids.CrateOrd.TheImpl as crate_order;
ghost use Rattle.hir_session_sources.specs.ByCrate.{entries_under};

use hir_base::ids::Crate;
use std::alloc::{AllocError, Global};
use std::collections::BTreeMap;

/// By crate, what is stored by key.
pub type ByCrate<K, V> = BTreeMap<Crate, BTreeMap<K, V>>;

/// What is stored at a key under a crate.
pub fn get_under<'a, K: Ord, V>(stored: &'a ByCrate<K, V>, krate: Crate, key: &K) -> Option<&'a V>
    ensures value { option_map (λ v. v.now) result ≡ lookup (is_at (K.cmp key.now)) (entries_under stored.now krate) }
{
    match stored.get(&krate) {
        Some(own) => own.get(key),
        None => None,
    }
}

/// Stores a value at a key under a crate.
pub fn insert_under<K: Ord + Drop, V: Drop>(
    stored: &mut ByCrate<K, V>,
    alloc: Global,
    krate: Crate,
    key: K,
    value: V,
) -> Result<(), AllocError>
    ensures ok { OnOk result ((c : Crate) → entries_under stored.new c
        ≡ (if is_at (crate_order.ghosts.cmp krate) c then insert_entry K.cmp (entries_under stored.old c) key value else entries_under stored.old c)) }
    ensures err { OnErr result ((c : Crate) → entries_under stored.new c ≡ entries_under stored.old c) }
{
    match stored.get_mut(&krate) {
        Some(own) => {
            own.insert(key, value)?;
            Ok(())
        }
        None => {
            let mut own = BTreeMap::new(alloc);
            own.insert(key, value)?;
            stored.insert(krate, own)?;
            Ok(())
        }
    }
}

/// Drops what is stored at a key under a crate.
pub fn remove_under<K: Ord + Drop, V: Drop>(stored: &mut ByCrate<K, V>, krate: Crate, key: &K)
    ensures value { (c : Crate) → entries_under stored.new c ≡ (if is_at (crate_order.ghosts.cmp krate) c
        then filter (λ e. not (is_at (K.cmp key.now) e.0)) (entries_under stored.old c) else entries_under stored.old c) }
{
    match stored.get_mut(&krate) {
        Some(own) => {
            own.remove(key);
        }
        None => {}
    }
}

/// Puts a value in place of the one at a key, if there is one. It takes no memory.
pub fn put_at<K: Ord, V: Drop>(own: &mut BTreeMap<K, V>, key: &K, value: V)
    ensures value { own.new.entries ≡ set_value (is_at (K.cmp key.now)) own.old.entries value }
{
    match own.get_mut(key) {
        Some(slot) => *slot = value,
        None => {}
    }
}

/// Puts a value in place of what is stored at a key under a crate, if something is. It takes no memory.
pub fn put_under<K: Ord, V: Drop>(stored: &mut ByCrate<K, V>, krate: Crate, key: &K, value: V)
    ensures value { (c : Crate) → entries_under stored.new c ≡ (if is_at (crate_order.ghosts.cmp krate) c
        then set_value (is_at (K.cmp key.now)) (entries_under stored.old c) value else entries_under stored.old c) }
{
    match stored.get_mut(&krate) {
        Some(own) => put_at(own, key, value),
        None => {}
    }
}
