//! Entries that are added to maps before anything is written.
ghost use Rattle.std.specs.Prelude.{◌≡◌, true, false, List, Some, OnErr, IfOk};
ghost use Rattle.hir_scope_table.specs.Entries.{with_some_entry};
ghost use Rattle.hir_scope_table.specs.Inner.Reserved.{IsEntryFor};

use std::alloc::AllocError;
use std::collections::BTreeMap;
use std::collections::btree_map::Entry;

/// What was added to the records and to the glob table before a candidate is written.
#[derive(Clone, Copy)]
pub struct Reserved {
    pub(crate) glob: bool,
    pub(crate) source: bool,
}

/// Adds an entry unless its key is there, and says whether it was added.
pub(crate) fn add_entry<K: Ord + Drop, V: Drop>(
    map: &mut BTreeMap<K, V>,
    entry: Option<(K, V)>,
) -> Result<bool, AllocError>
    ensures ok { IfOk result (λ added. IsEntryFor K.cmp map.old.entries entry added map.new.entries) }
    ensures err { OnErr result (map.new.entries ≡ map.old.entries) }
{
    let Some((key, value)) = entry else {
        return Ok(false);
    };
    match map.entry(key)? {
        Entry::Occupied(_place) => Ok(false),
        Entry::Vacant(place) => {
            place.insert(value);
            Ok(true)
        }
    }
}

/// Takes out an entry that was added.
pub(crate) fn remove_entry<K: Ord + Drop, V: Drop>(map: &mut BTreeMap<K, V>, key: &K, added: bool)
    ensures back { (earlier : List (K × V)) (value : V) → IsEntryFor K.cmp earlier (Some (key.now, value)) added map.old.entries
        → map.new.entries ≡ earlier }
    ensures kept { added ≡ false → map.new.entries ≡ map.old.entries }
{
    if added {
        map.remove(key);
    }
}

/// Writes a value at a key that is there.
pub(crate) fn write_entry<K: Ord + Drop, V: Drop>(
    map: &mut BTreeMap<K, V>,
    key: &K,
    value: V,
    added: bool,
)
    ensures written { (earlier : List (K × V)) → IsEntryFor K.cmp earlier (Some (key.now, value)) added map.old.entries
        → map.new.entries ≡ with_some_entry K.cmp earlier (Some (key.now, value)) }
{
    if added {
        return;
    }
    if let Some(place) = map.get_mut(key) {
        *place = value;
    }
}
