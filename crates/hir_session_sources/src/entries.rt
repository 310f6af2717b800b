//! The expansions of a session.
ghost use Rattle.std.specs.Prelude.{◌≡◌, [], OnOk, OnErr, option_map};
ghost use Rattle.hir_session_state.specs.HirTables.SourcePlaces.{expansion_value};
ghost use Rattle.hir_session_sources.specs.EditValues.{entry_value};
ghost use Rattle.hir_session_state.specs.Entries.{entry_at, with_entry, without_entry};

use crate::entry::Entry;
use hir_base::macro_kind::ExpansionKey;
use std::alloc::{AllocError, Global};
use std::collections::BTreeMap;
use std::marker::Model;

/// An expansion, as it was handed in.
#[derive(Drop)]
struct Stored {
    entry: Entry,
}

impl Model for Stored {
    ghost use Rattle.hir_session_state.specs.HirMessages.Edits.{EntryValue};
    ghost use Rattle.hir_session_sources.specs.EditValues.{entry_value};
    ghost use Rattle.hir_session_state.specs.TableCodes.{coded_entry};

    ghost Value = { EntryValue };

    ghost coded = { coded_entry };

    ghost view = { λ e. entry_value e.entry };
}

/// The expansions that are there, by what they depend on.
#[derive(Drop)]
pub struct Entries {
    by_key: BTreeMap<ExpansionKey, Stored>,
}

impl Model for Entries {
    ghost use Rattle.hir_session_state.specs.Entries.{Entries as EntryList, by_value};
    ghost use Rattle.hir_session_state.specs.TableCodes.{coded_entries};

    ghost Value = { EntryList };

    ghost coded = { coded_entries };

    ghost view = { λ e. by_value e.by_key.entries };
}

impl Stored {
    fn entry(&self) -> &Entry
        ensures value { entry_value result.now ≡ self.now }
    {
        &self.entry
    }
}

impl Entries {
    pub(crate) fn new(alloc: Global) -> Entries
        ensures value { result ≡ [] }
    {
        Entries {
            by_key: BTreeMap::new(alloc),
        }
    }

    /// An expansion, if it is there.
    pub fn get(&self, key: &ExpansionKey) -> Option<&Entry>
        ensures value { option_map (λ e. entry_value e.now) result ≡ entry_at self.now (expansion_value key.now) }
    {
        match self.by_key.get(key) {
            Some(entry) => Some(entry.entry()),
            None => None,
        }
    }

    /// Sets an expansion.
    pub(crate) fn set(&mut self, key: ExpansionKey, entry: Entry) -> Result<(), AllocError>
        ensures ok { OnOk result (self.new ≡ with_entry self.old (expansion_value key) (entry_value entry)) }
        ensures err { OnErr result (self.new ≡ self.old) }
    {
        self.by_key.insert(key, Stored { entry })?;
        Ok(())
    }

    /// Removes an expansion.
    pub(crate) fn remove(&mut self, key: &ExpansionKey)
        ensures value { self.new ≡ without_entry self.old (expansion_value key.now) }
    {
        self.by_key.remove(key);
    }
}
