//! The sources of a session.
ghost use Rattle.std.specs.Prelude.{◌≡◌, [], None, Some, is_some, IfOk, OnOk, OnErr, option_map};
ghost use Rattle.hir_session_state.specs.HirItemTree.Source.{source_view};
ghost use Rattle.hir_session_state.specs.HirTables.SourcePlaces.{expansion_value, source_value};
ghost use Rattle.hir_session_sources.specs.EditValues.{entry_value};
ghost use Rattle.hir_session_state.specs.Blocks.{blocks_with, place_of_block};
ghost use Rattle.hir_session_state.specs.Entries.{entry_at, with_entry, without_entry};
ghost use Rattle.hir_session_state.specs.Files.{with_file, without_file};
ghost use Rattle.hir_session_state.specs.SourceTable.{source_at};

use crate::blocks::Blocks;
use crate::entries::Entries;
use crate::entry::Entry;
use crate::files::Files;
use crate::seen_entry::source_in;
use hir_base::file_path::FilePath;
use hir_base::macro_kind::ExpansionKey;
use hir_base::place::BlockPlace;
use hir_item_tree::source::Source;
use hir_tables::SourcePlace;
use std::alloc::{AllocError, Global};
use std::marker::Model;

/// The files, the blocks and the expansions that are there.
#[derive(Drop)]
pub struct SourceTable {
    files: Files,
    blocks: Blocks,
    entries: Entries,
}

impl Model for SourceTable {
    ghost use Rattle.hir_session_state.specs.SourceTable.{SourceTable as Table};
    ghost use Rattle.hir_session_state.specs.TableCodes.{coded_table};

    ghost Value = { Table };

    ghost coded = { coded_table };

    ghost view = { λ t. record { files = t.files; blocks = t.blocks; entries = t.entries } };
}

impl SourceTable {
    pub fn new(alloc: Global) -> SourceTable
        ensures value { result ≡ record { files = []; blocks = []; entries = [] } }
    {
        SourceTable {
            files: Files::new(alloc),
            blocks: Blocks::new(alloc),
            entries: Entries::new(alloc),
        }
    }

    pub fn files(&self) -> &Files
        ensures value { result.now ≡ self.now.files }
    {
        &self.files
    }

    pub fn blocks(&self) -> &Blocks
        ensures value { result.now ≡ self.now.blocks }
    {
        &self.blocks
    }

    /// The source at a place, if it is there. The steps to a block take memory.
    pub fn get(&self, place: SourcePlace<'_>) -> Result<Option<&Source>, AllocError>
        ensures value { IfOk result (λ found. option_map (λ s. source_view s.now) found ≡ source_at self.now (source_value place.entry)) }
    {
        match place {
            SourcePlace::File(path) => Ok(self.files.get(path)),
            SourcePlace::Block(place) => self.blocks.at(place),
            SourcePlace::Expansion(key) => Ok(source_in(self.entries.get(key))),
        }
    }

    /// Whether there is a source at a place.
    pub fn has(&self, place: SourcePlace<'_>) -> bool
        ensures value { result ≡ is_some (source_at self.now (source_value place.entry)) }
    {
        match place {
            SourcePlace::File(path) => self.files.get(path).is_some(),
            SourcePlace::Block(place) => self.blocks.has(place),
            SourcePlace::Expansion(key) => self.entries.get(key).is_some(),
        }
    }

    /// An expansion, if it is there.
    pub fn entry(&self, key: &ExpansionKey) -> Option<&Entry>
        ensures value { option_map (λ e. entry_value e.now) result ≡ entry_at self.now.entries (expansion_value key.now) }
    {
        self.entries.get(key)
    }

    /// Sets a file.
    pub fn set_file(&mut self, path: FilePath, source: Source) -> Result<(), AllocError>
        ensures ok { OnOk result (self.new ≡ record self.old { files = with_file self.old.files path (source_view source) }) }
        ensures err { OnErr result (self.new ≡ self.old) }
    {
        self.files.set(path, source)
    }

    /// Removes a file.
    pub fn remove_file(&mut self, path: &FilePath)
        ensures value { self.new ≡ record self.old { files = without_file self.old.files path.now } }
    {
        self.files.remove(path);
    }

    /// Sets a block.
    pub fn set_block(&mut self, place: BlockPlace, source: Source) -> Result<(), AllocError>
        ensures ok { OnOk result (self.new ≡ record self.old { blocks = blocks_with self.old.blocks (place_of_block place) (Some (source_view source)) }) }
        ensures err { OnErr result (self.new ≡ self.old) }
    {
        self.blocks.set(place, source)
    }

    /// Removes a block. The steps to it take memory.
    pub fn remove_block(&mut self, place: &BlockPlace) -> Result<(), AllocError>
        ensures ok { OnOk result (self.new ≡ record self.old { blocks = blocks_with self.old.blocks (place_of_block place.now) None }) }
        ensures err { OnErr result (self.new ≡ self.old) }
    {
        self.blocks.remove(place)
    }

    /// Sets an expansion.
    pub fn set_expansion(&mut self, key: ExpansionKey, entry: Entry) -> Result<(), AllocError>
        ensures ok { OnOk result (self.new
            ≡ record self.old { entries = with_entry self.old.entries (expansion_value key) (entry_value entry) }) }
        ensures err { OnErr result (self.new ≡ self.old) }
    {
        self.entries.set(key, entry)
    }

    /// Removes an expansion.
    pub fn remove_expansion(&mut self, key: &ExpansionKey)
        ensures value { self.new ≡ record self.old { entries = without_entry self.old.entries (expansion_value key.now) } }
    {
        self.entries.remove(key);
    }
}
