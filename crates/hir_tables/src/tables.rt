//! The tables of files, blocks, expansions and macro calls.
ghost use Rattle.std.specs.Prelude.{◌≡◌, ◌↔◌, [], OnOk, OnErr, IfOk, option_map, option_copied};
ghost use Rattle.hir_ids.specs.declared.ast_id.BlockId.{BlockId};
ghost use Rattle.hir_ids.specs.declared.ast_id.EntryId.{EntryId};
ghost use Rattle.hir_ids.specs.declared.ast_id.FileId.{FileId};
ghost use Rattle.hir_ids.specs.declared.ast_id.MacroCallId.{MacroCallId};
ghost use Rattle.hir_tables.specs.Interning.{Interns, IsFull};
ghost use Rattle.hir_tables.specs.SourcePlaces.{expansion_value, source_value};
ghost use Rattle.hir_tables.specs.Tables.{file_at, block_at, entry_at, call_at, expansion_of, file_source, source_of, KeepsTables, HasEachOnce};

use crate::interner::Interner;
use crate::source_place::SourcePlace;
use hir_base::ast_id::{BlockId, EntryId, FileId, HirFileId, MacroCallId};
use hir_base::file_path::FilePath;
use hir_base::locations::LocationsError;
use hir_base::macro_kind::{ExpansionKey, MacroCallLoc};
use hir_base::place::BlockPlace;
use hir_base::tree_id::TreeId;
use std::alloc::Global;
use std::marker::Model;

/// Which file, block, expansion and macro call a number stands for. A value that is put in again gets the number that
/// it has.
pub struct Tables {
    files: Interner<FilePath>,
    blocks: Interner<BlockPlace>,
    entries: Interner<ExpansionKey>,
    calls: Interner<MacroCallLoc>,
}

impl Drop for Tables {
    fn drop(self) {
        let Tables {
            files: _,
            blocks: _,
            entries: _,
            calls: _,
        } = self;
    }
}

impl Model for Tables {
    ghost use Rattle.hir_tables.specs.Tables.{TablesValue, tables_value, HasEachOnce};

    ghost Value = { TablesValue };

    ghost view = { λ t. tables_value t.files t.blocks t.entries t.calls };

    ghost invariant = { λ t. HasEachOnce (tables_value t.files t.blocks t.entries t.calls) };
}

impl Tables {
    /// Tables without values.
    pub fn new(alloc: Global) -> Tables
        ensures value { result ≡ record { files = []; blocks = []; entries = []; calls = [] } }
    {
        Tables {
            files: Interner::new(alloc),
            blocks: Interner::new(alloc),
            entries: Interner::new(alloc),
            calls: Interner::new(alloc),
        }
    }

    /// The number of a file's path.
    pub fn intern_file(&mut self, path: FilePath) -> Result<FileId, LocationsError>
        ensures found { IfOk result (λ id. file_at self.new id ≡ Some path) }
        ensures again { (id : FileId) → file_at self.old id ≡ Some path → (result ≡ Ok id) × (self.new ≡ self.old) }
        ensures grown { OnOk result (Interns self.old.files self.new.files path) }
        ensures others { self.new ≡ record self.old { files = self.new.files } }
        ensures kept { KeepsTables self.old self.new }
        ensures err { OnErr result (self.new ≡ self.old) }
        ensures too_many { (result ≡ Err LocationsError.TooMany) ↔ IsFull self.old.files path }
    {
        match self.files.intern(path) {
            Ok(number) => Ok(FileId(number)),
            Err(error) => Err(error),
        }
    }

    /// The number of a block.
    pub fn intern_block(&mut self, place: BlockPlace) -> Result<BlockId, LocationsError>
        ensures found { IfOk result (λ id. block_at self.new id ≡ Some place) }
        ensures again { (id : BlockId) → block_at self.old id ≡ Some place → (result ≡ Ok id) × (self.new ≡ self.old) }
        ensures grown { OnOk result (Interns self.old.blocks self.new.blocks place) }
        ensures others { self.new ≡ record self.old { blocks = self.new.blocks } }
        ensures kept { KeepsTables self.old self.new }
        ensures err { OnErr result (self.new ≡ self.old) }
        ensures too_many { (result ≡ Err LocationsError.TooMany) ↔ IsFull self.old.blocks place }
    {
        match self.blocks.intern(place) {
            Ok(number) => Ok(BlockId(number)),
            Err(error) => Err(error),
        }
    }

    /// The number of an expansion.
    pub fn intern_entry(&mut self, key: ExpansionKey) -> Result<EntryId, LocationsError>
        ensures found { IfOk result (λ id. entry_at self.new id ≡ Some (expansion_value key)) }
        ensures again { (id : EntryId) → entry_at self.old id ≡ Some (expansion_value key)
            → (result ≡ Ok id) × (self.new ≡ self.old) }
        ensures grown { OnOk result (Interns self.old.entries self.new.entries (expansion_value key)) }
        ensures others { self.new ≡ record self.old { entries = self.new.entries } }
        ensures kept { KeepsTables self.old self.new }
        ensures err { OnErr result (self.new ≡ self.old) }
        ensures too_many { (result ≡ Err LocationsError.TooMany) ↔ IsFull self.old.entries (expansion_value key) }
    {
        match self.entries.intern(key) {
            Ok(number) => Ok(EntryId(number)),
            Err(error) => Err(error),
        }
    }

    /// The number of a macro call.
    pub fn intern_call(&mut self, loc: MacroCallLoc) -> Result<MacroCallId, LocationsError>
        ensures found { IfOk result (λ id. call_at self.new id ≡ Some loc) }
        ensures again { (id : MacroCallId) → call_at self.old id ≡ Some loc → (result ≡ Ok id) × (self.new ≡ self.old) }
        ensures grown { OnOk result (Interns self.old.calls self.new.calls loc) }
        ensures others { self.new ≡ record self.old { calls = self.new.calls } }
        ensures kept { KeepsTables self.old self.new }
        ensures err { OnErr result (self.new ≡ self.old) }
        ensures too_many { (result ≡ Err LocationsError.TooMany) ↔ IsFull self.old.calls loc }
    {
        match self.calls.intern(loc) {
            Ok(number) => Ok(MacroCallId(number)),
            Err(error) => Err(error),
        }
    }

    /// The path of a file.
    pub fn file(&self, id: FileId) -> Option<&FilePath>
        ensures value { option_copied result ≡ file_at self.now id }
    {
        self.files.get(id.0)
    }

    /// The place of a block.
    pub fn block(&self, id: BlockId) -> Option<&BlockPlace>
        ensures value { option_copied result ≡ block_at self.now id }
    {
        self.blocks.get(id.0)
    }

    /// What an expansion depends on.
    pub fn entry(&self, id: EntryId) -> Option<&ExpansionKey>
        ensures value { option_map (λ key. expansion_value key.now) result ≡ entry_at self.now id }
    {
        self.entries.get(id.0)
    }

    /// A macro call.
    pub fn call(&self, id: MacroCallId) -> Option<&MacroCallLoc>
        ensures value { option_copied result ≡ call_at self.now id }
    {
        self.calls.get(id.0)
    }

    /// The number that a file's path has.
    pub fn file_number(&self, path: &FilePath) -> Option<FileId>
        ensures value { (id : FileId) → (result ≡ Some id) ↔ (file_at self.now id ≡ Some path.now) }
        ensures once { HasEachOnce self.now }
    {
        match self.files.number_of(path) {
            Some(number) => Some(FileId(number)),
            None => None,
        }
    }

    /// The number that a block has.
    pub fn block_number(&self, place: &BlockPlace) -> Option<BlockId>
        ensures value { (id : BlockId) → (result ≡ Some id) ↔ (block_at self.now id ≡ Some place.now) }
        ensures once { HasEachOnce self.now }
    {
        match self.blocks.number_of(place) {
            Some(number) => Some(BlockId(number)),
            None => None,
        }
    }

    /// The number that an expansion has.
    pub fn entry_number(&self, key: &ExpansionKey) -> Option<EntryId>
        ensures value { (id : EntryId) → (result ≡ Some id) ↔ (entry_at self.now id ≡ Some (expansion_value key.now)) }
        ensures once { HasEachOnce self.now }
    {
        match self.entries.number_of(key) {
            Some(number) => Some(EntryId(number)),
            None => None,
        }
    }

    /// Where a file, or what a call expands to, stands.
    fn file_source(&self, file: HirFileId) -> Option<SourcePlace<'_>>
        ensures value { option_map source_value result ≡ file_source self.now file }
    {
        match file {
            HirFileId::File(file) => match self.file(file.file_id) {
                Some(path) => Some(SourcePlace::File(path)),
                None => None,
            },
            HirFileId::Macro(call) => match self.expansion(call) {
                Some(key) => Some(SourcePlace::Expansion(key)),
                None => None,
            },
        }
    }

    /// What the expansion of a call depends on.
    fn expansion(&self, call: MacroCallId) -> Option<&ExpansionKey>
        ensures value { option_map (λ key. expansion_value key.now) result ≡ expansion_of self.now call }
    {
        match self.call(call) {
            Some(loc) => self.entry(loc.entry),
            None => None,
        }
    }

    /// Where a tree's source stands.
    pub fn source_of(&self, id: TreeId) -> Option<SourcePlace<'_>>
        ensures value { option_map source_value result ≡ source_of self.now id }
        ensures once { HasEachOnce self.now }
    {
        let _ = &self.files;
        match id.block {
            Some(block) => match self.block(block) {
                Some(place) => Some(SourcePlace::Block(place)),
                None => None,
            },
            None => self.file_source(id.file),
        }
    }
}
