//! The modules of a map that a file holds, by their ids.
ghost use Rattle.std.specs.Prelude.{◌≡◌, List, Option};
ghost use Rattle.std.specs.Iterator.{YieldsFirst, item_count};
ghost use Rattle.hir_nameres.specs.ModuleIds.{ids_held, is_expansion, is_file, is_held, is_inline_in};
ghost use Rattle.hir_nameres.specs.declared.nameres.module_ids.WantedFile.TheVariants.{Expansion, Own};

use crate::nameres::DefMap;
use hir_base::ast_id::{EditionedFileId, FileId, HirFileId, MacroCallId};
use hir_base::ids::{MapId, ModuleId};
use hir_def_map_rules::module_data::ModuleData;
use hir_def_map_rules::origin::ModuleOrigin;
use std::marker::Model;

/// The file that holds the modules which are asked for.
#[derive(Clone, Copy)]
pub(crate) enum WantedFile {
    /// Modules that have this file to themselves.
    Own(FileId),
    /// Modules with their contents beside their `mod` item, in what this call expands to.
    Expansion(MacroCallId),
}

fn is_file(file: FileId, own: Option<EditionedFileId>) -> bool
    ensures value { result ≡ is_file file own }
{
    match own {
        Some(own) => own.file_id == file,
        None => false,
    }
}

fn is_expansion(call: MacroCallId, file: HirFileId) -> bool
    ensures value { result ≡ is_expansion call file }
{
    match file {
        HirFileId::File(_) => false,
        HirFileId::Macro(other) => other == call,
    }
}

fn is_inline_in(call: MacroCallId, origin: ModuleOrigin) -> bool
    ensures value { result ≡ is_inline_in call origin }
{
    match origin {
        ModuleOrigin::Inline {
            definition_tree_id,
            ..
        } => is_expansion(call, definition_tree_id.file_id()),
        ModuleOrigin::CrateRoot { .. }
        | ModuleOrigin::File { .. }
        | ModuleOrigin::BlockExpr { .. } => false,
    }
}

impl WantedFile {
    fn holds(self, origin: ModuleOrigin) -> bool
        ensures value { result ≡ is_held self origin }
    {
        match self {
            WantedFile::Own(file) => is_file(file, origin.file_id()),
            WantedFile::Expansion(call) => is_inline_in(call, origin),
        }
    }
}

/// The modules that a file holds, by number; see `DefMap::modules_for_file`.
#[derive(Drop)]
pub struct ModuleIds<'a> {
    wanted: WantedFile,
    map: MapId,
    /// The number of the first module that is left.
    index: u32,
    left: &'a [ModuleData],
}

impl<'a> Model for ModuleIds<'a> {
    ghost use Rattle.std.specs.Prelude.{List, length, ◌+◌, ◌<◌, ◌^◌};
    ghost use Rattle.hir_def_map_rules.specs.HirIds.declared.ids.ModuleId.{ModuleId};
    ghost use Rattle.hir_nameres.specs.ModuleIds.{ids_held};

    ghost Value = { List ModuleId };

    ghost view = { λ walk. ids_held walk.wanted walk.map walk.index walk.left.now };

    ghost invariant = { λ walk. walk.index + length walk.left.now < 2 ^ 32 };
}

impl DefMap {
    /// The modules that have a file to themselves: the root in its file, others each in one of their own.
    pub fn modules_for_file(&self, file: FileId) -> ModuleIds<'_>
        ensures value { result ≡ ids_held (Own file) self.now.id 0 self.now.modules }
    {
        ModuleIds {
            wanted: WantedFile::Own(file),
            map: self.id(),
            index: 0,
            left: self.modules.as_slice(),
        }
    }

    /// The modules that the expansion of a macro call has with their contents beside their `mod` items.
    pub fn inline_modules_for_macro_file(&self, call: MacroCallId) -> ModuleIds<'_>
        ensures value { result ≡ ids_held (Expansion call) self.now.id 0 self.now.modules }
    {
        ModuleIds {
            wanted: WantedFile::Expansion(call),
            map: self.id(),
            index: 0,
            left: self.modules.as_slice(),
        }
    }
}

impl<'a> Iterator for ModuleIds<'a> {
    type Item = ModuleId;

    ghost next_gives = { YieldsFirst (λ (left : List _). left) };

    ghost remaining = { item_count (λ (left : List _). left) };

    fn next(&mut self) -> Option<ModuleId> {
        'next: while let [module, others @ ..] = self.left {
            let id = ModuleId {
                map: self.map,
                index: self.index,
            };
            self.left = others;
            self.index += 1;
            if self.wanted.holds(module.origin()) {
                return Some(id);
            }
        }
        None
    }
}
