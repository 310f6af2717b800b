//! What all tests stand on: ids, imports and pushes of a small crate. What pushes bind and how a scope prints are rows of
//! `hir_def_map_rows`.
mod bindings;
mod import_chains;
mod many_names;
mod per_ns;
mod small_tree;
mod tables;
mod visibility;

use hir_base::ast_id::{EditionedFileId, FileId, HirFileId, SyntaxId};
use hir_base::edition::Edition;
use hir_base::ids::{
    AdtId, Crate, ExternCrateId, FunctionId, ItemContainerId, ItemLoc, MapId, ModuleDefId,
    ModuleId, StructId, TraitId, UseId,
};
use hir_base::macro_kind::{MacroCallStyles, MacroExpander, MacroId, MacroLoc, MacroRulesId};
use hir_base::name::Name;
use hir_scope::glob_imports::PerNsGlobImports;
use hir_scope::imports::{ImportId, ImportOrExternCrate};
use hir_scope::item_scope::ItemScope;
use hir_scope::per_ns::PerNs;
use hir_scope::visibility::Visibility;
use std::alloc::Global;
use std::process::Abort;
use std::test::Fail;

const MAP: MapId = MapId {
    krate: Crate(0),
    block: None,
};

const FILE: HirFileId = HirFileId::File(EditionedFileId {
    file_id: FileId(0),
    edition: Edition::Edition2021,
});

fn module(index: u32) -> ModuleId {
    ModuleId { map: MAP, index }
}

fn node(number: u16) -> SyntaxId {
    SyntaxId {
        hash: number,
        index: 0,
    }
}

fn adt(number: u16) -> AdtId {
    AdtId::StructId(StructId {
        loc: ItemLoc {
            container: module(0),
            file_id: FILE,
            block: None,
            id: node(number),
        },
    })
}

fn structure(number: u16) -> ModuleDefId {
    ModuleDefId::AdtId(adt(number))
}

fn trait_of(number: u16) -> TraitId {
    TraitId {
        loc: use_item(0, number).loc,
    }
}

fn function(number: u16) -> ModuleDefId {
    ModuleDefId::FunctionId(FunctionId {
        loc: ItemLoc {
            container: ItemContainerId::ModuleId(module(0)),
            file_id: FILE,
            block: None,
            id: node(number),
        },
    })
}

fn macro_of(number: u16, styles: MacroCallStyles) -> MacroId {
    MacroId::MacroRulesId(MacroRulesId {
        loc: MacroLoc {
            container: module(0),
            file_id: FILE,
            block: None,
            id: node(number),
            expander: MacroExpander::Declarative(styles),
        },
    })
}

fn use_item(at: u32, number: u16) -> UseId {
    UseId {
        loc: ItemLoc {
            container: module(at),
            file_id: FILE,
            block: None,
            id: node(number),
        },
    }
}

fn import(at: u32, number: u16) -> ImportId {
    ImportId {
        use_: use_item(at, number),
        idx: 0,
    }
}

fn extern_crate(number: u16) -> ExternCrateId {
    ExternCrateId {
        loc: ItemLoc {
            container: module(0),
            file_id: FILE,
            block: None,
            id: node(number),
        },
    }
}

/// A scope behind a box, so that a test moves a pointer and not the scope.
fn empty_scope(alloc: Global) -> Result<Box<ItemScope>, Fail> {
    Ok(Box::new(alloc, ItemScope::new(alloc))?)
}

/// Pushes a struct to `A`, and answers whether that changed anything.
fn push(
    alloc: Global,
    scope: &mut ItemScope,
    globs: &mut PerNsGlobImports,
    items: PerNs,
    by: Option<ImportOrExternCrate>,
) -> Result<bool, Fail> {
    let name = Name::new(alloc, "A")?;
    Ok(scope.push_res_with_import(globs, (module(0), name), items, by)?)
}

fn a_type(number: u16) -> PerNs {
    PerNs::types(structure(number), Visibility::Public, None)
}

/// Asserts items; of all tests, so that their comparison is proved once.
fn are_items(rt: &impl Abort, found: PerNs, expected: PerNs) {
    assert!(rt; found == expected);
}
