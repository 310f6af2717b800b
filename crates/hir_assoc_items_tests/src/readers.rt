//! What the lists of a trait or an impl answer.

use hir_assoc_items::assoc::MacroCalls;
use hir_assoc_items::{ImplItems, TraitItems};
use hir_base::ast_id::{AstId, AstKind, EditionedFileId, FileId, HirFileId, MacroCallId, SyntaxId};
use hir_base::edition::Edition;
use hir_base::ids::{
    AssocItemId, ConstId, Crate, FunctionId, ItemContainerId, ItemLoc, MapId, ModuleId, TraitId,
    TypeAliasId,
};
use hir_base::name::Name;
use std::alloc::Global;
use std::process::Abort;
use std::test::Fail;

/// The file of all nodes.
pub const FILE: HirFileId = HirFileId::File(EditionedFileId {
    file_id: FileId(0),
    edition: Edition::Edition2021,
});

/// The root of crate 0.
pub const MODULE: ModuleId = ModuleId {
    map: MapId {
        krate: Crate(0),
        block: None,
    },
    index: 0,
};

const TRAIT: TraitId = TraitId {
    loc: ItemLoc {
        container: MODULE,
        file_id: FILE,
        block: None,
        id: SyntaxId { hash: 0, index: 0 },
    },
};

/// Where the trait's item of a number is.
fn location(number: u16) -> ItemLoc<ItemContainerId> {
    ItemLoc {
        container: ItemContainerId::TraitId(TRAIT),
        file_id: FILE,
        block: None,
        id: SyntaxId {
            hash: number,
            index: 0,
        },
    }
}

fn function(number: u16) -> FunctionId {
    FunctionId {
        loc: location(number),
    }
}

fn type_alias(number: u16) -> TypeAliasId {
    TypeAliasId {
        loc: location(number),
    }
}

fn item(kind: AstKind, number: u16) -> AssocItemId {
    match kind {
        AstKind::Fn => AssocItemId::FunctionId(function(number)),
        AstKind::TypeAlias => AssocItemId::TypeAliasId(type_alias(number)),
        _ => AssocItemId::ConstId(ConstId {
            loc: location(number),
        }),
    }
}

/// The trait's items: one name for items of each kind, some of them twice, and a name for one of each kind.
const ITEMS: [(&str, AstKind, u16); 8] = [
    ("Shared", AstKind::Const, 1),
    ("Shared", AstKind::TypeAlias, 2),
    ("Shared", AstKind::Fn, 3),
    ("Shared", AstKind::Fn, 4),
    ("Shared", AstKind::TypeAlias, 5),
    ("CONSTANT", AstKind::Const, 6),
    ("method", AstKind::Fn, 7),
    ("Alias", AstKind::TypeAlias, 8),
];

/// A name, and the first item, the first function and the first type alias that have it.
type Row = (
    &'static str,
    Option<(AstKind, u16)>,
    Option<u16>,
    Option<u16>,
);

const BY_NAME: [Row; 5] = [
    ("Shared", Some((AstKind::Const, 1)), Some(3), Some(2)),
    ("CONSTANT", Some((AstKind::Const, 6)), None, None),
    ("method", Some((AstKind::Fn, 7)), Some(7), None),
    ("Alias", Some((AstKind::TypeAlias, 8)), None, Some(8)),
    ("absent", None, None, None),
];

/// The trait's type aliases, in order.
const ALIASES: [u16; 3] = [2, 5, 8];

/// Calls in a list, in order, with their numbers.
pub const CALLS: [(AstId, MacroCallId); 2] = [
    (
        AstId {
            file_id: FILE,
            block: None,
            kind: AstKind::MacroCall,
            id: SyntaxId { hash: 9, index: 0 },
        },
        MacroCallId(1),
    ),
    (
        AstId {
            file_id: HirFileId::Macro(MacroCallId(1)),
            block: None,
            kind: AstKind::MacroCall,
            id: SyntaxId { hash: 1, index: 0 },
        },
        MacroCallId(0),
    ),
];

fn items(alloc: Global) -> Result<Vec<(Name, AssocItemId)>, Fail> {
    let mut items = Vec::new(alloc);
    for (name, kind, number) in ITEMS {
        items.push((Name::new(alloc, name)?, item(kind, number)))?;
    }
    Ok(items)
}

fn calls(alloc: Global) -> Result<Vec<(AstId, MacroCallId)>, Fail> {
    let mut calls = Vec::new(alloc);
    for call in CALLS {
        calls.push(call)?;
    }
    Ok(calls)
}

fn items_of_trait(alloc: Global) -> Result<TraitItems, Fail> {
    let items = items(alloc)?;
    let macro_calls = calls(alloc)?;
    Ok(TraitItems { items, macro_calls })
}

fn wanted_item(row: &Row) -> Option<AssocItemId> {
    match row.1 {
        Some((kind, number)) => Some(item(kind, number)),
        None => None,
    }
}

fn wanted_function(row: &Row) -> Option<FunctionId> {
    match row.2 {
        Some(number) => Some(function(number)),
        None => None,
    }
}

fn wanted_type(row: &Row) -> Option<TypeAliasId> {
    match row.3 {
        Some(number) => Some(type_alias(number)),
        None => None,
    }
}

fn is_first(rt: &impl Abort, alloc: Global, items: &TraitItems, row: &Row) -> Result<(), Fail> {
    let label = row.0;
    let name = Name::new(alloc, label)?;
    assert!(rt;
        items.assoc_item_by_name(&name) == wanted_item(row),
        "{label}"
    );
    assert!(rt;
        items.method_by_name(&name) == wanted_function(row),
        "{label}"
    );
    assert!(rt;
        items.associated_type_by_name(&name) == wanted_type(row),
        "{label}"
    );
    Ok(())
}

fn are_first(rt: &impl Abort, alloc: Global, items: &TraitItems) -> Result<(), Fail> {
    for row in &BY_NAME {
        is_first(rt, alloc, items, row)?;
    }
    Ok(())
}

/// Of the items that have a name, and of those of one kind among them, the first is found.
#[test]
fn first_of_a_name(rt: HostRuntime) -> Result<(), Fail> {
    let items = items_of_trait(rt.alloc())?;
    are_first(&rt, rt.alloc(), &items)
}

fn are_the_aliases(rt: &impl Abort, items: &TraitItems) {
    let mut found = items.associated_types();
    for number in ALIASES {
        assert!(rt; found.next() == Some(type_alias(number)));
    }
    assert!(rt; found.next().is_none());
}

fn are_the_calls(rt: &impl Abort, mut found: MacroCalls<'_>) {
    for call in CALLS {
        assert!(rt; found.next() == Some(call));
    }
    assert!(rt; found.next().is_none());
}

/// Type aliases and calls are walked in order.
#[test]
fn walks_of_a_trait(rt: HostRuntime) -> Result<(), Fail> {
    let items = items_of_trait(rt.alloc())?;
    are_the_aliases(&rt, &items);
    are_the_calls(&rt, items.macro_calls());
    Ok(())
}

/// And so are the calls of an impl.
#[test]
fn calls_of_an_impl(rt: HostRuntime) -> Result<(), Fail> {
    let items = ImplItems {
        items: Vec::new(rt.alloc()),
        macro_calls: calls(rt.alloc())?,
    };
    are_the_calls(&rt, items.macro_calls());
    Ok(())
}

/// A trait without items has neither.
#[test]
fn empty_trait(rt: HostRuntime) {
    let items = TraitItems {
        items: Vec::new(rt.alloc()),
        macro_calls: Vec::new(rt.alloc()),
    };
    assert!(rt; items.associated_types().next().is_none());
    assert!(rt; items.macro_calls().next().is_none());
}
