//! Scopes that share, and large ones.
use crate::textual_scope::TextualScope;
use hir_ids::ast_id::{EditionedFileId, FileId, HirFileId, SyntaxId};
use hir_ids::edition::Edition;
use hir_ids::ids::{Crate, MapId, ModuleId};
use hir_ids::macro_kind::{MacroCallStyles, MacroExpander, MacroId, MacroLoc, MacroRulesId};
use hir_ids::name::Name;
use std::alloc::Global;
use std::test::Fail;

/// A macro by its number.
fn makro(number: u16) -> MacroId {
    MacroId::MacroRulesId(MacroRulesId {
        loc: MacroLoc {
            container: ModuleId::root(MapId::of_crate(Crate(0))),
            file_id: HirFileId::File(EditionedFileId {
                file_id: FileId(0),
                edition: Edition::Edition2021,
            }),
            block: None,
            id: SyntaxId {
                hash: 0,
                index: number,
            },
            expander: MacroExpander::Declarative(MacroCallStyles::FN_LIKE),
        },
    })
}

/// Defines a macro of this name and number.
fn define(alloc: Global, scope: &mut TextualScope, name: &str, number: u16) -> Result<(), Fail> {
    scope.define(Name::new(alloc, name)?, makro(number))?;
    Ok(())
}

/// A parent and its child, each of which defines more once the child is there.
fn parent_and_child(alloc: Global) -> Result<(TextualScope, TextualScope), Fail> {
    let mut parent = TextualScope::new(alloc);
    define(alloc, &mut parent, "a", 1)?;
    define(alloc, &mut parent, "b", 2)?;
    define(alloc, &mut parent, "a", 3)?;
    let mut child = parent.clone()?;
    define(alloc, &mut child, "a", 4)?;
    define(alloc, &mut child, "c", 5)?;
    define(alloc, &mut parent, "b", 6)?;
    Ok((parent, child))
}

/// The number of the last macro of a name, and how many it has.
fn found(alloc: Global, scope: &TextualScope, name: &str) -> Result<(Option<u16>, usize), Fail> {
    let name = Name::new(alloc, name)?;
    let mut count: usize = 0;
    for _ in scope.macros_of(&name) {
        count = count.saturating_add(1);
    }
    match scope.last(&name) {
        Some(MacroId::MacroRulesId(id)) => Ok((Some(id.loc.id.index), count)),
        _ => Ok((None, count)),
    }
}

/// As many macros as this, their names in ascending order.
fn ascending(alloc: Global, count: u16) -> Result<TextualScope, Fail> {
    let mut scope = TextualScope::new(alloc);
    for number in 0..count {
        let name = format!(in alloc; "m{number:05}")?;
        define(alloc, &mut scope, name.as_str(), number)?;
    }
    Ok(scope)
}

/// A name, and what is found of it in the parent and in the child.
const ROWS: [(&str, (Option<u16>, usize), (Option<u16>, usize)); 4] = [
    ("a", (Some(3), 2), (Some(4), 3)),
    ("b", (Some(6), 2), (Some(2), 1)),
    ("c", (None, 0), (Some(5), 1)),
    ("d", (None, 0), (None, 0)),
];

/// How many nodes a path down a tree of 2,000 macros has at most: no side has more than three quarters of a node's weight.
const DEEPEST: u32 = 26;

#[test]
fn what_is_shared_stays(rt: HostRuntime) -> Result<(), Fail> {
    let (parent, child) = parent_and_child(rt.alloc())?;
    for (name, in_parent, in_child) in ROWS {
        assert_eq!(rt; found(rt.alloc(), &parent, name)?, in_parent, "{name}");
        assert_eq!(rt; found(rt.alloc(), &child, name)?, in_child, "{name}");
    }
    let large = ascending(rt.alloc(), 2000)?;
    assert!(rt; large.is_within(DEEPEST));
    Ok(())
}
