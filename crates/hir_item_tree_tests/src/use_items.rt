//! What the `use` items of a tree import.

use crate::units::{holds, is_text, tree_of};
use crate::use_trees::{USE_TREES, put_imports};
use hir_item_tree::expand::Import;
use hir_item_tree::item_tree::ItemTree;
use hir_item_tree::kinds::Use;
use hir_item_tree::rows::ModItemId;
use hir_item_tree::shape::{ImportAlias, ImportKind};
use hir_item_tree::shared_path::SharedPath;
use std::alloc::{AllocError, Global};
use std::fmt::Write;
use std::process::Abort;
use std::test::Fail;

/// The imports that an item hands out.
fn imports(alloc: Global, item: Use<'_>) -> Result<Vec<Import>, AllocError> {
    let mut imports = Vec::new(alloc);
    item.expand(
        alloc,
        &mut |place: u32, path: SharedPath, kind: ImportKind, alias: Option<ImportAlias>| {
            imports.push(Import {
                place,
                path,
                kind,
                alias,
            })?;
            Ok(())
        },
    )?;
    Ok(imports)
}

/// Adds what an item imports, in front of it its number.
fn put_item(
    text: &mut String,
    alloc: Global,
    number: usize,
    item: Option<Use<'_>>,
) -> Result<(), AllocError> {
    let Some(item) = item else {
        return Ok(());
    };
    write!(text, "{number}: ")?;
    put_imports(alloc, text, &imports(alloc, item)?)
}

/// What each `use` item of the tree imports; the numbers are those of the tree's items, inner ones first.
fn expanded(alloc: Global, tree: &ItemTree) -> Result<String, AllocError> {
    let mut text = String::new(alloc);
    for number in 0..16usize {
        let id = ModItemId(number);
        if tree.contains(id) {
            put_item(&mut text, alloc, number, tree.lookup(id))?;
        }
    }
    Ok(text)
}

fn expanded_unit(alloc: Global, unit: &str) -> Result<String, Fail> {
    let tree = tree_of(alloc, unit)?;
    Ok(expanded(alloc, &tree)?)
}

/// What the `use` item of a tree with this item alone imports.
fn expanded_item(alloc: Global, tree: &str) -> Result<String, Fail> {
    let unit = format!(in alloc;
        "{{\"nodes\":[{{\"kind\":\"Use\",\"id\":[1,0],\"tree\":{tree}}}]}}"
    )?;
    expanded_unit(alloc, unit.as_str())
}

/// Units, and what their `use` items import.
const UNITS: &[(&str, &str, &str)] = &[
    (
        "no use item",
        r#"{"nodes":[{"kind":"Fn","id":[1,0],"name":"f"}]}"#,
        "",
    ),
    (
        "places begin anew in each item",
        r#"{"nodes":[
            {"kind":"Use","id":[1,0],"tree":{"path":"a","list":[{"single":"b"},{"single":"c","as":"_"}]}},
            {"kind":"Struct","id":[2,0],"name":"S"},
            {"kind":"Use","id":[3,0],"vis":"pub","tree":{"single":"d","as":"e"}}
        ]}"#,
        "0: 1 a::b Plain; 2 a::c Plain as _; 2: 0 d Plain as e; ",
    ),
    (
        "in an inline module",
        r#"{"nodes":[
            {"kind":"Module","id":[1,0],"name":"m","nodes":[
                {"kind":"Use","id":[2,0],"tree":{"glob":"super"}},
                {"kind":"Module","id":[3,0],"name":"n","nodes":[
                    {"kind":"Use","id":[4,0],"tree":{"single":"super::super::a"}}
                ]}
            ]}
        ]}"#,
        "0: 0 super Glob; 1: 0 super::super::a Plain; ",
    ),
    (
        "a disabled item is kept",
        r#"{"nodes":[
            {"kind":"Use","id":[1,0],"attrs":[{"path":"cfg","cfg":false}],"tree":{"single":"a"}},
            {"kind":"Use","id":[2,0],"attrs":[{"path":"cfg","cfg":true}],"tree":{"glob":"b"}}
        ]}"#,
        "0: 0 a Plain; 1: 0 b Glob; ",
    ),
    (
        "an extern block, a trait and an impl keep none",
        r#"{"nodes":[
            {"kind":"ExternBlock","id":[1,0],"nodes":[{"kind":"Use","id":[2,0],"tree":{"single":"a"}}]},
            {"kind":"Trait","id":[3,0],"name":"T","items":[{"kind":"Use","id":[4,0],"tree":{"single":"a"}}]},
            {"kind":"Impl","id":[5,0],"trait":false,"items":[{"kind":"Use","id":[6,0],"tree":{"single":"a"}}]}
        ]}"#,
        "",
    ),
];

fn are_expanded(rt: &impl Abort, alloc: Global, rows: &[(&str, &str, &str)]) -> Result<(), Fail> {
    for &(row, unit, expected) in rows {
        let text = expanded_unit(alloc, unit)?;
        is_text(rt, row, text.as_str(), expected);
    }
    Ok(())
}

/// Which imports the `use` items of a tree mean.
#[test]
fn use_items(rt: HostRuntime) -> Result<(), Fail> {
    are_expanded(&rt, rt.alloc(), UNITS)
}

fn are_kept(rt: &impl Abort, alloc: Global, rows: &[(&str, &str, &str)]) -> Result<(), Fail> {
    for &(row, tree, expected) in rows {
        let text = expanded_item(alloc, tree)?;
        let imports = text.as_str().strip_prefix("0: ");
        holds(rt, row, imports == Some(expected));
    }
    Ok(())
}

/// A kept item hands out what its tree does.
#[test]
fn kept_use_items(rt: HostRuntime) -> Result<(), Fail> {
    are_kept(&rt, rt.alloc(), USE_TREES)
}
