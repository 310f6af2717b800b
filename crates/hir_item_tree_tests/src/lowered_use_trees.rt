//! Use trees as they are kept, and the places in them.

use crate::units::is_text;
use crate::use_trees::{tree_of, use_item};
use hir_base::edition::Edition;
use hir_item_tree::lower_use_tree::lower_use_tree;
use hir_item_tree::use_tree::{UseTree, UseTreeKind};
use std::alloc::{AllocError, Global};
use std::fmt::Write;
use std::process::Abort;
use std::test::Fail;

/// Adds how the tree itself is written, without those inside.
fn put_head(text: &mut String, tree: &UseTree) -> Result<(), AllocError> {
    match tree.kind() {
        UseTreeKind::Single { path, alias } => {
            let path = path.display(Edition::Edition2021);
            write!(text, "{path}")?;
            if let Some(alias) = alias {
                let alias = alias.display(Edition::Edition2021);
                write!(text, " as {alias}")?;
            }
        }
        UseTreeKind::Glob { path } => {
            if let Some(path) = path {
                let path = path.display(Edition::Edition2021);
                write!(text, "{path}::")?;
            }
            write!(text, "*")?;
        }
        UseTreeKind::Prefixed { prefix, list } => {
            if let Some(prefix) = prefix {
                let prefix = prefix.display(Edition::Edition2021);
                write!(text, "{prefix} ")?;
            }
            let count = list.len();
            write!(text, "of {count}")?;
        }
    }
    Ok(())
}

/// The trees at the places, in order.
fn places(alloc: Global, tree: &UseTree) -> Result<String, AllocError> {
    let mut text = String::new(alloc);
    let (_, positions) = lower_use_tree(alloc, tree)?;
    for position in &positions {
        put_head(&mut text, position)?;
        write!(text, "; ")?;
    }
    Ok(text)
}

fn places_of_item(alloc: Global, tree: &str) -> Result<String, Fail> {
    let source = use_item(alloc, tree)?;
    match tree_of(&source) {
        Some(tree) => Ok(places(alloc, tree)?),
        None => Err(Fail::new("no use item")),
    }
}

/// Use trees, and what stands at each place: the tree itself at 0, and then each list before what is in it.
const PLACES: &[(&str, &str, &str)] = &[
    (
        "a path alone",
        r#"{"single":"a::b","as":"c"}"#,
        "a::b as c; ",
    ),
    ("a glob alone", r#"{"glob":null}"#, "*; "),
    ("an empty list", r#"{"path":"a","list":[]}"#, "a of 0; "),
    (
        "a list in a list",
        r#"{"path":"a","list":[{"path":"b","list":[{"single":"c","as":"d"},{"glob":"e"}]},{"single":"self"}]}"#,
        "a of 2; b of 2; c as d; e::*; self; ",
    ),
    (
        "lists that give nothing",
        r#"{"list":[{"path":"a","list":[]},{"path":"crate","list":[{"path":"::b","list":[{"glob":null},{"glob":null}]}]},{"single":"c"}]}"#,
        "of 3; a of 0; crate of 1; ::b of 2; *; *; c; ",
    ),
];

fn have_places(rt: &impl Abort, alloc: Global, rows: &[(&str, &str, &str)]) -> Result<(), Fail> {
    for &(row, tree, expected) in rows {
        let text = places_of_item(alloc, tree)?;
        is_text(rt, row, text.as_str(), expected);
    }
    Ok(())
}

/// Which tree stands at which place.
#[test]
fn places_in_preorder(rt: HostRuntime) -> Result<(), Fail> {
    have_places(&rt, rt.alloc(), PLACES)
}
