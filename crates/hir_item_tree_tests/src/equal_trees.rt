//! Which items have equal trees.

use crate::units::{holds, tree_of, tree_of_source};
use hir_item_tree::item_tree::ItemTree;
use hir_item_tree::source::Source;
use std::alloc::Global;
use std::process::Abort;
use std::test::Fail;

/// The tree of a unit with this item alone.
fn tree_of_item(alloc: Global, item: &str) -> Result<ItemTree, Fail> {
    let unit = format!(in alloc; "{{\"nodes\":[{item}]}}")?;
    tree_of(alloc, unit.as_str())
}

/// Whether two items have equal trees, asked both ways.
fn are_equal(alloc: Global, first: &str, second: &str) -> Result<(bool, bool), Fail> {
    let first = tree_of_item(alloc, first)?;
    let second = tree_of_item(alloc, second)?;
    Ok((first == second, second == first))
}

/// A label, two items, and whether their trees are equal.
type Row<'a> = (&'a str, &'a str, &'a str, bool);

/// `pub struct S(pub, pub(crate));`, and structs beside it.
const STRUCTS: &[Row<'_>] = &[
    (
        "the same struct",
        r#"{"kind":"Struct","id":[1,0],"vis":"pub","name":"S","shape":"tuple","fields":["pub","crate"]}"#,
        r#"{"kind":"Struct","id":[1,0],"vis":"pub","name":"S","shape":"tuple","fields":["pub","crate"]}"#,
        true,
    ),
    (
        "another visibility",
        r#"{"kind":"Struct","id":[1,0],"vis":"pub","name":"S","shape":"tuple","fields":["pub","crate"]}"#,
        r#"{"kind":"Struct","id":[1,0],"vis":"crate","name":"S","shape":"tuple","fields":["pub","crate"]}"#,
        false,
    ),
    (
        "a visibility that isn't written",
        r#"{"kind":"Struct","id":[1,0],"vis":null,"name":"S"}"#,
        r#"{"kind":"Struct","id":[1,0],"name":"S"}"#,
        true,
    ),
    (
        "a visibility that is written",
        r#"{"kind":"Struct","id":[1,0],"vis":"self","name":"S"}"#,
        r#"{"kind":"Struct","id":[1,0],"name":"S"}"#,
        false,
    ),
    (
        "a visibility in another module",
        r#"{"kind":"Struct","id":[1,0],"vis":{"in":"crate::a"},"name":"S"}"#,
        r#"{"kind":"Struct","id":[1,0],"vis":{"in":"crate::b"},"name":"S"}"#,
        false,
    ),
    (
        "another visibility of a field of the constructor",
        r#"{"kind":"Struct","id":[1,0],"vis":"pub","name":"S","shape":"tuple","fields":["pub","crate"]}"#,
        r#"{"kind":"Struct","id":[1,0],"vis":"pub","name":"S","shape":"tuple","fields":["pub","pub"]}"#,
        false,
    ),
    (
        "fields of the constructor in another order",
        r#"{"kind":"Struct","id":[1,0],"vis":"pub","name":"S","shape":"tuple","fields":["pub","crate"]}"#,
        r#"{"kind":"Struct","id":[1,0],"vis":"pub","name":"S","shape":"tuple","fields":["crate","pub"]}"#,
        false,
    ),
    (
        "one field more",
        r#"{"kind":"Struct","id":[1,0],"vis":"pub","name":"S","shape":"record","fields":["pub"]}"#,
        r#"{"kind":"Struct","id":[1,0],"vis":"pub","name":"S","shape":"record","fields":["pub","pub"]}"#,
        false,
    ),
    (
        "another visibility of a named field",
        r#"{"kind":"Struct","id":[1,0],"vis":"pub","name":"S","shape":"record","fields":["pub"]}"#,
        r#"{"kind":"Struct","id":[1,0],"vis":"pub","name":"S","shape":"record","fields":[null]}"#,
        false,
    ),
    (
        "another constructor",
        r#"{"kind":"Struct","id":[1,0],"vis":"pub","name":"S","shape":"tuple","fields":[]}"#,
        r#"{"kind":"Struct","id":[1,0],"vis":"pub","name":"S","shape":"unit","fields":[]}"#,
        false,
    ),
    (
        "a constructor and none",
        r#"{"kind":"Struct","id":[1,0],"vis":"pub","name":"S","shape":"tuple","fields":["pub"]}"#,
        r#"{"kind":"Struct","id":[1,0],"vis":"pub","name":"S","shape":"record","fields":["pub"]}"#,
        false,
    ),
    (
        "another visibility of a field of a union",
        r#"{"kind":"Union","id":[1,0],"name":"U","fields":["pub"]}"#,
        r#"{"kind":"Union","id":[1,0],"name":"U","fields":["crate"]}"#,
        false,
    ),
];

/// `mod m { fn f() { 1 } }`, and modules beside it.
const MODULES: &[Row<'_>] = &[
    (
        "equal_ids_with_other_bodies",
        r#"{"kind":"Module","id":[9,0],"name":"m","nodes":[{"kind":"Fn","id":[1,0],"name":"f","body":"{ 1 }"}]}"#,
        r#"{"kind":"Module","id":[9,0],"name":"m","nodes":[{"kind":"Fn","id":[1,0],"name":"f","body":"{ 2 }"}]}"#,
        true,
    ),
    (
        "another name",
        r#"{"kind":"Module","id":[9,0],"name":"m","nodes":[{"kind":"Fn","id":[1,0],"name":"f","body":"{ 1 }"}]}"#,
        r#"{"kind":"Module","id":[9,0],"name":"m","nodes":[{"kind":"Fn","id":[1,0],"name":"g","body":"{ 1 }"}]}"#,
        false,
    ),
    (
        "another id",
        r#"{"kind":"Module","id":[9,0],"name":"m","nodes":[{"kind":"Fn","id":[1,0],"name":"f","body":"{ 1 }"}]}"#,
        r#"{"kind":"Module","id":[9,0],"name":"m","nodes":[{"kind":"Fn","id":[2,0],"name":"f","body":"{ 1 }"}]}"#,
        false,
    ),
];

/// Functions under attributes.
const ATTRIBUTES: &[Row<'_>] = &[
    (
        "another attribute",
        r#"{"kind":"Fn","id":[1,0],"name":"f","attrs":[{"path":"inline"}]}"#,
        r#"{"kind":"Fn","id":[1,0],"name":"f","attrs":[{"path":"cold"}]}"#,
        false,
    ),
    (
        "a condition that holds",
        r#"{"kind":"Fn","id":[1,0],"name":"f","attrs":[{"path":"cfg","cfg":true}]}"#,
        r#"{"kind":"Fn","id":[1,0],"name":"f"}"#,
        true,
    ),
    (
        "a condition that holds before an attribute, which it numbers",
        r#"{"kind":"Fn","id":[1,0],"name":"f","attrs":[{"path":"cfg","cfg":true},{"path":"inline"}]}"#,
        r#"{"kind":"Fn","id":[1,0],"name":"f","attrs":[{"path":"inline"}]}"#,
        false,
    ),
    (
        "a false condition",
        r#"{"kind":"Fn","id":[1,0],"name":"f","attrs":[{"path":"cfg","cfg":false}]}"#,
        r#"{"kind":"Fn","id":[1,0],"name":"f"}"#,
        false,
    ),
    (
        "attributes behind a false condition",
        r#"{"kind":"Fn","id":[1,0],"name":"f","attrs":[{"path":"cfg","cfg":"x"},{"path":"inline"}]}"#,
        r#"{"kind":"Fn","id":[1,0],"name":"f","attrs":[{"path":"cfg","cfg":"x"},{"path":"cold"}]}"#,
        true,
    ),
];

/// What is beside a tree, and what is in it.
const SIDES: &[Row<'_>] = &[
    (
        "other bodies",
        r#"{"kind":"Const","id":[1,0],"name":"C","body":"1"}"#,
        r#"{"kind":"Const","id":[1,0],"name":"C","body":"2"}"#,
        true,
    ),
    (
        "other variants",
        r#"{"kind":"Enum","id":[1,0],"name":"E","variants":[{"id":[1,1],"name":"A"}]}"#,
        r#"{"kind":"Enum","id":[1,0],"name":"E","variants":[]}"#,
        true,
    ),
    (
        "other associated items of a trait",
        r#"{"kind":"Trait","id":[1,0],"name":"T","items":[{"kind":"Fn","id":[1,1],"name":"f"}]}"#,
        r#"{"kind":"Trait","id":[1,0],"name":"T","items":[{"kind":"Fn","id":[1,1],"name":"g"}]}"#,
        true,
    ),
    (
        "other associated items of an impl",
        r#"{"kind":"Impl","id":[1,0],"trait":false,"items":[{"kind":"Fn","id":[1,1],"name":"f"}]}"#,
        r#"{"kind":"Impl","id":[1,0],"trait":false,"items":[]}"#,
        true,
    ),
    (
        "an impl of a trait",
        r#"{"kind":"Impl","id":[1,0],"trait":false,"items":[]}"#,
        r#"{"kind":"Impl","id":[1,0],"trait":true,"items":[]}"#,
        false,
    ),
    (
        "another text of a macro",
        r#"{"kind":"MacroRules","id":[1,0],"name":"m","text":"() => {}"}"#,
        r#"{"kind":"MacroRules","id":[1,0],"name":"m","text":"(x) => {}"}"#,
        true,
    ),
    (
        "other styles of a macro",
        r#"{"kind":"MacroDef","id":[1,0],"name":"m","text":"","styles":["bang"]}"#,
        r#"{"kind":"MacroDef","id":[1,0],"name":"m","text":"","styles":["attr"]}"#,
        false,
    ),
    (
        "other helpers of a macro",
        r#"{"kind":"MacroDef","id":[1,0],"name":"m","text":"","helpers":["h"]}"#,
        r#"{"kind":"MacroDef","id":[1,0],"name":"m","text":""}"#,
        false,
    ),
    (
        "another input",
        r#"{"kind":"MacroCall","id":[1,0],"path":"a::m","input":"1"}"#,
        r#"{"kind":"MacroCall","id":[1,0],"path":"a::m","input":"2"}"#,
        true,
    ),
    (
        "another path of a call",
        r#"{"kind":"MacroCall","id":[1,0],"path":"a::m"}"#,
        r#"{"kind":"MacroCall","id":[1,0],"path":"a::n"}"#,
        false,
    ),
    (
        "what an extern block doesn't keep",
        r#"{"kind":"ExternBlock","id":[1,0],"nodes":[{"kind":"Struct","id":[1,1],"name":"S"}]}"#,
        r#"{"kind":"ExternBlock","id":[1,0],"nodes":[]}"#,
        true,
    ),
    (
        "what an extern block keeps",
        r#"{"kind":"ExternBlock","id":[1,0],"nodes":[{"kind":"Static","id":[1,1],"name":"S"}]}"#,
        r#"{"kind":"ExternBlock","id":[1,0],"nodes":[]}"#,
        false,
    ),
    (
        "a module in a file of its own",
        r#"{"kind":"Module","id":[1,0],"name":"m"}"#,
        r#"{"kind":"Module","id":[1,0],"name":"m","nodes":[]}"#,
        false,
    ),
];

fn are_as_rows_say(rt: &impl Abort, alloc: Global, rows: &[Row<'_>]) -> Result<(), Fail> {
    for &(row, first, second, equal) in rows {
        let (forth, back) = are_equal(alloc, first, second)?;
        holds(rt, row, forth == equal && back == equal);
    }
    Ok(())
}

/// Trees are equal where what is kept of the items is.
#[test]
fn equal_items(rt: HostRuntime) -> Result<(), Fail> {
    are_as_rows_say(&rt, rt.alloc(), STRUCTS)?;
    are_as_rows_say(&rt, rt.alloc(), MODULES)?;
    are_as_rows_say(&rt, rt.alloc(), ATTRIBUTES)?;
    are_as_rows_say(&rt, rt.alloc(), SIDES)
}

/// A source that can't be read has no items.
#[test]
fn broken_source(rt: HostRuntime) -> Result<(), Fail> {
    let tree = tree_of_source(rt.alloc(), &Source::Broken)?;
    assert!(rt; tree == ItemTree::empty(rt.alloc()));
    Ok(())
}
