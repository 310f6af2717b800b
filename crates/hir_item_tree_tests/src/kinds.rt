//! Each kind of item as a tree lends it.

use crate::units::{is_text, tree_of};
use hir_base::edition::Edition;
use hir_base::macro_kind::{MacroCallStyles, MacroExpander};
use hir_base::name::Name;
use hir_item_tree::item_tree::ItemTree;
use hir_item_tree::item_tree_node::ItemTreeNode;
use hir_item_tree::kinds::{
    ExternBlock, ExternCrate, MacroCall, MacroRules, Mod, ModItemKind, ModKind, Struct,
};
use hir_item_tree::shape::{ExternCrateName, FieldsShape, ImportAlias};
use std::alloc::{AllocError, Global};
use std::process::Abort;
use std::test::Fail;

/// An item of each kind.
const ITEMS: &str = r#"{"nodes":[
    {"kind":"Use","id":[1,0],"tree":{"single":"a"}},
    {"kind":"ExternCrate","id":[2,0],"name":"core","as":"c"},
    {"kind":"ExternBlock","id":[3,0],"nodes":[{"kind":"Fn","id":[17,0],"name":"e"}]},
    {"kind":"Fn","id":[4,0],"name":"f"},
    {"kind":"Struct","id":[5,0],"name":"S","shape":"tuple","fields":["pub"]},
    {"kind":"Union","id":[6,0],"name":"U"},
    {"kind":"Enum","id":[7,0],"name":"E","variants":[]},
    {"kind":"Const","id":[8,0]},
    {"kind":"Static","id":[9,0],"name":"X"},
    {"kind":"Trait","id":[10,0],"name":"T","items":[]},
    {"kind":"Impl","id":[11,0],"trait":true,"items":[]},
    {"kind":"TypeAlias","id":[12,0],"name":"A"},
    {"kind":"Module","id":[13,0],"name":"m"},
    {"kind":"MacroCall","id":[14,0],"path":"a::b"},
    {"kind":"MacroRules","id":[15,0],"name":"r","styles":["attr"]},
    {"kind":"MacroDef","id":[16,0],"name":"d"}
]}"#;

/// The kind of an item, and its name where it has one.
fn kind_and_name(kind: ModItemKind<'_>) -> (&'static str, Option<&Name>) {
    match kind {
        ModItemKind::Use(_) => ("Use", None),
        ModItemKind::ExternCrate(_) => ("ExternCrate", None),
        ModItemKind::ExternBlock(_) => ("ExternBlock", None),
        ModItemKind::Function(item) => ("Function", Some(item.name)),
        ModItemKind::Struct(item) => ("Struct", Some(item.name)),
        ModItemKind::Union(item) => ("Union", Some(item.name)),
        ModItemKind::Enum(item) => ("Enum", Some(item.name)),
        ModItemKind::Const(item) => ("Const", item.name.as_ref()),
        ModItemKind::Static(item) => ("Static", Some(item.name)),
        ModItemKind::Trait(item) => ("Trait", Some(item.name)),
        ModItemKind::Impl(_) => ("Impl", None),
        ModItemKind::TypeAlias(item) => ("TypeAlias", Some(item.name)),
        ModItemKind::Mod(item) => ("Mod", Some(item.name)),
        ModItemKind::MacroCall(_) => ("MacroCall", None),
        ModItemKind::MacroRules(item) => ("MacroRules", Some(item.name)),
        ModItemKind::Macro2(item) => ("Macro2", Some(item.name)),
    }
}

/// The items at the top of a tree, one after another.
fn kinds(alloc: Global, tree: &ItemTree) -> Result<String, AllocError> {
    let mut text = String::new(alloc);
    for id in tree.top_level_items() {
        if tree.contains(*id) {
            let (kind, name) = kind_and_name(tree.index(*id));
            text.push_str(kind)?;
            if let Some(name) = name {
                text.push(' ')?;
                text.push_str(name.as_str())?;
            }
            text.push_str("; ")?;
        }
    }
    Ok(text)
}

fn has_each_kind(rt: &impl Abort, alloc: Global, tree: &ItemTree) -> Result<(), AllocError> {
    let text = kinds(alloc, tree)?;
    is_text(
        rt,
        "each kind",
        text.as_str(),
        "Use; ExternCrate; ExternBlock; Function f; Struct S; Union U; Enum E; Const; Static X; Trait T; Impl; TypeAlias A; Mod m; MacroCall; MacroRules r; Macro2 d; ",
    );
    Ok(())
}

/// The item of a number among those at the top, where it is of the kind.
fn node_at<'a, N: ItemTreeNode<'a>>(tree: &'a ItemTree, number: usize) -> Option<N> {
    let id = tree.top_level_items().get(number).copied()?;
    if tree.contains(id) {
        tree.lookup(id)
    } else {
        None
    }
}

/// `extern crate core as c;`
fn is_core_as_c(found: Option<ExternCrate<'_>>) -> bool {
    let Some(item) = found else {
        return false;
    };
    match (item.name, item.alias) {
        (ExternCrateName::Name(name), Some(ImportAlias::Alias(alias))) => {
            name.as_str() == "core" && alias.as_str() == "c"
        }
        _ => false,
    }
}

/// `extern { fn e(); }`
fn has_one_item(found: Option<ExternBlock<'_>>) -> bool {
    match found {
        Some(item) => item.children.len() == 1,
        None => false,
    }
}

/// `struct S(pub _);`
fn is_tuple_of_one(found: Option<Struct<'_>>) -> bool {
    match found {
        Some(item) => item.shape == FieldsShape::Tuple && item.fields.len() == 1,
        None => false,
    }
}

/// `mod m;`
fn is_outline(found: Option<Mod<'_>>) -> bool {
    match found {
        Some(item) => matches!(item.kind, ModKind::Outline),
        None => false,
    }
}

/// A `macro_rules!` that is called as an attribute.
fn is_attribute(found: Option<MacroRules<'_>>) -> bool {
    let attribute = MacroExpander::Declarative(MacroCallStyles::ATTR);
    match found {
        Some(item) => item.expander == attribute && item.helpers.len() == 0,
        None => false,
    }
}

fn has_items(rt: &impl Abort, tree: &ItemTree) {
    assert!(rt; is_core_as_c(node_at(tree, 1)));
    assert!(rt; has_one_item(node_at(tree, 2)));
    assert!(rt; is_tuple_of_one(node_at(tree, 4)));
    assert!(rt; is_outline(node_at(tree, 12)));
    assert!(rt; is_attribute(node_at(tree, 14)));
}

/// The path of `a::b!();`.
fn path_of_call(alloc: Global, tree: &ItemTree) -> Result<String, AllocError> {
    let found: Option<MacroCall<'_>> = node_at(tree, 13);
    match found {
        Some(item) => item.path.display(Edition::Edition2021).to_string(alloc),
        None => Ok(String::new(alloc)),
    }
}

fn has_call(rt: &impl Abort, alloc: Global, tree: &ItemTree) -> Result<(), AllocError> {
    let text = path_of_call(alloc, tree)?;
    is_text(rt, "its path", text.as_str(), "a::b");
    Ok(())
}

fn has_texts(rt: &impl Abort, alloc: Global, tree: &ItemTree) -> Result<(), AllocError> {
    has_each_kind(rt, alloc, tree)?;
    has_call(rt, alloc, tree)
}

#[test]
fn items_of_each_kind(rt: HostRuntime) -> Result<(), Fail> {
    let tree = tree_of(rt.alloc(), ITEMS)?;
    has_items(&rt, &tree);
    Ok(has_texts(&rt, rt.alloc(), &tree)?)
}

/// A struct with named fields has no constructor.
#[test]
fn shapes_with_constructors(rt: HostRuntime) {
    assert!(rt; !FieldsShape::Record.has_value_ns_ctor());
    assert!(rt; FieldsShape::Tuple.has_value_ns_ctor());
    assert!(rt; FieldsShape::Unit.has_value_ns_ctor());
}
