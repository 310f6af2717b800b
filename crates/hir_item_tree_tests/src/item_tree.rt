use crate::units::tree_of;
use hir_item_tree::item_tree::ItemTree;
use hir_item_tree::kinds::{Function, Mod, ModItemKind, ModKind, RawVisibilityId};
use hir_item_tree::raw_visibility::RawVisibility;
use hir_item_tree::rows::ModItemId;
use std::alloc::AllocError;
use std::process::Abort;
use std::test::Fail;

/// `mod inline { use super::*; fn fn_in_module() {} } mod outline;`.
const MODULES: &str = r#"{"nodes":[
    {"kind":"Module","id":[942,0],"name":"inline","nodes":[
        {"kind":"Use","id":[0,0],"tree":{"glob":"super"}},
        {"kind":"Fn","id":[10872,0],"name":"fn_in_module","body":"{}"}
    ]},
    {"kind":"Module","id":[49291,0],"name":"outline"}
]}"#;

/// How many items a module holds that is written where it is declared.
fn held(kind: ModItemKind<'_>) -> usize {
    match kind {
        ModItemKind::Mod(module) => match module.kind {
            ModKind::Inline { items } => items.len(),
            ModKind::Outline => 0,
        },
        _ => 0,
    }
}

fn is_implicit(visibility: &RawVisibility) -> bool {
    match visibility {
        RawVisibility::PubSelf(explicitness) => !explicitness.is_explicit(),
        _ => false,
    }
}

fn has_module(rt: &impl Abort, tree: &ItemTree, first: ModItemId) {
    assert!(rt; tree.contains(first));
    assert!(rt; tree.syntax_id(first).hash == 942);
    assert!(rt; held(tree.index(first)) == 2);
    assert!(rt; tree.attrs(first).is_enabled());
    let module: Option<Mod<'_>> = tree.lookup(first);
    assert!(rt; module.is_some());
    let function: Option<Function<'_>> = tree.lookup(first);
    assert!(rt; function.is_none());
    assert!(rt; is_implicit(&tree[RawVisibilityId(first.0)]));
}

fn has_items(rt: &impl Abort, tree: &ItemTree) {
    let items = tree.top_level_items();
    assert!(rt; items.len() == 2);
    has_module(rt, tree, items[0]);
    assert!(rt; !tree.contains(ModItemId(4)));
}

fn is_copied(rt: &impl Abort, tree: &ItemTree) -> Result<(), AllocError> {
    let again = tree.clone()?;
    assert!(rt; *tree == again);
    Ok(())
}

/// Items by their numbers.
#[test]
fn items_by_number(rt: HostRuntime) -> Result<(), Fail> {
    let tree = tree_of(rt.alloc(), MODULES)?;
    has_items(&rt, &tree);
    Ok(is_copied(&rt, &tree)?)
}
