//! What a run notes in scopes of the macro calls, attributes and derives of their items.
use super::Runs;
use hir_base::ast_id::{AstId, AstKind, AttrId, HirFileId, SyntaxId};
use hir_base::ids::AdtId;
use hir_collector_fixtures::crates::{collected_over, root};
use hir_def_map::nameres::DefMap;
use hir_scope::item_scope::ItemScope;
use std::process::Abort;
use std::test::Fail;

/// `macro_rules! m {} macro a {} macro d {} macro c {} m!(); #[a] struct A; #[derive(d, c, nope)] struct B; mod n { m!(); nope!(); }`,
/// of which `a` is an attribute, `d` a derive and `c` a builtin derive
const CALLS: &str = r#"{"do":"set file","file":"a.rs","unit":{"nodes":[
{"kind":"MacroRules","id":[1,0],"name":"m","text":"m"},
{"kind":"MacroDef","id":[2,0],"name":"a","text":"a","styles":["attr"]},
{"kind":"MacroDef","id":[3,0],"name":"d","text":"d","styles":["derive"]},
{"kind":"MacroDef","id":[4,0],"name":"c","text":"c","expander":"builtin_derive"},
{"kind":"MacroCall","id":[5,0],"path":"m"},
{"kind":"Struct","id":[6,0],"name":"A","attrs":[{"path":"a"}]},
{"kind":"Struct","id":[7,0],"name":"B","attrs":[{"path":"derive","paths":["d","c","nope"]}]},
{"kind":"Module","id":[8,0],"name":"n","nodes":[
    {"kind":"MacroCall","id":[9,0],"path":"m"},
    {"kind":"MacroCall","id":[10,0],"path":"nope"}]}]}}"#;

fn node(kind: AstKind, hash: u16) -> AstId {
    AstId {
        file_id: HirFileId::File(root(0)),
        block: None,
        kind,
        id: SyntaxId { hash, index: 0 },
    }
}

/// The derives that are resolved are noted, each in its place.
fn notes_derives(rt: &impl Abort, scope: &ItemScope) -> Result<(), Fail> {
    let (item, attributes) = scope.derive_macro_invocs().next().ok_or("no item")?;
    assert!(rt; *item == node(AstKind::Struct, 7));
    let attribute = attributes.as_slice().first().ok_or("no attribute")?;
    assert!(rt; scope.derive_macro_invoc(*item, AttrId(0)) == Some(attribute.attr_call_id()));
    assert!(rt; matches!(attribute.derive_call_ids(), [Some(_), Some(_), None]));
    Ok(())
}

/// The call, that of the attribute, and that of the one derive that isn't builtin.
fn notes_calls(rt: &impl Abort, scope: &ItemScope) -> Result<(), Fail> {
    let call = scope.macro_invoc(node(AstKind::MacroCall, 5));
    assert!(rt; call.is_some());
    let (item, attribute) = scope.attr_macro_invocs().next().ok_or("no item")?;
    assert!(rt; *item == node(AstKind::Struct, 6));
    let mut calls = scope.all_macro_calls();
    assert!(rt; calls.next() == call);
    assert!(rt; calls.next() == Some(*attribute));
    assert!(rt; calls.next().is_some());
    assert!(rt; calls.next().is_none());
    Ok(())
}

/// One call is resolved, and the other isn't.
fn notes_one_call(rt: &impl Abort, scope: &ItemScope) -> Result<(), Fail> {
    let call = scope.macro_invoc(node(AstKind::MacroCall, 9));
    assert!(rt; call.is_some());
    assert!(rt; scope.macro_invoc(node(AstKind::MacroCall, 10)).is_none());
    let mut calls = scope.all_macro_calls();
    assert!(rt; calls.next() == call);
    assert!(rt; calls.next().is_none());
    Ok(())
}

fn notes(rt: &impl Abort, map: &DefMap) -> Result<(), Fail> {
    let at_root = map.scope(0).ok_or("the root")?;
    notes_calls(rt, at_root)?;
    notes_derives(rt, at_root)?;
    notes_one_call(rt, map.scope(1).ok_or("the module")?)
}

/// What is resolved is noted in the module of its item.
#[test]
fn calls_attributes_and_derives(rt: HostRuntime) -> Result<(), Fail> {
    let found = collected_over::<Runs>(rt.alloc(), &[("a.rs", CALLS)])?;
    notes(&rt, &found.map)
}

/// `macro Clone {} #[derive(Clone)] struct S;`, of which the macro is a builtin one.
const DERIVED: &str = r#"{"do":"set file","file":"a.rs","unit":{"nodes":[
{"kind":"MacroDef","id":[1,0],"name":"Clone","text":"","expander":"builtin_derive"},
{"kind":"Struct","id":[2,0],"name":"S","attrs":[{"path":"derive","paths":["Clone"]}]}]}}"#;

fn lists_one_impl(rt: &impl Abort, map: &DefMap) -> Result<(), Fail> {
    let impls = map.scope(0).ok_or("the root")?.builtin_derive_impls();
    assert!(rt; impls.len() == 1);
    let found = impls.first().ok_or("an impl")?;
    assert!(rt; (found.derive_attr_id, found.derive_index) == (AttrId(0), 0));
    let of_struct = match found.adt {
        AdtId::StructId(id) => id.loc.id.hash == 2,
        _ => false,
    };
    assert!(rt; of_struct);
    Ok(())
}

/// Its one path is noted, and it is no call.
fn notes_one_path(rt: &impl Abort, map: &DefMap) -> Result<(), Fail> {
    let scope = map.scope(0).ok_or("the root")?;
    let (item, attributes) = scope.derive_macro_invocs().next().ok_or("no item")?;
    assert!(rt; *item == node(AstKind::Struct, 2));
    assert!(rt; attributes.as_slice().len() == 1);
    let attribute = attributes.as_slice().first().ok_or("no attribute")?;
    assert!(rt; matches!(attribute.derive_call_ids(), [Some(_)]));
    let mut calls = scope.all_macro_calls();
    assert!(rt; calls.next().is_none());
    Ok(())
}

/// A builtin derive is an impl that the module lists.
#[test]
fn builtin_derive_becomes_an_impl(rt: HostRuntime) -> Result<(), Fail> {
    let found = collected_over::<Runs>(rt.alloc(), &[("a.rs", DERIVED)])?;
    assert!(rt; found.map.diagnostics().as_slice().len() == 0);
    lists_one_impl(&rt, &found.map)?;
    notes_one_path(&rt, &found.map)
}
