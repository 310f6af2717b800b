//! The tables that a scope's impls, crates and macro calls fill.
use super::{FILE, adt, empty_scope, extern_crate, macro_of, node};
use either::Either;
use hir_base::ast_id::{AstId, AstKind, AttrId, MacroCallId};
use hir_base::macro_kind::{BuiltinDeriveImplId, MacroCallStyles};
use hir_scope::item_scope::ItemScope;
use hir_scope::item_scope::macro_calls::DeriveAttribute;
use std::alloc::{AllocError, Global};
use std::fmt::Write;
use std::process::Abort;
use std::test::Fail;

/// The node of a struct.
fn item(number: u16) -> AstId {
    AstId {
        file_id: FILE,
        block: None,
        kind: AstKind::Struct,
        id: node(number),
    }
}

fn derived(number: u16) -> BuiltinDeriveImplId {
    BuiltinDeriveImplId {
        adt: adt(number),
        derive: macro_of(number, MacroCallStyles::DERIVE),
        derive_attr_id: AttrId(1),
        derive_index: 0,
    }
}

fn note_impl(rt: &impl Abort, scope: &mut ItemScope) -> Result<(), Fail> {
    scope.define_builtin_derive_impl(derived(1))?;
    assert!(rt; scope.builtin_derive_impls() == [derived(1)].as_slice());
    Ok(())
}

fn note_crate(rt: &impl Abort, scope: &mut ItemScope) -> Result<(), Fail> {
    scope.define_extern_crate_decl(extern_crate(1))?;
    assert!(rt; scope.extern_crate_decls() == [extern_crate(1)].as_slice());
    Ok(())
}

/// Notes calls of an attribute and of a macro, and asserts each.
fn note_calls(rt: &impl Abort, scope: &mut ItemScope) -> Result<(), Fail> {
    scope.add_attr_macro_invoc(item(1), MacroCallId(1))?;
    scope.add_macro_invoc(item(2), MacroCallId(2))?;
    let mut attributes = scope.attr_macro_invocs();
    assert!(rt; attributes.next() == Some((&item(1), &MacroCallId(1))));
    assert!(rt; attributes.next().is_none());
    assert!(rt; scope.macro_invoc(item(2)) == Some(MacroCallId(2)));
    assert!(rt; scope.macro_invoc(item(1)).is_none());
    Ok(())
}

/// Notes an attribute of two paths, and what the second became.
fn note_derive(rt: &impl Abort, alloc: Global, scope: &mut ItemScope) -> Result<(), Fail> {
    let of = item(1);
    let paths = Vec::from_array(alloc, [None, None])?;
    scope.init_derive_attribute(of, AttrId(1), MacroCallId(1), paths)?;
    assert!(rt; scope.has_derive_slot(of, AttrId(1), 1));
    scope.set_derive_macro_invoc(of, Either::Left(MacroCallId(2)), AttrId(1), 1);
    Ok(())
}

/// Asserts what the attribute and its paths became.
fn is_derive(attribute: &DeriveAttribute) -> bool {
    let calls = [None, Some(Either::Left(MacroCallId(2)))];
    attribute.attr_call_id() == MacroCallId(1) && attribute.derive_call_ids() == calls.as_slice()
}

/// The first attribute of the first item that has one, where it is this item.
fn first_derive(scope: &ItemScope, of: AstId) -> Option<&DeriveAttribute> {
    match scope.derive_macro_invocs().next() {
        Some((first, attributes)) if *first == of => attributes.as_slice().first(),
        _ => None,
    }
}

fn has_derive(rt: &impl Abort, scope: &ItemScope) {
    let is_first = match first_derive(scope, item(1)) {
        Some(attribute) => is_derive(attribute),
        None => false,
    };
    assert!(rt; is_first);
    assert!(rt; scope.derive_macro_invoc(item(1), AttrId(1)) == Some(MacroCallId(1)));
    assert!(rt; scope.derive_macro_invoc(item(1), AttrId(2)).is_none());
}

fn note_each(rt: &impl Abort, alloc: Global, scope: &mut ItemScope) -> Result<(), Fail> {
    note_impl(rt, scope)?;
    note_crate(rt, scope)?;
    note_calls(rt, scope)?;
    note_derive(rt, alloc, scope)?;
    has_derive(rt, scope);
    Ok(())
}

/// Impls of builtin derives, extern crates, calls and attributes of derives.
#[test]
fn each_table(rt: HostRuntime) -> Result<(), Fail> {
    let alloc = rt.alloc();
    let mut scope = empty_scope(alloc)?;
    note_each(&rt, alloc, &mut scope)
}

/// A path of a `derive` that is a builtin one's, and one that a call stands for.
fn note_paths(alloc: Global, scope: &mut ItemScope) -> Result<(), Fail> {
    let paths = Vec::from_array(
        alloc,
        [
            Some(Either::Right(derived(1))),
            Some(Either::Left(MacroCallId(3))),
        ],
    )?;
    scope.init_derive_attribute(item(1), AttrId(4), MacroCallId(9), paths)?;
    scope.add_attr_macro_invoc(item(1), MacroCallId(1))?;
    scope.add_macro_invoc(item(2), MacroCallId(2))?;
    Ok(())
}

fn numbers_of_calls(alloc: Global, scope: &ItemScope) -> Result<String, AllocError> {
    let mut text = String::new(alloc);
    for call in scope.all_macro_calls() {
        let number = call.0;
        write!(text, "{number} ")?;
    }
    Ok(text)
}

fn has_calls(rt: &impl Abort, alloc: Global, scope: &ItemScope) -> Result<(), AllocError> {
    let text = numbers_of_calls(alloc, scope)?;
    assert_eq!(rt; text.as_str(), "2 1 3 ");
    let mut calls = scope.iter_macro_invoc();
    assert!(rt; calls.next() == Some((&item(2), &MacroCallId(2))));
    assert!(rt; calls.next().is_none());
    let has_attribute = match first_derive(scope, item(1)) {
        Some(attribute) => attribute.attr_id() == AttrId(4),
        None => false,
    };
    assert!(rt; has_attribute);
    Ok(())
}

fn note_and_have_calls(rt: &impl Abort, alloc: Global, scope: &mut ItemScope) -> Result<(), Fail> {
    note_paths(alloc, scope)?;
    Ok(has_calls(rt, alloc, scope)?)
}

/// Calls come before those of attributes, and these before what derives became; a builtin derive is no call.
#[test]
fn all_calls(rt: HostRuntime) -> Result<(), Fail> {
    let alloc = rt.alloc();
    let mut scope = empty_scope(alloc)?;
    note_and_have_calls(&rt, alloc, &mut scope)
}
