//! The items of traits and impls.

use hir_base::ast_id::AstKind;
use hir_session::{
    AssocItem, Crate, ImplItemsError, Items, ModPath, Place, Session, SyntaxId, TraitItemsError,
};
use hir_wire::{Command, SourceCall, SourceCallKind, SourceKind, read_command};
use std::alloc::Global;
use std::process::Abort;
use std::test::Fail;

const CRATE: &str = r#"{"do":"crates","crates":[{"edition":"2021","root":"lib.rs"}]}"#;

/// `macro_rules! foo {} pub trait T { fn f(); foo!(k); type A; } struct S; impl S { fn f() {} }`
const FILE: &str = r#"{"do":"set file","file":"lib.rs","unit":{"nodes":[
{"kind":"MacroRules","id":[1,0],"name":"foo","text":"foo"},
{"kind":"Trait","id":[2,0],"name":"T","vis":"pub","items":[
    {"kind":"Fn","id":[3,0],"name":"f"},
    {"kind":"MacroCall","id":[4,0],"path":"foo","input":"k"},
    {"kind":"TypeAlias","id":[5,0],"name":"A"}]},
{"kind":"Struct","id":[6,0],"name":"S"},
{"kind":"Impl","id":[7,0],"trait":false,"items":[
    {"kind":"Fn","id":[8,0],"name":"f"}]}]}}"#;

/// `foo!(k)` expands to `fn g() {}`
const ENTRY: &str =
    r#"{"do":"set expansion","key":{"caller":0,"crate":0,"text":"foo","call":"bang","input":"k"},
"unit":{"nodes":[{"kind":"Fn","id":[1,0],"name":"g"}]}}"#;

/// A session over the file and the entry, refreshed.
fn refreshed(alloc: Global) -> Result<Session, Fail> {
    let Ok(Command::Crates(crates)) = read_command(alloc, CRATE.as_bytes()) else {
        return Err(Fail::new("crates"));
    };
    let mut session = Session::new(alloc, crates)?;
    for line in [FILE, ENTRY] {
        let Ok(Command::Edit(edit)) = read_command(alloc, line.as_bytes()) else {
            return Err(Fail::new("an edit"));
        };
        session.apply(alloc, edit)?;
    }
    session.refresh(alloc)?;
    Ok(session)
}

const CALL: SourceCall = SourceCall {
    node: AstKind::MacroCall,
    id: SyntaxId { hash: 4, index: 0 },
    kind: SourceCallKind::FnLike,
};

/// The name of an item, the kind and the number of its node, and the calls around it.
type Row = (&'static str, AstKind, u16, &'static [SourceCall]);

/// What the call expands to stands in its place.
const OF_TRAIT: [Row; 3] = [
    ("f", AstKind::Fn, 3, &[]),
    ("g", AstKind::Fn, 1, &[CALL]),
    ("A", AstKind::TypeAlias, 5, &[]),
];

const OF_IMPL: [Row; 1] = [("f", AstKind::Fn, 8, &[])];

fn is_item(rt: &impl Abort, item: &AssocItem, row: &Row) {
    let (name, kind, hash, calls) = *row;
    assert!(rt; item.name.as_str() == name, "{name}");
    assert!(rt; item.def.kind == SourceKind::Node(kind), "{name}");
    assert!(rt; item.def.id == (SyntaxId { hash, index: 0 }), "{name}");
    assert!(rt; item.def.source.calls.as_slice() == calls, "{name}");
}

/// These items, and nothing that is wrong.
fn are_items(rt: &impl Abort, found: &Items, rows: &[Row]) -> Result<(), Fail> {
    let mut left = found.items.as_slice().iter();
    for row in rows {
        is_item(rt, left.next().ok_or("another item")?, row);
    }
    assert!(rt; left.next().is_none());
    assert!(rt; found.diagnostics.as_slice().len() == 0);
    Ok(())
}

/// The one call of the trait.
fn has_the_call(rt: &impl Abort, found: &Items) -> Result<(), Fail> {
    let calls = found.calls.as_slice();
    assert!(rt; calls.len() == 1);
    let call = calls.first().ok_or("the call")?;
    assert!(rt; call.item.id == CALL.id);
    assert!(rt; call.kind == CALL.kind);
    Ok(())
}

fn trait_is_listed(rt: &impl Abort, alloc: Global, session: &mut Session) -> Result<(), Fail> {
    let root = Place::root(alloc, Crate(0));
    let path = ModPath::parse(alloc, "T")?;
    let found = session.trait_items(alloc, &root, &path)?;
    are_items(rt, &found, &OF_TRAIT)?;
    has_the_call(rt, &found)
}

fn struct_is_refused(rt: &impl Abort, alloc: Global, session: &mut Session) -> Result<(), Fail> {
    let root = Place::root(alloc, Crate(0));
    let path = ModPath::parse(alloc, "S")?;
    let refusal = session.trait_items(alloc, &root, &path);
    assert!(rt; matches!(refusal, Err(TraitItemsError::NotATrait)));
    Ok(())
}

/// The items of a trait, with those of a call in it; a struct is none.
#[test]
fn items_of_a_trait(rt: HostRuntime) -> Result<(), Fail> {
    let mut session = refreshed(rt.alloc())?;
    trait_is_listed(&rt, rt.alloc(), &mut session)?;
    struct_is_refused(&rt, rt.alloc(), &mut session)
}

fn impl_is_listed(rt: &impl Abort, alloc: Global, session: &mut Session) -> Result<(), Fail> {
    let root = Place::root(alloc, Crate(0));
    let found = session.impl_items(alloc, &root, 0)?;
    assert!(rt; found.calls.as_slice().len() == 0);
    are_items(rt, &found, &OF_IMPL)
}

fn second_is_refused(rt: &impl Abort, alloc: Global, session: &mut Session) {
    let root = Place::root(alloc, Crate(0));
    let refusal = session.impl_items(alloc, &root, 1);
    assert!(rt; matches!(refusal, Err(ImplItemsError::NoSuchImpl)));
}

/// The items of the module's first impl, which is its only one.
#[test]
fn items_of_an_impl(rt: HostRuntime) -> Result<(), Fail> {
    let mut session = refreshed(rt.alloc())?;
    impl_is_listed(&rt, rt.alloc(), &mut session)?;
    second_is_refused(&rt, rt.alloc(), &mut session);
    Ok(())
}
