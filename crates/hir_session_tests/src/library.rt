//! The session as a library.

use hir_session::{
    Answer, Crate, CrateInput, Edition, FilePath, ModPath, Name, Node, NodeKind, Place, Session,
    Shadow, Source, SyntaxId, Unit,
};
use std::alloc::Global;
use std::process::Abort;
use std::test::Fail;

/// A session over one crate, which has its root in this file.
fn session_of(alloc: Global, root: FilePath) -> Result<Session, Fail> {
    let krate = CrateInput::new(alloc, Edition::Edition2021, root);
    Ok(Session::new(alloc, vec![in alloc; krate]?)?)
}

fn area(alloc: Global) -> Result<Node, Fail> {
    let name = Name::new(alloc, "area")?;
    let id = SyntaxId { hash: 1, index: 0 };
    let body = String::new(alloc);
    Ok(Node::new(alloc, id, NodeKind::Fn { name, body }))
}

/// Sets the file to a source with one function.
fn set_source(alloc: Global, session: &mut Session, file: &FilePath) -> Result<(), Fail> {
    let unit = Unit::new(alloc, vec![in alloc; area(alloc)?]?);
    session.set_file(alloc, file.clone()?, Source::Unit(unit))?;
    Ok(())
}

fn has_page(
    rt: &impl Abort,
    alloc: Global,
    session: &Session,
    file: &FilePath,
) -> Result<(), Fail> {
    let text = session.tree_text(alloc, Crate(0), file)?;
    assert!(rt; text.as_str() == "// AstId: Fn[0001, 0]\npub(self) fn area;\n");
    Ok(())
}

fn resolves_one_crate(rt: &impl Abort, alloc: Global, session: &mut Session) -> Result<(), Fail> {
    let resolved = session.refresh(alloc)?;
    assert!(rt; resolved.len() == 1);
    Ok(())
}

fn area_of(alloc: Global, session: &Session) -> Result<Answer, Fail> {
    let root = Place::root(alloc, Crate(0));
    let path = ModPath::parse(alloc, "crate::area")?;
    Ok(session.resolve_path(alloc, &root, &path, Shadow::Other, None)?)
}

fn finds_a_value(rt: &impl Abort, alloc: Global, session: &Session) -> Result<(), Fail> {
    let answer = area_of(alloc, session)?;
    assert!(rt; answer.values.is_some(), "the function is a value");
    assert!(rt; answer.types.is_none(), "and no type");
    Ok(())
}

/// What is handed in, listed and found, in turn.
fn finds_a_function(
    rt: &impl Abort,
    alloc: Global,
    session: &mut Session,
    file: &FilePath,
) -> Result<(), Fail> {
    set_source(alloc, session, file)?;
    has_page(rt, alloc, session, file)?;
    resolves_one_crate(rt, alloc, session)?;
    finds_a_value(rt, alloc, session)
}

/// One crate with one function, and what its name stands for.
#[test]
fn a_function_is_found(rt: HostRuntime) -> Result<(), Fail> {
    let file = FilePath::parse(rt.alloc(), "lib.rs")?;
    let mut session = session_of(rt.alloc(), file.clone()?)?;
    finds_a_function(&rt, rt.alloc(), &mut session, &file)
}
