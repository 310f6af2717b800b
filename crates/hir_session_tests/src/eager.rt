//! Calls of eager macros: the paths in their input are resolved first.

use crate::calls::{begun, edit};
use hir_base::limit::Limit;
use hir_base::text::Text;
use hir_session::{
    CallKey, CallStyle, Crate, DiagnosticKind, EditError, ExpansionEntry, ExpansionKey, MacroText,
    ModPath, Name, Node, NodeKind, Session, Source, SyntaxId, Unit,
};
use std::alloc::Global;
use std::process::Abort;
use std::test::Fail;

const CRATE: &str = r#"{"do":"crates","crates":[{"edition":"2021","root":"lib.rs"}]}"#;

/// `macro_rules! cat {} macro_rules! hi {} cat!(x);`, where `cat` is eager.
const FILE: &str = r#"{"do":"set file","file":"lib.rs","unit":{"nodes":[
{"kind":"MacroRules","id":[1,0],"name":"cat","text":"C","expander":"builtin_eager"},
{"kind":"MacroRules","id":[2,0],"name":"hi","text":"H"},
{"kind":"MacroCall","id":[3,0],"path":"cat","input":"x"}]}}"#;

fn makro(alloc: Global, text: &str) -> Result<MacroText, Fail> {
    Ok(MacroText {
        krate: Crate(0),
        text: Text::from_str(alloc, text)?,
    })
}

/// What `cat!(x);` depends on before its paths are resolved.
fn call(alloc: Global) -> Result<CallKey, Fail> {
    Ok(CallKey {
        caller: Crate(0),
        called: makro(alloc, "C")?,
        call: CallStyle::Bang,
        input: Text::from_str(alloc, "x")?,
    })
}

/// And once its only path has reached `hi`.
fn grown(alloc: Global) -> Result<ExpansionKey, Fail> {
    Ok(ExpansionKey {
        caller: Crate(0),
        called: makro(alloc, "C")?,
        call: CallStyle::Bang,
        input: Text::from_str(alloc, "x")?,
        reached: vec![in alloc; makro(alloc, "H")?]?,
    })
}

/// The same path so many times.
fn paths(alloc: Global, path: &str, count: usize) -> Result<Vec<ModPath>, Fail> {
    let mut paths = Vec::new(alloc);
    for _ in 0..count {
        paths.push(ModPath::parse(alloc, path)?)?;
    }
    Ok(paths)
}

fn ask_first(alloc: Global, session: &mut Session, path: &str) -> Result<(), Fail> {
    let paths = paths(alloc, path, 1)?;
    session.set_inner_paths(alloc, call(alloc)?, paths, None)?;
    Ok(())
}

/// The call expands to `fn f() {}`.
fn expand(alloc: Global, session: &mut Session) -> Result<(), Fail> {
    let name = Name::new(alloc, "f")?;
    let body = String::new(alloc);
    let id = SyntaxId { hash: 1, index: 0 };
    let node = Node::new(alloc, id, NodeKind::Fn { name, body });
    let entry = ExpansionEntry {
        source: Source::Unit(Unit::new(alloc, vec![in alloc; node]?)),
        error: None,
    };
    session.set_expansion(alloc, grown(alloc)?, entry)?;
    Ok(())
}

/// How many calls reach no macro, and how many macros have no expansion, once the session is refreshed.
fn told(alloc: Global, session: &mut Session) -> Result<(usize, usize), Fail> {
    session.refresh(alloc)?;
    let mut calls = 0usize;
    let mut macros = 0usize;
    for diagnostic in session.diagnostics(alloc, Crate(0))?.as_slice() {
        match &diagnostic.kind {
            DiagnosticKind::UnresolvedMacroCall { .. } => calls = calls.saturating_add(1),
            DiagnosticKind::MacroError { .. } => macros = macros.saturating_add(1),
            _ => (),
        }
    }
    Ok((calls, macros))
}

fn begun_with(alloc: Global, path: &str) -> Result<Session, Fail> {
    let mut session = begun(alloc, CRATE)?;
    edit(alloc, &mut session, FILE)?;
    ask_first(alloc, &mut session, path)?;
    Ok(session)
}

fn is_expanded(rt: &impl Abort, alloc: Global, session: &mut Session) -> Result<(), Fail> {
    assert!(rt;
        told(alloc, session)? == (0, 1),
        "what it depends on now has no expansion"
    );
    expand(alloc, session)?;
    assert!(rt; told(alloc, session)? == (0, 0));
    Ok(())
}

/// A call is expanded once its path reaches a macro.
#[test]
fn reached(rt: HostRuntime) -> Result<(), Fail> {
    let mut session = begun_with(rt.alloc(), "hi")?;
    is_expanded(&rt, rt.alloc(), &mut session)
}

/// One whose path reaches nothing is told.
#[test]
fn missing(rt: HostRuntime) -> Result<(), Fail> {
    let mut session = begun_with(rt.alloc(), "nope")?;
    assert!(rt; told(rt.alloc(), &mut session)? == (1, 0));
    Ok(())
}

/// What is answered where so many paths are asked for.
fn asked(alloc: Global, session: &mut Session, count: usize) -> Result<Option<EditError>, Fail> {
    let paths = paths(alloc, "hi", count)?;
    Ok(
        session
            .set_inner_paths(alloc, call(alloc)?, paths, None)
            .err(),
    )
}

fn are_limited(rt: &impl Abort, alloc: Global, session: &mut Session) -> Result<(), Fail> {
    assert!(rt; asked(alloc, session, 0)?.is_none());
    assert!(rt; asked(alloc, session, 1000)?.is_none());
    assert!(rt; asked(alloc, session, 1001)? == Some(EditError::TooLarge(Limit::Inner)));
    Ok(())
}

/// At most a thousand paths are taken.
#[test]
fn limit(rt: HostRuntime) -> Result<(), Fail> {
    let mut session = begun(rt.alloc(), CRATE)?;
    are_limited(&rt, rt.alloc(), &mut session)
}
