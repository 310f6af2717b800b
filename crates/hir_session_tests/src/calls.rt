//! Calls of the library that lines stand for elsewhere: blocks, expansions, and what is kept.

use hir_base::text::Text;
use hir_session::{
    BlockPlace, CallStyle, Crate, DiagnosticKind, DiagnosticsError, Edit, EditError,
    ExpansionEntry, ExpansionKey, FilePath, MacroText, Name, NewSessionError, Node, NodeKind,
    Place, PlaceElement, QueryError, Session, Source, Status, SyntaxId, Unit,
};
use hir_wire::{Command, read_command};
use std::alloc::Global;
use std::process::Abort;
use std::test::Fail;

const CRATE: &str = r#"{"do":"crates","crates":[{"edition":"2021","root":"lib.rs"}]}"#;

/// Crate 0 depends on crate 1.
const LATE: &str = r#"{"do":"crates","crates":[
{"edition":"2021","root":"a.rs","deps":[{"crate":1,"name":"b"}]},{"edition":"2021","root":"b.rs"}]}"#;

/// `mod m {} macro_rules! foo {} foo!(k); use nope::x;`
const FILE: &str = r#"{"do":"set file","file":"lib.rs","unit":{"nodes":[
{"kind":"Module","id":[1,0],"name":"m","nodes":[]},
{"kind":"MacroRules","id":[2,0],"name":"foo","text":"F"},
{"kind":"MacroCall","id":[3,0],"path":"foo","input":"k"},
{"kind":"Use","id":[4,0],"tree":{"single":"nope::x"}}]}}"#;

/// Why a session over these crates isn't made.
fn refused(alloc: Global, line: &str) -> Result<Option<NewSessionError>, Fail> {
    let Ok(Command::Crates(crates)) = read_command(alloc, line.as_bytes()) else {
        return Err(Fail::new("another command"));
    };
    match Session::new(alloc, crates) {
        Ok(_) => Ok(None),
        Err(why) => Ok(Some(why)),
    }
}

#[test]
fn crates_out_of_order(rt: HostRuntime) -> Result<(), Fail> {
    assert!(rt; refused(rt.alloc(), LATE)? == Some(NewSessionError::DependencyOrder(Crate(0))));
    assert!(rt; refused(rt.alloc(), CRATE)?.is_none());
    Ok(())
}

/// A session over the crates that a line hands in.
pub fn begun(alloc: Global, line: &str) -> Result<Session, Fail> {
    match read_command(alloc, line.as_bytes()) {
        Ok(Command::Crates(crates)) => Ok(Session::new(alloc, crates)?),
        Ok(_) => Err("another command")?,
        Err(error) => Err(error)?,
    }
}

/// Makes the edit that a line hands in.
pub fn edit(alloc: Global, session: &mut Session, line: &str) -> Result<(), Fail> {
    match read_command(alloc, line.as_bytes()) {
        Ok(Command::Edit(edit)) => Ok(session.apply(alloc, edit)?),
        Ok(_) => Err("another command")?,
        Err(error) => Err(error)?,
    }
}

/// A session over the file.
fn session(alloc: Global) -> Result<Session, Fail> {
    let mut session = begun(alloc, CRATE)?;
    edit(alloc, &mut session, FILE)?;
    Ok(session)
}

const BLOCK: SyntaxId = SyntaxId { hash: 9, index: 0 };

fn module_m(alloc: Global, krate: Crate) -> Result<Place, Fail> {
    let step = PlaceElement::Module(Name::new(alloc, "m")?);
    Ok(Place::new(krate, vec![in alloc; step]?))
}

/// A block in the module `m` of a crate.
fn block_in(alloc: Global, krate: Crate) -> Result<BlockPlace, Fail> {
    Ok(BlockPlace {
        holder: module_m(alloc, krate)?,
        id: BLOCK,
    })
}

/// The block's root.
fn block_root(alloc: Global) -> Result<Place, Fail> {
    let mut steps = vec![in alloc; PlaceElement::Module(Name::new(alloc, "m")?)]?;
    steps.push(PlaceElement::Block(BLOCK))?;
    Ok(Place::new(Crate(0), steps))
}

/// `fn f() {}`, by a name.
fn function(alloc: Global, name: &str) -> Result<Source, Fail> {
    let name = Name::new(alloc, name)?;
    let body = String::new(alloc);
    let id = SyntaxId { hash: 1, index: 0 };
    let node = Node::new(alloc, id, NodeKind::Fn { name, body });
    Ok(Source::Unit(Unit::new(alloc, vec![in alloc; node]?)))
}

/// Whether a block in a crate that isn't there is refused.
fn is_stranger(alloc: Global, session: &mut Session) -> Result<bool, Fail> {
    let block = block_in(alloc, Crate(7))?;
    let set = session.set_block(alloc, block, function(alloc, "g")?);
    Ok(set == Err(EditError::UnknownCrate))
}

fn set_block(alloc: Global, session: &mut Session) -> Result<(), Fail> {
    let block = block_in(alloc, Crate(0))?;
    session.set_block(alloc, block, function(alloc, "g")?)?;
    Ok(())
}

/// The scopes of the block, and of the crate around it.
const BLOCK_AND_CRATE: &str =
    "(block scope)\n- g : value\n\ncrate\n- m : type\n- (legacy) foo : macro!\n\ncrate::m\n";

fn block_is_resolved(
    rt: &impl Abort,
    alloc: Global,
    session: &mut Session,
    place: &Place,
) -> Result<(), Fail> {
    assert!(rt; session.status(place) == Status::Stale);
    assert!(rt; session.block_map(place).is_none());
    let refusal = session.dump(alloc, place);
    assert!(rt; matches!(refusal, Err(QueryError::StalePlace)));
    assert!(rt; session.refresh(alloc)?.len() == 2);
    assert!(rt; session.status(place) == Status::Current);
    let map = session.block_map(place).ok_or("the block's map")?;
    assert!(rt; map.module_count() == 1);
    is_dumped(rt, alloc, session, place, BLOCK_AND_CRATE)
}

fn block_is_set(rt: &impl Abort, alloc: Global, session: &mut Session) -> Result<(), Fail> {
    let place = block_root(alloc)?;
    assert!(rt; session.status(&place) == Status::Stale);
    assert!(rt; is_stranger(alloc, session)?);
    set_block(alloc, session)?;
    block_is_resolved(rt, alloc, session, &place)
}

/// A block that is set is resolved behind its crate.
#[test]
fn block_by_calls(rt: HostRuntime) -> Result<(), Fail> {
    let mut session = session(rt.alloc())?;
    block_is_set(&rt, rt.alloc(), &mut session)
}

/// The expansion of `foo!(k);`, and what it depends on.
fn key(alloc: Global) -> Result<ExpansionKey, Fail> {
    Ok(ExpansionKey {
        caller: Crate(0),
        called: MacroText {
            krate: Crate(0),
            text: Text::from_str(alloc, "F")?,
        },
        call: CallStyle::Bang,
        input: Text::from_str(alloc, "k")?,
        reached: Vec::new(alloc),
    })
}

fn expand(alloc: Global, session: &mut Session) -> Result<(), Fail> {
    let entry = ExpansionEntry {
        source: function(alloc, "h")?,
        error: None,
    };
    session.set_expansion(alloc, key(alloc)?, entry)?;
    Ok(())
}

fn is_dumped(
    rt: &impl Abort,
    alloc: Global,
    session: &Session,
    place: &Place,
    text: &str,
) -> Result<(), Fail> {
    let found = session.dump(alloc, place)?;
    assert!(rt; found.as_str() == text);
    Ok(())
}

/// The scopes of the crate, with what its call expands to.
const EXPANDED: &str = "crate\n- h : value\n- m : type\n- (legacy) foo : macro!\n\ncrate::m\n";

fn call_is_expanded(rt: &impl Abort, alloc: Global, session: &mut Session) -> Result<(), Fail> {
    expand(alloc, session)?;
    session.refresh(alloc)?;
    let root = Place::root(alloc, Crate(0));
    is_dumped(rt, alloc, session, &root, EXPANDED)
}

/// What a call expands to is in its module.
#[test]
fn expansion_by_calls(rt: HostRuntime) -> Result<(), Fail> {
    let mut session = session(rt.alloc())?;
    call_is_expanded(&rt, rt.alloc(), &mut session)
}

/// How many diagnostics of unresolved imports there are, and how many of macros without an expansion.
fn told(alloc: Global, session: &Session) -> Result<(usize, usize), DiagnosticsError> {
    let found = session.diagnostics(alloc, Crate(0))?;
    let mut imports = 0usize;
    let mut macros = 0usize;
    for diagnostic in found.as_slice() {
        match &diagnostic.kind {
            DiagnosticKind::UnresolvedImport { .. } => imports = imports.saturating_add(1),
            DiagnosticKind::MacroError { .. } => macros = macros.saturating_add(1),
            _ => (),
        }
    }
    Ok((imports, macros))
}

fn faults_are_told(rt: &impl Abort, alloc: Global, session: &mut Session) -> Result<(), Fail> {
    assert!(rt; told(alloc, session) == Err(DiagnosticsError::StalePlace));
    session.refresh(alloc)?;
    assert!(rt; told(alloc, session) == Ok((1, 1)));
    let stranger = session.diagnostics(alloc, Crate(7));
    assert!(rt; matches!(stranger, Err(DiagnosticsError::UnknownCrate)));
    Ok(())
}

/// A crate's diagnostics, once it is resolved.
#[test]
fn diagnostics_by_calls(rt: HostRuntime) -> Result<(), Fail> {
    let mut session = session(rt.alloc())?;
    faults_are_told(&rt, rt.alloc(), &mut session)
}

/// Whether the source of a file is lent.
fn has_source(alloc: Global, session: &Session, file: &str) -> Result<bool, Fail> {
    let file = FilePath::parse(alloc, file)?;
    Ok(session.source(&file).is_some())
}

fn remove_file(alloc: Global, session: &mut Session, file: &str) -> Result<(), Fail> {
    let file = FilePath::parse(alloc, file)?;
    session.apply(alloc, Edit::RemoveFile { file })?;
    Ok(())
}

fn is_lent(rt: &impl Abort, alloc: Global, session: &mut Session) -> Result<(), Fail> {
    assert!(rt; session.crates().len() == 1);
    assert!(rt; session.files().len() == 1);
    assert!(rt; has_source(alloc, session, "lib.rs")?);
    assert!(rt; !has_source(alloc, session, "none.rs")?);
    session.refresh(alloc)?;
    remove_file(alloc, session, "none.rs")?;
    let root = Place::root(alloc, Crate(0));
    assert!(rt; session.status(&root) == Status::Current);
    Ok(())
}

/// What was handed in is lent again; removing a file that isn't there changes nothing.
#[test]
fn what_was_handed_in(rt: HostRuntime) -> Result<(), Fail> {
    let mut session = session(rt.alloc())?;
    is_lent(&rt, rt.alloc(), &mut session)
}
