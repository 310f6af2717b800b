//! A crate's edition and what its attributes say, beside its calls.

use crate::calls::{begun, edit};
use hir_def_map::nameres::DefMap;
use hir_session::{Crate, Edition, Name, Session};
use std::alloc::Global;
use std::process::Abort;
use std::test::Fail;

/// Of depth 4 at most, and with other attributes.
const SHALLOW: &str = r#"{"do":"crates","crates":[{"edition":"2021","root":"lib.rs","attrs":[
{"path":"recursion_limit","literal":"4"},{"path":"no_core"},{"path":"no_std"},{"path":"feature","paths":["register_tool"]}]}]}"#;

/// `macro_rules! foo {} foo!(0);`
const COUNTING: &str = r#"{"do":"set file","file":"lib.rs","unit":{"nodes":[
{"kind":"MacroRules","id":[1,0],"name":"foo","text":"foo"},
{"kind":"MacroCall","id":[2,0],"path":"foo","input":"0"}]}}"#;

/// A session over the crate, refreshed.
fn refreshed(alloc: Global) -> Result<Session, Fail> {
    let mut session = begun(alloc, SHALLOW)?;
    edit(alloc, &mut session, COUNTING)?;
    session.refresh(alloc)?;
    Ok(session)
}

fn has_attributes(rt: &impl Abort, alloc: Global, map: &DefMap) -> Result<(), Fail> {
    assert!(rt; map.edition() == Edition::Edition2021);
    assert!(rt; map.recursion_limit() == 4);
    assert!(rt; map.is_no_std(), "without the standard library");
    assert!(rt; map.is_no_core(), "and without the core library");
    let listed = Name::new(alloc, "register_tool")?;
    assert!(rt; map.has_feature(&listed), "a feature");
    assert!(rt; map.features().len() == 1, "and no other");
    assert!(rt;
        map.registered_tools().len() == 5,
        "the tools that are always there"
    );
    Ok(())
}

/// A crate's edition and what its attributes say stand beside its calls.
#[test]
fn attributes_beside_calls(rt: HostRuntime) -> Result<(), Fail> {
    let session = refreshed(rt.alloc())?;
    match session.def_map(Crate(0)) {
        Some(map) => has_attributes(&rt, rt.alloc(), map),
        None => Err("a crate that is stale")?,
    }
}
