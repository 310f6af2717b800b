//! Crates that are given other data by calls: what is refused, and what is stale and resolved anew.

use crate::calls::{begun, edit};
use hir_base::cfg::CfgAtom;
use hir_session::{Crate, Edit, EditError, Edition, Name, Place, Session, Status};
use hir_wire::{Dependencies, Dependency};
use std::alloc::Global;
use std::process::Abort;
use std::test::Fail;

/// Two crates; neither depends on the other.
const CRATES: &str =
    r#"{"do":"crates","crates":[{"edition":"2021","root":"a.rs"},{"edition":"2021","root":"b.rs"}]}"#;

/// `#[cfg(x)] pub struct S;`
const STRUCT: &str = r#"{"do":"set file","file":"a.rs","unit":{"nodes":[
{"kind":"Struct","id":[1,0],"name":"S","vis":"pub","attrs":[{"path":"cfg","cfg":"x"}]}]}}"#;

/// `use zero::S;`
const IMPORT: &str = r#"{"do":"set file","file":"b.rs","unit":{"nodes":[
{"kind":"Use","id":[1,0],"tree":{"single":"zero::S"}}]}}"#;

/// What a crate is given, why that is refused, and which of crates 0 and 1 are stale behind it.
struct Row {
    label: &'static str,
    krate: u32,
    edition: Edition,
    /// The options that are set.
    options: &'static [&'static str],
    /// The crate on which it depends as `zero`.
    zero: Option<u32>,
    refused: Option<EditError>,
    stale: [bool; 2],
}

/// In turn, in one session, with a refresh behind each.
const ROWS: [Row; 10] = [
    Row {
        label: "what it has",
        krate: 1,
        edition: Edition::Edition2021,
        options: &[],
        zero: None,
        refused: None,
        stale: [false, false],
    },
    Row {
        label: "a dependency, of a crate on which none depends",
        krate: 1,
        edition: Edition::Edition2021,
        options: &[],
        zero: Some(0),
        refused: None,
        stale: [false, true],
    },
    Row {
        label: "an option, of a crate on which one depends",
        krate: 0,
        edition: Edition::Edition2021,
        options: &["x"],
        zero: None,
        refused: None,
        stale: [true, true],
    },
    Row {
        label: "the same options, of which one is listed twice",
        krate: 0,
        edition: Edition::Edition2021,
        options: &["x", "x"],
        zero: None,
        refused: None,
        stale: [false, false],
    },
    Row {
        label: "an option that nothing asks for",
        krate: 0,
        edition: Edition::Edition2021,
        options: &["x", "y"],
        zero: None,
        refused: None,
        stale: [true, true],
    },
    Row {
        label: "another edition",
        krate: 0,
        edition: Edition::Edition2015,
        options: &["x", "y"],
        zero: None,
        refused: None,
        stale: [true, true],
    },
    Row {
        label: "itself as a dependency",
        krate: 0,
        edition: Edition::Edition2021,
        options: &[],
        zero: Some(0),
        refused: Some(EditError::DependencyOrder(Crate(0))),
        stale: [false, false],
    },
    Row {
        label: "no such crate",
        krate: 2,
        edition: Edition::Edition2021,
        options: &[],
        zero: None,
        refused: Some(EditError::UnknownCrate),
        stale: [false, false],
    },
    Row {
        label: "no dependency, of the crate that had one",
        krate: 1,
        edition: Edition::Edition2021,
        options: &[],
        zero: None,
        refused: None,
        stale: [false, true],
    },
    Row {
        label: "no option, of a crate on which none depends",
        krate: 0,
        edition: Edition::Edition2021,
        options: &[],
        zero: None,
        refused: None,
        stale: [true, false],
    },
];

fn options(alloc: Global, names: &[&str]) -> Result<Vec<CfgAtom>, Fail> {
    let mut options = Vec::new(alloc);
    for name in names {
        options.push(CfgAtom::Flag(Name::new(alloc, *name)?))?;
    }
    Ok(options)
}

fn dependencies(alloc: Global, zero: Option<u32>) -> Result<Dependencies, Fail> {
    let mut dependencies = Vec::new(alloc);
    if let Some(number) = zero {
        let name = Name::new(alloc, "zero")?;
        dependencies.push(Dependency {
            krate: Crate(number),
            name,
            prelude: true,
        })?;
    }
    Ok(Dependencies::new(dependencies))
}

/// What comes of an edit.
fn applied(alloc: Global, session: &mut Session, row: &Row) -> Result<Option<EditError>, Fail> {
    let given = Edit::SetCrate {
        krate: Crate(row.krate),
        edition: row.edition,
        attrs: Vec::new(alloc),
        cfg: options(alloc, row.options)?,
        deps: dependencies(alloc, row.zero)?,
    };
    match session.apply(alloc, given) {
        Ok(()) => Ok(None),
        Err(why) => Ok(Some(why)),
    }
}

fn is_stale(alloc: Global, session: &Session, number: u32) -> bool {
    session.status(&Place::root(alloc, Crate(number))) == Status::Stale
}

fn is_as_told(
    rt: &impl Abort,
    alloc: Global,
    session: &mut Session,
    row: &Row,
) -> Result<(), Fail> {
    assert!(rt;
        applied(alloc, session, row)? == row.refused,
        "{}",
        row.label
    );
    assert!(rt;
        is_stale(alloc, session, 0) == row.stale[0],
        "{}: crate 0",
        row.label
    );
    assert!(rt;
        is_stale(alloc, session, 1) == row.stale[1],
        "{}: crate 1",
        row.label
    );
    session.refresh(alloc)?;
    assert!(rt;
        !is_stale(alloc, session, 0) && !is_stale(alloc, session, 1),
        "{}",
        row.label
    );
    Ok(())
}

#[test]
fn other_data_by_calls(rt: HostRuntime) -> Result<(), Fail> {
    let mut session = begun(rt.alloc(), CRATES)?;
    edit(rt.alloc(), &mut session, STRUCT)?;
    edit(rt.alloc(), &mut session, IMPORT)?;
    session.refresh(rt.alloc())?;
    for row in &ROWS {
        is_as_told(&rt, rt.alloc(), &mut session, row)?;
    }
    Ok(())
}
