//! The files of modules.
use super::{Runs, STRUCT};
use hir_collector_fixtures::crates::collected_over;
use std::alloc::Global;
use std::process::Abort;
use std::test::Fail;

/// `mod a;`
const MOD_A: &str = r#"{"do":"set file","file":"a.rs","unit":{"nodes":[
{"kind":"Module","id":[1,0],"name":"m","vis":"pub"}]}}"#;

/// `mod a { mod b; }`
const MOD_IN_MOD: &str = r#"{"do":"set file","file":"a.rs","unit":{"nodes":[
{"kind":"Module","id":[1,0],"name":"m","nodes":[
    {"kind":"Module","id":[2,0],"name":"n"}]}]}}"#;

/// `#[path = "x/y.rs"] mod a;`
const MOD_BY_PATH: &str = r#"{"do":"set file","file":"a.rs","unit":{"nodes":[
{"kind":"Module","id":[1,0],"name":"m","attrs":[{"path":"path","literal":"x/y.rs"}]}]}}"#;

/// `mod b;`
const MOD_B: &str = r#"{"do":"set file","file":"b.rs","unit":{"nodes":[
{"kind":"Module","id":[1,0],"name":"n"}]}}"#;

/// `#![cfg(false)]`
const DISABLED: &str =
    r#"{"do":"set file","file":"b.rs","unit":{"attrs":[{"path":"cfg","cfg":false}],"nodes":[]}}"#;

/// Files, how many modules they make, how many files are asked for, and how many diagnostics there are.
type FileRow = (
    &'static str,
    &'static [(&'static str, &'static str)],
    usize,
    usize,
    usize,
);

const FILE_ROWS: [FileRow; 8] = [
    (
        "beside",
        &[("a.rs", MOD_A), ("m.rs", STRUCT), ("m/mod.rs", STRUCT)],
        2,
        2,
        0,
    ),
    (
        "in its directory",
        &[("a.rs", MOD_A), ("m/mod.rs", STRUCT)],
        2,
        3,
        0,
    ),
    ("nowhere", &[("a.rs", MOD_A)], 2, 3, 1),
    (
        "in an inline module",
        &[
            ("a.rs", MOD_IN_MOD),
            ("m/n.rs", MOD_B),
            ("m/n/n.rs", STRUCT),
        ],
        4,
        3,
        0,
    ),
    (
        "by its path",
        &[("a.rs", MOD_BY_PATH), ("x/y.rs", MOD_B), ("x/n.rs", STRUCT)],
        3,
        3,
        0,
    ),
    (
        "disabled at its top",
        &[("a.rs", MOD_A), ("m.rs", DISABLED)],
        1,
        2,
        1,
    ),
    (
        "beside the declaring file",
        &[("a.rs", MOD_A), ("m.rs", MOD_B), ("m/n.rs", STRUCT)],
        3,
        3,
        0,
    ),
    (
        "not beside it",
        &[("a.rs", MOD_A), ("m.rs", MOD_B), ("n.rs", STRUCT)],
        3,
        4,
        1,
    ),
];

fn makes_modules(rt: &impl Abort, alloc: Global, row: &FileRow) -> Result<(), Fail> {
    let (label, files, modules, asked, diagnostics) = *row;
    let found = collected_over::<Runs>(alloc, files)?;
    assert!(rt; found.map.modules().len() == modules, "{label}");
    assert!(rt; found.asked.own().len() == asked, "{label}");
    assert!(rt;
        found.map.diagnostics().as_slice().len() == diagnostics,
        "{label}"
    );
    Ok(())
}

/// A module's items are in the first of its files that is there, and each file that was looked for is asked for.
#[test]
fn files_of_modules(rt: HostRuntime) -> Result<(), Fail> {
    for row in &FILE_ROWS {
        makes_modules(&rt, rt.alloc(), row)?;
    }
    Ok(())
}
