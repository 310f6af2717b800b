//! The imports that reach nothing, in the order in which they are come upon.
use super::Runs;
use hir_base::ast_id::SyntaxId;
use hir_collector_fixtures::crates::collected_over;
use hir_scope::imports::ImportOrExternCrate;
use std::alloc::{AllocError, Global};
use std::fmt::Write;
use std::process::Abort;
use std::test::Fail;

/// `use self::x as y; use self::y as x;`
const OF_EACH_OTHER: &str = r#"{"do":"set file","file":"a.rs","unit":{"nodes":[
{"kind":"Use","id":[1,0],"tree":{"single":"self::x","as":"y"}},
{"kind":"Use","id":[2,0],"tree":{"single":"self::y","as":"x"}}]}}"#;

/// `struct S; use S::*;`
const GLOB_OF_A_STRUCT: &str = r#"{"do":"set file","file":"a.rs","unit":{"nodes":[
{"kind":"Struct","id":[1,0],"name":"S","shape":"unit"},
{"kind":"Use","id":[2,0],"tree":{"glob":"S"}}]}}"#;

/// `use a::{self, b::*};`
const LEAVES_OF_A_LIST: &str = r#"{"do":"set file","file":"a.rs","unit":{"nodes":[
{"kind":"Use","id":[1,0],"tree":{"path":"a","list":[{"single":"self"},{"glob":"b"}]}}]}}"#;

/// `use b::x; extern crate nope; mod m { use c::y; } use nope::z;`
const IN_ORDER: &str = r#"{"do":"set file","file":"a.rs","unit":{"nodes":[
{"kind":"Use","id":[1,0],"tree":{"single":"b::x"}},
{"kind":"ExternCrate","id":[2,0],"name":"nope"},
{"kind":"Module","id":[3,0],"name":"m","nodes":[
    {"kind":"Use","id":[4,0],"tree":{"single":"c::y"}}]},
{"kind":"Use","id":[5,0],"tree":{"single":"nope::z"}}]}}"#;

/// A file, and what is left over: each import by its item, and of a `use` item its place there, with `*` where it is a glob.
const ROWS: [(&str, &str, &str); 4] = [
    (
        "imports_of_each_other_are_left_over",
        OF_EACH_OTHER,
        "1.0 2.0 ",
    ),
    ("glob_of_a_struct_is_left_over", GLOB_OF_A_STRUCT, "2.0* "),
    ("leaves of a list", LEAVES_OF_A_LIST, "1.1 1.2* "),
    ("in the order of the file", IN_ORDER, "1.0 2 4.0 5.0 "),
];

fn put_leaf(text: &mut String, item: SyntaxId, place: u32) -> Result<(), AllocError> {
    let number = item.hash;
    write!(text, "{number}.{place}")
}

fn put_import(text: &mut String, import: ImportOrExternCrate) -> Result<(), AllocError> {
    match import {
        ImportOrExternCrate::Import(import) => {
            put_leaf(text, import.use_.loc.id, import.idx)?;
            text.push_str(" ")
        }
        ImportOrExternCrate::Glob(glob) => {
            put_leaf(text, glob.use_.loc.id, glob.idx)?;
            text.push_str("* ")
        }
        ImportOrExternCrate::ExternCrate(id) => {
            let number = id.loc.id.hash;
            write!(text, "{number} ")
        }
    }
}

/// What is left over of a file's imports.
fn left_over(alloc: Global, line: &str) -> Result<String, Fail> {
    let found = collected_over::<Runs>(alloc, &[("a.rs", line)])?;
    let mut text = String::new(alloc);
    for import in &found.leftover {
        put_import(&mut text, *import)?;
    }
    Ok(text)
}

fn leaves_over(rt: &impl Abort, alloc: Global, row: (&str, &str, &str)) -> Result<(), Fail> {
    let (label, line, expected) = row;
    let text = left_over(alloc, line)?;
    assert!(rt; text.as_str() == expected, "{label}");
    Ok(())
}

#[test]
fn leftover_imports(rt: HostRuntime) -> Result<(), Fail> {
    for row in ROWS {
        leaves_over(&rt, rt.alloc(), row)?;
    }
    Ok(())
}
