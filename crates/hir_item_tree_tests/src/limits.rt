//! Limits that no text of a source reaches: paths and nodes that are built.

use crate::units::{is_text, source_of};
use hir_base::mod_path::{ModPath, PathKind};
use hir_base::name::Name;
use hir_item_tree::check::{CheckError, check};
use hir_item_tree::raw_visibility::{RawVisibility, VisibilityExplicitness};
use hir_item_tree::source::{Node, NodeKind, Source};
use smallvec::SmallVec;
use std::alloc::Global;
use std::process::Abort;
use std::test::Fail;

/// `pub(in crate::a::a:: ..)`, with so many segments behind `crate`.
fn visible_in(alloc: Global, segments: u32) -> Result<RawVisibility, Fail> {
    let mut path = SmallVec::new(alloc);
    for _ in 0..segments {
        path.push(Name::new(alloc, "a")?)?;
    }
    Ok(RawVisibility::Module(
        ModPath::from_segments(PathKind::Crate, path),
        VisibilityExplicitness::Explicit,
    ))
}

/// Gives a struct so many fields, and another item a visibility of as many segments.
fn enlarge(node: &mut Node, alloc: Global, count: u32) -> Result<(), Fail> {
    if let NodeKind::Struct { fields, .. } = &mut node.kind {
        for _ in 0..count {
            fields.push(RawVisibility::Public)?;
        }
    } else {
        node.vis = visible_in(alloc, count)?;
    }
    Ok(())
}

fn enlarge_last(source: &mut Source, alloc: Global, count: u32) -> Result<(), Fail> {
    if let Source::Unit(unit) = source {
        if let Some(node) = unit.nodes.last_mut() {
            enlarge(node, alloc, count)?;
        }
    }
    Ok(())
}

/// What a source is refused for.
fn refusal(alloc: Global, source: &Source) -> Result<String, Fail> {
    match check(alloc, source) {
        Ok(()) => Ok(String::from_str(alloc, "none")?),
        Err(CheckError::TooLarge(limit)) => Ok(format!(in alloc; "too large: {limit}")?),
        Err(CheckError::DuplicateId { .. }) => Ok(String::from_str(alloc, "duplicate")?),
        Err(CheckError::Memory) => Ok(String::from_str(alloc, "memory")?),
    }
}

/// What a unit is refused for, the last node of which is enlarged.
fn refused(alloc: Global, unit: &str, count: u32) -> Result<String, Fail> {
    let mut source = source_of(alloc, unit)?;
    enlarge_last(&mut source, alloc, count)?;
    refusal(alloc, &source)
}

/// `fn f() {} struct S(..);`.
const STRUCT: &str =
    r#"{"nodes":[{"kind":"Fn","id":[1,0],"name":"f"},{"kind":"Struct","id":[1,0],"vis":"pub","name":"S","shape":"tuple"}]}"#;

/// A unit, how far its last node is enlarged, and what it is refused for.
const ROWS: &[(&str, &str, u32, &str)] = &[
    (
        "64 segments",
        r#"{"nodes":[{"kind":"Fn","id":[1,1],"name":"f"}]}"#,
        64,
        "none",
    ),
    (
        "65 segments",
        r#"{"nodes":[{"kind":"Fn","id":[1,1],"name":"f"}]}"#,
        65,
        "too large: path",
    ),
    ("1,000,000 nodes and fields", STRUCT, 999998, "none"),
    (
        "1,000,001 nodes and fields",
        STRUCT,
        999999,
        "too large: nodes",
    ),
    (
        "a limit before a duplicate",
        r#"{"nodes":[{"kind":"Fn","id":[1,0],"name":"f"},{"kind":"Fn","id":[1,0],"name":"f"}]}"#,
        65,
        "too large: path",
    ),
    (
        "a path before an index",
        r#"{"nodes":[{"kind":"Fn","id":[1,2048],"name":"f"}]}"#,
        65,
        "too large: path",
    ),
    (
        "an index before the nodes",
        r#"{"nodes":[{"kind":"TypeAlias","id":[1,2048],"name":"T"},{"kind":"Struct","id":[0,0],"name":"S"}]}"#,
        1000000,
        "too large: index",
    ),
    (
        "the nodes before modules that are 33 deep",
        r#"{"nodes":[{"kind":"Module","id":[0,0],"name":"m","nodes":[{"kind":"Module","id":[0,0],"name":"m","nodes":[{"kind":"Module","id":[0,0],"name":"m","nodes":[{"kind":"Module","id":[0,0],"name":"m","nodes":[{"kind":"Module","id":[0,0],"name":"m","nodes":[{"kind":"Module","id":[0,0],"name":"m","nodes":[{"kind":"Module","id":[0,0],"name":"m","nodes":[{"kind":"Module","id":[0,0],"name":"m","nodes":[{"kind":"Module","id":[0,0],"name":"m","nodes":[{"kind":"Module","id":[0,0],"name":"m","nodes":[{"kind":"Module","id":[0,0],"name":"m","nodes":[{"kind":"Module","id":[0,0],"name":"m","nodes":[{"kind":"Module","id":[0,0],"name":"m","nodes":[{"kind":"Module","id":[0,0],"name":"m","nodes":[{"kind":"Module","id":[0,0],"name":"m","nodes":[{"kind":"Module","id":[0,0],"name":"m","nodes":[{"kind":"Module","id":[0,0],"name":"m","nodes":[{"kind":"Module","id":[0,0],"name":"m","nodes":[{"kind":"Module","id":[0,0],"name":"m","nodes":[{"kind":"Module","id":[0,0],"name":"m","nodes":[{"kind":"Module","id":[0,0],"name":"m","nodes":[{"kind":"Module","id":[0,0],"name":"m","nodes":[{"kind":"Module","id":[0,0],"name":"m","nodes":[{"kind":"Module","id":[0,0],"name":"m","nodes":[{"kind":"Module","id":[0,0],"name":"m","nodes":[{"kind":"Module","id":[0,0],"name":"m","nodes":[{"kind":"Module","id":[0,0],"name":"m","nodes":[{"kind":"Module","id":[0,0],"name":"m","nodes":[{"kind":"Module","id":[0,0],"name":"m","nodes":[{"kind":"Module","id":[0,0],"name":"m","nodes":[{"kind":"Module","id":[0,0],"name":"m","nodes":[{"kind":"Module","id":[0,0],"name":"m","nodes":[{"kind":"Module","id":[0,0],"name":"m","nodes":[]}]}]}]}]}]}]}]}]}]}]}]}]}]}]}]}]}]}]}]}]}]}]}]}]}]}]}]}]}]}]}]}]},{"kind":"Struct","id":[1,0],"name":"S"}]}"#,
        1000000,
        "too large: nodes",
    ),
];

fn are_refused(
    rt: &impl Abort,
    alloc: Global,
    rows: &[(&str, &str, u32, &str)],
) -> Result<(), Fail> {
    for &(row, unit, count, expected) in rows {
        let text = refused(alloc, unit, count)?;
        is_text(rt, row, text.as_str(), expected);
    }
    Ok(())
}

/// Each limit at it and one past, and which refusal comes first.
#[test]
fn refusals(rt: HostRuntime) -> Result<(), Fail> {
    are_refused(&rt, rt.alloc(), ROWS)?;
    let broken = refusal(rt.alloc(), &Source::Broken)?;
    is_text(&rt, "broken", broken.as_str(), "none");
    Ok(())
}
