//! Traits that are imported without a name.
use super::Runs;
use hir_base::ast_id::SyntaxId;
use hir_collector_fixtures::crates::{
    collected_of, collected_over, entry, lower_collected, one_crate, world_of,
};
use hir_def_map::nameres::DefMap;
use hir_def_map::world::World;
use std::alloc::Global;
use std::process::Abort;
use std::test::Fail;

/// A file, and what its modules bind.
type DumpRow = (&'static str, &'static str, &'static str);

fn shows(rt: &impl Abort, alloc: Global, map: &DefMap, row: &DumpRow) -> Result<(), Fail> {
    let (label, _, expected) = *row;
    let text = map.dump(alloc, &World::new(alloc))?;
    assert!(rt; text.as_str() == expected, "{label}");
    Ok(())
}

/// `mod a { pub trait T {} } use a::T as _;`
const UNNAMED: &str = r#"{"do":"set file","file":"a.rs","unit":{"nodes":[
{"kind":"Module","id":[1,0],"name":"a","nodes":[
    {"kind":"Trait","id":[2,0],"name":"T","items":[],"vis":"pub"}]},
{"kind":"Use","id":[3,0],"tree":{"single":"a::T","as":"_"}}]}}"#;

/// `mod a { pub trait T {} } mod b { pub use crate::a::T as _; } mod m { use crate::b::*; } use m::*;`
const UNNAMED_PRIVATELY: &str = r#"{"do":"set file","file":"a.rs","unit":{"nodes":[
{"kind":"Module","id":[1,0],"name":"a","nodes":[
    {"kind":"Trait","id":[2,0],"name":"T","items":[],"vis":"pub"}]},
{"kind":"Module","id":[3,0],"name":"b","nodes":[
    {"kind":"Use","id":[4,0],"vis":"pub","tree":{"single":"crate::a::T","as":"_"}}]},
{"kind":"Module","id":[5,0],"name":"m","nodes":[
    {"kind":"Use","id":[6,0],"tree":{"glob":"crate::b"}}]},
{"kind":"Use","id":[7,0],"tree":{"glob":"m"}}]}}"#;

/// The same with `pub use crate::c::*;` in `m`, and `mod c { pub use crate::a::T as _; }`.
const UNNAMED_RAISED: &str = r#"{"do":"set file","file":"a.rs","unit":{"nodes":[
{"kind":"Module","id":[1,0],"name":"a","nodes":[
    {"kind":"Trait","id":[2,0],"name":"T","items":[],"vis":"pub"}]},
{"kind":"Module","id":[3,0],"name":"b","nodes":[
    {"kind":"Use","id":[4,0],"vis":"pub","tree":{"single":"crate::a::T","as":"_"}}]},
{"kind":"Module","id":[5,0],"name":"c","nodes":[
    {"kind":"Use","id":[6,0],"vis":"pub","tree":{"single":"crate::a::T","as":"_"}}]},
{"kind":"Module","id":[7,0],"name":"m","nodes":[
    {"kind":"Use","id":[8,0],"tree":{"glob":"crate::b"}},
    {"kind":"Use","id":[9,0],"vis":"pub","tree":{"glob":"crate::c"}}]},
{"kind":"Use","id":[10,0],"tree":{"glob":"m"}}]}}"#;

/// The same with two globs of one module, `use crate::b::*; pub use crate::b::*;` in `m`.
const UNNAMED_WIDENED: &str = r#"{"do":"set file","file":"a.rs","unit":{"nodes":[
{"kind":"Module","id":[1,0],"name":"a","nodes":[
    {"kind":"Trait","id":[2,0],"name":"T","items":[],"vis":"pub"}]},
{"kind":"Module","id":[3,0],"name":"b","nodes":[
    {"kind":"Use","id":[4,0],"vis":"pub","tree":{"single":"crate::a::T","as":"_"}}]},
{"kind":"Module","id":[5,0],"name":"m","nodes":[
    {"kind":"Use","id":[6,0],"tree":{"glob":"crate::b"}},
    {"kind":"Use","id":[7,0],"vis":"pub","tree":{"glob":"crate::b"}}]},
{"kind":"Use","id":[8,0],"tree":{"glob":"m"}}]}}"#;

const DUMPS: [DumpRow; 4] = [
    (
        "by an import",
        UNNAMED,
        "crate\n- _ : type (import)\n- a : type\n\ncrate::a\n- T : type\n",
    ),
    (
        "along a private glob",
        UNNAMED_PRIVATELY,
        "crate\n- a : type\n- b : type\n- m : type\n\ncrate::a\n- T : type\n\ncrate::b\n- _ : type (import)\n\ncrate::m\n- _ : type\n",
    ),
    (
        "along a private glob and a public one",
        UNNAMED_RAISED,
        "crate\n- _ : type\n- a : type\n- b : type\n- c : type\n- m : type\n\ncrate::a\n- T : type\n\ncrate::b\n- _ : type (import)\n\ncrate::c\n- _ : type (import)\n\ncrate::m\n- _ : type\n",
    ),
    (
        "along two globs of one module",
        UNNAMED_WIDENED,
        "crate\n- _ : type\n- a : type\n- b : type\n- m : type\n\ncrate::a\n- T : type\n\ncrate::b\n- _ : type (import)\n\ncrate::m\n- _ : type\n",
    ),
];

fn dumps(rt: &impl Abort, alloc: Global, row: &DumpRow) -> Result<(), Fail> {
    let (_, line, _) = *row;
    let mut db = one_crate(alloc, &[("a.rs", line)])?;
    let found = lower_collected::<Runs>(alloc, &mut db)?;
    shows(rt, alloc, &found.map, row)?;
    let world = world_of(alloc, found)?;
    let again = collected_of::<Runs>(alloc, &mut db, &world, 0)?;
    shows(rt, alloc, &again.map, row)
}

/// Traits that are imported without a name: for those who may see them by any of the globs that bring them; and the same
/// again beside the crate's own finished map.
#[test]
fn traits_without_a_name(rt: HostRuntime) -> Result<(), Fail> {
    for row in &DUMPS {
        dumps(&rt, rt.alloc(), row)?;
    }
    Ok(())
}

/// `mod a { pub trait T {} } mod b { pub use crate::a::T as _; } use b::*;`
const UNNAMED_BY_GLOB: &str = r#"{"do":"set file","file":"a.rs","unit":{"nodes":[
{"kind":"Module","id":[1,0],"name":"a","nodes":[
    {"kind":"Trait","id":[2,0],"name":"T","items":[],"vis":"pub"}]},
{"kind":"Module","id":[3,0],"name":"b","nodes":[
    {"kind":"Use","id":[4,0],"vis":"pub","tree":{"single":"crate::a::T","as":"_"}}]},
{"kind":"Use","id":[5,0],"tree":{"glob":"b"}}]}}"#;

/// Files in whose root the trait of node 2 is in scope, under no name.
const IN_SCOPE: [(&str, &str); 2] = [
    ("trait_imported_without_a_name", UNNAMED),
    ("unnamed_trait_passes_a_glob", UNNAMED_BY_GLOB),
];

/// The trait of node 2, and no other.
fn has_the_trait(rt: &impl Abort, map: &DefMap, label: &str) -> Result<(), Fail> {
    let scope = map.scope(0).ok_or("the root")?;
    let mut traits = scope.traits();
    let found = traits.next().ok_or("a trait")?;
    assert!(rt; found.loc.id == (SyntaxId { hash: 2, index: 0 }), "{label}");
    assert!(rt; traits.next().is_none(), "{label}");
    Ok(())
}

fn is_in_scope(rt: &impl Abort, alloc: Global, row: (&str, &str)) -> Result<(), Fail> {
    let (label, line) = row;
    let found = collected_over::<Runs>(alloc, &[("a.rs", line)])?;
    assert!(rt; entry(alloc, &found.map, "T")?.is_none(), "{label}");
    has_the_trait(rt, &found.map, label)
}

/// A trait that has no name in a module is in scope there.
#[test]
fn traits_in_scope(rt: HostRuntime) -> Result<(), Fail> {
    for row in IN_SCOPE {
        is_in_scope(&rt, rt.alloc(), row)?;
    }
    Ok(())
}
