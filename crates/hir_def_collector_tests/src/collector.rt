//! What a run lists, leaves over and asks for. What the names of its modules stand for are sessions of `hir_session_rows`.
mod blocks;
mod files;
mod handed_in;
mod invocations;
mod leftovers;
mod traits;

use hir_base::ids::{Crate, ItemContainerId, MapId, ModuleDefId};
use hir_collector_fixtures::crates::{Collect, Crates, collected, collected_over, entry};
use hir_def_collector::collector::collected::Collected;
use hir_def_collector::collector::{CollectError, Start, collect_defs};
use hir_def_collector::source_database::Key;
use hir_def_map::nameres::DefMap;
use hir_def_map::world::World;
use hir_item_tree::tree_id::TreeId;
use hir_tables::Tables;
use std::alloc::Global;
use std::process::Abort;
use std::test::Fail;

/// The collector.
pub struct Runs;

impl Collect for Runs {
    fn collect(
        alloc: Global,
        db: &mut Crates,
        world: &World,
        tables: &mut Tables,
        start: Start,
        tree: TreeId,
    ) -> Result<Collected, CollectError> {
        collect_defs(alloc, db, world, tables, start, tree, None)
    }
}

/// `pub struct S; struct Hidden; pub mod prelude { pub mod rust_2021 { pub struct Option; } }`
const LOWER: &str = r#"{"do":"set file","file":"a.rs","unit":{"nodes":[
{"kind":"Struct","id":[1,0],"name":"S","shape":"unit","vis":"pub"},
{"kind":"Struct","id":[2,0],"name":"Hidden","shape":"unit"},
{"kind":"Module","id":[3,0],"name":"prelude","vis":"pub","nodes":[
    {"kind":"Module","id":[4,0],"name":"rust_2021","vis":"pub","nodes":[
        {"kind":"Struct","id":[5,0],"name":"Option","shape":"unit","vis":"pub"}]}]}]}}"#;

/// `use core::S; use core::Hidden; use Option as O; use nope::S as T;`
const UPPER: &str = r#"{"do":"set file","file":"b.rs","unit":{"nodes":[
{"kind":"Use","id":[1,0],"tree":{"single":"core::S"}},
{"kind":"Use","id":[2,0],"tree":{"single":"core::Hidden"}},
{"kind":"Use","id":[3,0],"tree":{"single":"Option","as":"O"}},
{"kind":"Use","id":[4,0],"tree":{"single":"nope::S","as":"T"}}]}}"#;

/// The same in a crate without the core library.
const WITHOUT_CORE: &str =
    r#"{"do":"set file","file":"b.rs","unit":{"attrs":[{"path":"no_core"}],"nodes":[
{"kind":"Use","id":[1,0],"tree":{"single":"core::S"}},
{"kind":"Use","id":[2,0],"tree":{"single":"core::Hidden"}},
{"kind":"Use","id":[3,0],"tree":{"single":"Option","as":"O"}},
{"kind":"Use","id":[4,0],"tree":{"single":"nope::S","as":"T"}}]}}"#;

/// Extern crates: by name, under an alias, of the crate itself, without a name, of no crate, and in a module.
const EXTERN: &str = r#"{"do":"set file","file":"b.rs","unit":{"nodes":[
{"kind":"ExternCrate","id":[1,0],"name":"core","as":"low"},
{"kind":"ExternCrate","id":[2,0],"name":"self","as":"me"},
{"kind":"ExternCrate","id":[3,0],"name":"core","as":"_"},
{"kind":"ExternCrate","id":[4,0],"name":"nope"},
{"kind":"Module","id":[5,0],"name":"m","vis":"pub","nodes":[
    {"kind":"ExternCrate","id":[6,0],"name":"core"},
    {"kind":"Use","id":[7,0],"vis":"pub","tree":{"single":"core::S"}}]},
{"kind":"Use","id":[8,0],"vis":"pub","tree":{"single":"low","as":"open"}},
{"kind":"Use","id":[9,0],"vis":"pub","tree":{"single":"self::low","as":"closed"}},
{"kind":"Use","id":[10,0],"tree":{"single":"::low::S","as":"T"}},
{"kind":"Use","id":[11,0],"tree":{"single":"me::m::S","as":"U"}},
{"kind":"Use","id":[12,0],"tree":{"single":"core::S","as":"V"}}]}}"#;

/// `use E::A; use E::B; pub enum E { .. } mod m { enum F { .. } }`
const ENUMS: &str = r#"{"do":"set file","file":"b.rs","unit":{"nodes":[
{"kind":"Use","id":[1,0],"tree":{"single":"E::A"}},
{"kind":"Use","id":[2,0],"tree":{"single":"E::B"}},
{"kind":"Enum","id":[3,0],"name":"E","vis":"pub","variants":[]},
{"kind":"Module","id":[4,0],"name":"m","nodes":[
    {"kind":"Enum","id":[5,0],"name":"F","variants":[]}]}]}}"#;

/// `pub mod thing { trait y {} } pub fn thing() {}`
const TWO_THINGS: &str = r#"{"do":"set file","file":"a.rs","unit":{"nodes":[
{"kind":"Module","id":[1,0],"name":"thing","vis":"pub","nodes":[
    {"kind":"Trait","id":[2,0],"name":"y","items":[]}]},
{"kind":"Fn","id":[3,0],"name":"thing","vis":"pub"}]}}"#;

/// `use u8 as x; use x::y; use core::thing as u8;`
///
/// By its second import `y` is the builtin type. Then `x` becomes the other crate's module, in which `y` is a private trait: of a
/// namespace that was reached already, so nothing is bound again.
const THROUGH_A_BUILTIN: &str = r#"{"do":"set file","file":"b.rs","unit":{"nodes":[
{"kind":"Use","id":[1,0],"tree":{"single":"u8","as":"x"}},
{"kind":"Use","id":[2,0],"tree":{"single":"x::y"}},
{"kind":"Use","id":[3,0],"tree":{"single":"core::thing","as":"u8"}}]}}"#;

/// `pub struct S;`
const STRUCT: &str = r#"{"do":"set file","file":"b.rs","unit":{"nodes":[
{"kind":"Struct","id":[1,0],"name":"S","shape":"unit","vis":"pub"}]}}"#;

/// The sources of the lower and the upper crate, whether the lower one is marked as its core library, how many imports are left over, and
/// how many keys are asked.
type Row = (&'static str, &'static str, &'static str, bool, usize, usize);

const ROWS: [Row; 6] = [
    ("marked", LOWER, UPPER, true, 1, 1),
    ("unmarked", LOWER, UPPER, false, 4, 1),
    ("no core", LOWER, WITHOUT_CORE, true, 4, 1),
    ("extern crates", LOWER, EXTERN, false, 2, 1),
    ("enums without variants", LOWER, ENUMS, false, 0, 3),
    (
        "through a builtin type",
        TWO_THINGS,
        THROUGH_A_BUILTIN,
        true,
        0,
        1,
    ),
];

fn counts(rt: &impl Abort, found: &Collected, row: &Row) {
    let (label, _, _, _, leftover, asked) = *row;
    assert!(rt; found.leftover.len() == leftover, "{label}");
    assert!(rt; found.asked.own().len() == asked, "{label}");
    assert!(rt; found.map.crate_data().dependencies().len() == 1, "{label}");
    assert!(rt; !found.round_limit_met, "{label}");
}

fn finds(rt: &impl Abort, alloc: Global, row: &Row) -> Result<(), Fail> {
    let (_, lower, upper, is_prelude, _, _) = *row;
    let found = collected::<Runs>(alloc, lower, upper, is_prelude)?;
    counts(rt, &found, row);
    Ok(())
}

/// The imports that are left over, and the keys that are asked: the root file, and each enum.
#[test]
fn leftover_and_asked(rt: HostRuntime) -> Result<(), Fail> {
    for row in &ROWS {
        finds(&rt, rt.alloc(), row)?;
    }
    Ok(())
}

/// A disabled function, an extern block, a `use` with a list, a module, `const _`, a union, a trait and an impl.
const ITEMS: &str = r#"{"do":"set file","file":"lib.rs","unit":{"nodes":[
{"kind":"Fn","id":[0,0],"name":"gone","vis":"pub","attrs":[{"path":"cfg","cfg":false}]},
{"kind":"ExternBlock","id":[0,0],"vis":"pub","nodes":[
    {"kind":"Fn","id":[0,1],"name":"ext","vis":"pub"},
    {"kind":"Static","id":[0,0],"name":"ST","vis":"pub"}]},
{"kind":"Use","id":[0,0],"vis":"pub","tree":{"path":"m","list":[
    {"single":"self","as":"n"},
    {"single":"f","as":"g"},
    {"glob":null}]}},
{"kind":"Module","id":[0,0],"name":"m","vis":"pub","nodes":[
    {"kind":"Fn","id":[0,2],"name":"f","vis":"pub"},
    {"kind":"Struct","id":[0,0],"name":"S","shape":"tuple","vis":"pub"}]},
{"kind":"Const","id":[0,0],"vis":"pub"},
{"kind":"Union","id":[0,0],"name":"U","vis":"pub"},
{"kind":"Trait","id":[0,0],"name":"T","items":[],"vis":"pub"},
{"kind":"Impl","id":[0,0],"trait":true,"items":[],"vis":"pub"}]}}"#;

fn items(alloc: Global) -> Result<Collected, Fail> {
    collected_over::<Runs>(alloc, &[("a.rs", ITEMS)])
}

fn items_of_root(rt: &impl Abort, map: &DefMap) -> Result<(), Fail> {
    let scope = map.scope(0).ok_or("the root")?;
    assert!(rt; scope.declarations().len() == 5);
    assert!(rt; scope.use_decls().len() == 1);
    assert!(rt; scope.extern_blocks().len() == 1);
    assert!(rt; scope.unnamed_consts().len() == 1);
    let mut of_traits = scope.trait_impls();
    assert!(rt; of_traits.next().is_some());
    assert!(rt; of_traits.next().is_none());
    Ok(())
}

fn container_of_ext(rt: &impl Abort, alloc: Global, map: &DefMap) -> Result<(), Fail> {
    let foreign = entry(alloc, map, "ext")?.values.ok_or("a value")?;
    let held = match foreign.def {
        ModuleDefId::FunctionId(id) => matches!(
            id.loc.container,
            ItemContainerId::ExternBlockId(_)
        ),
        _ => false,
    };
    assert!(rt; held);
    Ok(())
}

fn lists_of(rt: &impl Abort, alloc: Global, found: &Collected) -> Result<(), Fail> {
    items_of_root(rt, &found.map)?;
    assert!(rt; found.leftover.len() == 0);
    assert!(rt; found.asked.own().len() == 1);
    assert!(rt; entry(alloc, &found.map, "S")?.types.is_some());
    container_of_ext(rt, alloc, &found.map)
}

/// Each item is listed in its module, and a function of an extern block has that block as its container; the glob brings
/// what its module binds.
#[test]
fn lists(rt: HostRuntime) -> Result<(), Fail> {
    let found = items(rt.alloc())?;
    lists_of(&rt, rt.alloc(), &found)
}

/// The keys that a run asked for: those of its steps, then what its crate was handed in with, and then the map of the
/// crate on which it stands, with what that was handed in with.
#[test]
fn asked_one_after_another(rt: HostRuntime) -> Result<(), Fail> {
    let found = collected::<Runs>(rt.alloc(), LOWER, ENUMS, false)?;
    walks_all(&rt, &found)
}

fn walks_all(rt: &impl Abort, found: &Collected) -> Result<(), Fail> {
    let mut keys = found.asked.iter();
    for key in found.asked.own() {
        assert!(rt; keys.next() == Some(*key));
    }
    assert!(rt; keys.next() == Some(Key::Config(Crate(1))));
    assert!(rt; keys.next() == Some(Key::Map(MapId::of_crate(Crate(0)))));
    assert!(rt; keys.next() == Some(Key::Config(Crate(0))));
    assert!(rt; keys.next().is_none());
    Ok(())
}
