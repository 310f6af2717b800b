//! A run of a block.
use super::{Runs, STRUCT};
use hir_base::ast_id::{BlockId, HirFileId, InFile, SyntaxId};
use hir_base::ids::{AdtId, Crate, MapId, ModuleDefId, ModuleId};
use hir_base::place::{BlockPlace, Place};
use hir_collector_fixtures::crates::{
    Crates, entry, files_of_both, lower_world, one_crate, root, source,
};
use hir_def_collector::collector::collected::Collected;
use hir_def_collector::collector::{Start, collect_defs};
use hir_def_collector::source_database::Key;
use hir_def_map::nameres::DefMap;
use hir_def_map::world::World;
use hir_item_tree::tree_id::TreeId;
use std::alloc::Global;
use std::process::Abort;
use std::test::Fail;

/// `pub struct S; pub mod m { pub struct T; }`
const HOLDER: &str = r#"{"do":"set file","file":"a.rs","unit":{"nodes":[
{"kind":"Struct","id":[1,0],"name":"S","shape":"unit","vis":"pub"},
{"kind":"Module","id":[2,0],"name":"m","vis":"pub","nodes":[
    {"kind":"Struct","id":[3,0],"name":"T","shape":"unit","vis":"pub"}]}]}}"#;

/// In a block of the root: `struct S; use S as Own; use m::T; use nope::X; mod file;`
const IN_BLOCK: &str =
    r#"{"do":"set file","file":"a.rs","unit":{"attrs":[{"path":"cfg","cfg":false}],"nodes":[
{"kind":"Struct","id":[1,0],"name":"S","shape":"unit"},
{"kind":"Use","id":[2,0],"tree":{"single":"S","as":"Own"}},
{"kind":"Use","id":[3,0],"tree":{"single":"m::T"}},
{"kind":"Use","id":[4,0],"tree":{"single":"nope::X"}},
{"kind":"Module","id":[5,0],"name":"file"}]}}"#;

const AT: SyntaxId = SyntaxId { hash: 9, index: 0 };

/// The root of crate 0.
fn holder() -> ModuleId {
    ModuleId {
        map: MapId::of_crate(Crate(0)),
        index: 0,
    }
}

/// A block of the root of crate 0.
fn within(block: BlockId) -> Start {
    Start::Block {
        krate: Crate(0),
        block,
        holder: holder(),
        at: InFile {
            file_id: HirFileId::File(root(0)),
            value: AT,
        },
    }
}

/// What a block of the root of crate 0 comes to beside the maps of a world.
fn block_collected(alloc: Global, db: &mut Crates, world: &World) -> Result<Collected, Fail> {
    let mut tables = files_of_both(alloc)?;
    let block = tables.intern_block(BlockPlace {
        holder: Place::new(Crate(0), Vec::new(alloc)),
        id: AT,
    })?;
    let tree = TreeId::new(HirFileId::File(root(0)), Some(block));
    Ok(collect_defs(alloc, db, world, &mut tables, within(block), tree, None)?)
}

fn in_block(alloc: Global) -> Result<Collected, Fail> {
    let mut db = one_crate(alloc, &[("a.rs", HOLDER), ("file.rs", STRUCT)])?;
    let world = lower_world::<Runs>(alloc, &mut db)?;
    db.set_block(source(alloc, IN_BLOCK)?);
    block_collected(alloc, &mut db, &world)
}

/// The map in which a struct stands that a name stands for.
fn map_of(alloc: Global, map: &DefMap, name: &str) -> Result<MapId, Fail> {
    match entry(alloc, map, name)?.types.ok_or("a type")?.def {
        ModuleDefId::AdtId(AdtId::StructId(id)) => Ok(id.loc.container.map),
        _ => Err("a struct")?,
    }
}

/// A block's own names come before those of the module that holds it, which are there too; a block is declared though
/// disabled at its top, and the files of its modules are looked for beside the file in which it is written.
fn names_in_block(rt: &impl Abort, alloc: Global, found: &Collected) -> Result<(), Fail> {
    let own = found.map.id();
    assert!(rt; own.block.is_some());
    assert!(rt; map_of(alloc, &found.map, "Own")? == own);
    assert!(rt; map_of(alloc, &found.map, "T")? == MapId::of_crate(Crate(0)));
    assert!(rt; found.leftover.len() == 1);
    assert!(rt; found.map.module_count() == 2);
    Ok(())
}

/// It asks for its tree, for the maps of its crate and of what holds it, and for the file of its module.
fn keys_of_block(rt: &impl Abort, found: &Collected) -> Result<(), Fail> {
    let keys = found.asked.own();
    assert!(rt; keys.len() == 4);
    assert!(rt; matches!(keys[0], Key::Tree(_)));
    assert!(rt; keys[1] == Key::Map(MapId::of_crate(Crate(0))));
    assert!(rt; keys[2] == Key::Map(MapId::of_crate(Crate(0))));
    Ok(())
}

/// A run of a block beside its crate's map.
#[test]
fn block_beside_its_crate(rt: HostRuntime) -> Result<(), Fail> {
    let found = in_block(rt.alloc())?;
    names_in_block(&rt, rt.alloc(), &found)?;
    keys_of_block(&rt, &found)
}
