//! What a run asks for before it visits anything.
ghost use Rattle.std.specs.Prelude.{◌≡◌, ◌++◌, ◌∷◌, IfOk, OnOk};
ghost use Rattle.hir_collector_rules.specs.Keys.{map_key};
ghost use Rattle.hir_collector_rules.specs.Start.{held_keys, holder_keys, root_key};

use hir_base::ids::{Crate, MapId, ModuleId};
use hir_collector_rules::source_database::Key;
use hir_collector_rules::start::Start;
use hir_item_tree::tree_id::{TreeId, TreeKey};
use std::alloc::{AllocError, Global};

/// Asks for the maps in which modules lie.
fn ask_for_holders(asked: &mut Vec<Key>, holders: &[ModuleId]) -> Result<(), AllocError>
    ensures ok { OnOk result (asked.new.items ≡ asked.old.items ++ holder_keys holders.now) }
{
    for holder in holders {
        asked.push(Key::Map(holder.map))?;
    }
    Ok(())
}

/// Asks for the map of a block's crate, and for those of what holds the block.
fn ask_outwards(asked: &mut Vec<Key>, krate: Crate, holders: &[ModuleId]) -> Result<(), AllocError>
    ensures ok { OnOk result (asked.new.items ≡ asked.old.items ++ map_key krate ∷ holder_keys holders.now) }
{
    asked.push(Key::Map(MapId::of_crate(krate)))?;
    ask_for_holders(asked, holders)?;
    Ok(())
}

/// The keys that are asked for first: the tree, and of a block the maps of what holds it.
pub fn first_keys(
    alloc: Global,
    holders: &[ModuleId],
    start: Start,
    tree: TreeId,
) -> Result<Vec<Key>, AllocError>
    ensures value { IfOk result (λ asked. asked.items ≡ root_key start tree ∷ held_keys start holders.now) }
{
    let mut asked = Vec::new(alloc);
    asked.push(Key::Tree(TreeKey {
        krate: start.krate(),
        id: tree,
    }))?;
    match start {
        Start::Crate { .. } => Ok(asked),
        Start::Block { krate, .. } => {
            ask_outwards(&mut asked, krate, holders)?;
            Ok(asked)
        }
    }
}
