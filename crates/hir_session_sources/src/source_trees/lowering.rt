//! What is kept of sources under a crate, lowered anew where the crate is handed in with other data.
//!
//! All trees are made first, beside those that are kept. Then each takes the place of the one before it, which takes no memory.
ghost use Rattle.std.specs.Prelude.{◌≡◌, ◌++◌, map, None, IfOk, OnOk, option_map, if◌then◌else◌, ◌&&◌, nat_eq, Contains};
ghost use Rattle.hir_session_state.specs.HirIds.declared.ids.Crate.{Crate};
ghost use Rattle.hir_session_state.specs.HirTables.SourcePlaces.{SourcePlaceValue, block, expansion, expansion_value, file, source_value};
ghost use Rattle.hir_session_state.specs.Crates.{CrateValue};
ghost use Rattle.hir_session_state.specs.SourceTable.{SourceTable as Table};
ghost use Rattle.hir_session_sources.specs.ByCrate.{keys_under};
ghost use Rattle.hir_session_sources.specs.LoweredTrees.{kept_place, AreLowered, AreLoweredAnew, MayLower};
ghost use Rattle.hir_session_sources.specs.SourceTrees.{is_place, tree_in};

use super::{SourceTrees, copied_place, put_tree, tree_behind};
use crate::by_crate::{ByCrate, put_under};
use crate::copied_key::copied_key;
use crate::crate_info::CrateInfo;
use crate::source_table::SourceTable;
use hir_base::file_path::FilePath;
use hir_base::ids::Crate;
use hir_base::macro_kind::ExpansionKey;
use hir_base::place::BlockPlace;
use hir_item_tree::source_tree::SourceTree;
use hir_tables::SourcePlace;
use std::alloc::{AllocError, Global};
use std::rc::Rc;

/// Where a source stands of which a tree is kept.
#[derive(Drop)]
pub enum KeptPlace {
    File(FilePath),
    Block(BlockPlace),
    Expansion(ExpansionKey),
}

/// What is kept of a source, lowered anew.
#[derive(Drop)]
pub struct LoweredTree {
    place: KeptPlace,
    tree: Rc<SourceTree>,
}

impl KeptPlace {
    /// The same place; no text is copied.
    fn new(alloc: Global, place: SourcePlace<'_>) -> Result<KeptPlace, AllocError>
        ensures value { IfOk result (λ kept. kept_place kept ≡ source_value place.entry) }
    {
        match place {
            SourcePlace::File(path) => Ok(KeptPlace::File(path.clone()?)),
            SourcePlace::Block(place) => Ok(KeptPlace::Block(copied_place(place)?)),
            SourcePlace::Expansion(key) => Ok(KeptPlace::Expansion(copied_key(alloc, key)?)),
        }
    }
}

/// Adds the files that a crate lists.
fn add_files<'a>(
    paths: &'a ByCrate<FilePath, ()>,
    krate: Crate,
    places: &mut Vec<SourcePlace<'a>>,
) -> Result<(), AllocError>
    ensures ok { OnOk result (map source_value places.new.items ≡ map source_value places.old.items ++ map file (keys_under paths.now krate)) }
{
    let Some(own) = paths.get(&krate) else {
        return Ok(());
    };
    for path in own.keys() {
        places.push(SourcePlace::File(path))?;
    }
    Ok(())
}

/// Adds the blocks of which something is kept under a crate.
fn add_blocks<'a>(
    trees: &'a ByCrate<BlockPlace, Rc<SourceTree>>,
    krate: Crate,
    places: &mut Vec<SourcePlace<'a>>,
) -> Result<(), AllocError>
    ensures ok { OnOk result (map source_value places.new.items ≡ map source_value places.old.items ++ map block (keys_under trees.now krate)) }
{
    let Some(own) = trees.get(&krate) else {
        return Ok(());
    };
    for place in own.keys() {
        places.push(SourcePlace::Block(place))?;
    }
    Ok(())
}

/// Adds the expansions of which something is kept under a crate.
fn add_expansions<'a>(
    trees: &'a ByCrate<ExpansionKey, Rc<SourceTree>>,
    krate: Crate,
    places: &mut Vec<SourcePlace<'a>>,
) -> Result<(), AllocError>
    ensures ok { OnOk result (map source_value places.new.items
        ≡ map source_value places.old.items ++ map (λ key. expansion (expansion_value key)) (keys_under trees.now krate)) }
{
    let Some(own) = trees.get(&krate) else {
        return Ok(());
    };
    for key in own.keys() {
        places.push(SourcePlace::Expansion(key))?;
    }
    Ok(())
}

/// Has a source have this under a crate, where something is kept of it.
fn put(trees: &mut SourceTrees, krate: Crate, lowered: LoweredTree)
    ensures value { (p : SourcePlaceValue) (c : Crate) → tree_in trees.new p c
        ≡ (if is_place (kept_place lowered.place) p && nat_eq krate.0 c.0 then option_map (λ _. lowered.tree.value) (tree_in trees.old p c)
        else tree_in trees.old p c) }
{
    let LoweredTree { place, tree } = lowered;
    match place {
        KeptPlace::File(path) => put_tree(&mut trees.by_path, &path, krate, tree),
        KeptPlace::Block(place) => put_under(&mut trees.by_block, krate, &place, tree),
        KeptPlace::Expansion(key) => put_under(&mut trees.by_key, krate, &key, tree),
    }
}

impl SourceTrees {
    /// The sources of which something may be kept under a crate.
    fn places(&self, alloc: Global, krate: Crate) -> Result<Vec<SourcePlace<'_>>, AllocError>
        ensures all { IfOk result (λ places. (p : SourcePlaceValue) → (tree_in self.now p krate ≡ None → ⊥) → Contains (map source_value places.items) p) }
    {
        let mut places = Vec::new(alloc);
        add_files(&self.paths, krate, &mut places)?;
        add_blocks(&self.by_block, krate, &mut places)?;
        add_expansions(&self.by_key, krate, &mut places)?;
        Ok(places)
    }

    /// Lowers a source for a crate that is handed in so, if something is kept of it.
    fn lower(
        &self,
        alloc: Global,
        krate: Crate,
        info: &CrateInfo,
        table: &SourceTable,
        place: SourcePlace<'_>,
        lowered: &mut Vec<LoweredTree>,
    ) -> Result<(), AllocError>
        ensures ok { OnOk result (MayLower info.now table.now krate self.now (source_value place.entry) lowered.old.items lowered.new.items) }
    {
        if self.get(place, krate).is_none() {
            return Ok(());
        }
        let source = table.get(place)?;
        let tree = Rc::new(alloc, tree_behind(alloc, info, place, source)?)?;
        let place = KeptPlace::new(alloc, place)?;
        lowered.push(LoweredTree { place, tree })?;
        Ok(())
    }

    /// Lowers what is kept of sources under a crate for the crate that is handed in so. What is kept stays as it is.
    pub fn lowered(
        &self,
        alloc: Global,
        krate: Crate,
        info: &CrateInfo,
        table: &SourceTable,
    ) -> Result<Vec<LoweredTree>, AllocError>
        ensures lowered { IfOk result (λ lowered. AreLowered info.now table.now krate self.now lowered.items) }
    {
        let mut lowered = Vec::new(alloc);
        let places = self.places(alloc, krate)?;
        for place in &places {
            self.lower(alloc, krate, info, table, *place, &mut lowered)?;
        }
        Ok(lowered)
    }

    /// Puts what was lowered in place of what is kept under a crate.
    pub fn replace_lowered(&mut self, krate: Crate, lowered: Vec<LoweredTree>)
        ensures anew { (c : CrateValue) (t : Table) → AreLowered c t krate self.old lowered.items → AreLoweredAnew c t krate self.old self.new }
    {
        for tree in lowered {
            put(self, krate, tree);
        }
    }
}
