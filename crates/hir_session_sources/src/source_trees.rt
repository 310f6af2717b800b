//! What sources have under the crates that asked for them.
//!
//! It is kept by the place of a source. A run hands in the place and has the tables for itself, so no number is at hand by which
//! `Trees` would find it. A block is asked for under its own crate, and an expansion under the crate that calls; what they have
//! under others is made anew.
ghost use Rattle.std.specs.Prelude.{◌≡◌, ℕ, List, None, Some, IfOk, OnOk, OnErr, option_map, if◌then◌else◌, false};
ghost use Rattle.std.specs.BTreeMap.{is_at};
ghost use Rattle.std.specs.Cmp.Lexicographic.{slice_cmp};
ghost use Rattle.std.specs.Ordering.{nat_cmp};
ghost use Rattle.hir_session_state.specs.HirIds.declared.ids.Crate.{Crate};
ghost use Rattle.hir_session_state.specs.HirBase.CfgOptions.{is_set};
ghost use Rattle.hir_session_state.specs.HirItemTree.Source.{source_view};
ghost use Rattle.hir_session_state.specs.HirItemTree.SourceTree.{SourceTreeValue, source_tree_of};
ghost use Rattle.hir_session_state.specs.HirTables.SourcePlaces.{SourcePlaceValue, block, expansion, expansion_value, file, source_value};
ghost use Rattle.hir_session_state.specs.SourceTable.{front_in, tree_under};
ghost use Rattle.hir_session_sources.specs.SourceTrees.{file_tree, is_kept_at, is_listed, is_place, tree_by, tree_in};

mod lowering;

pub use self::lowering::LoweredTree;
use crate::by_crate::{get_under, insert_under, put_at, remove_under};
use crate::copied_key::copied_key;
use crate::crate_info::CrateInfo;
use crate::crates::Crates;
use hir_base::cfg_options::CfgOptions;
use hir_base::file_path::FilePath;
use hir_base::ids::Crate;
use hir_base::macro_kind::ExpansionKey;
use hir_base::place::BlockPlace;
use hir_item_tree::source::Source;
use hir_item_tree::source_tree::SourceTree;
use hir_tables::SourcePlace;
use std::alloc::{AllocError, Global};
use std::collections::BTreeMap;
use std::rc::Rc;

/// What one source has under crates.
pub type CrateTrees = BTreeMap<Crate, Rc<SourceTree>>;

/// What each file has under crates.
type FileTrees = BTreeMap<FilePath, CrateTrees>;

/// What each file has under each crate that asked for it, each block under its own, and each expansion under the crate that calls.
///
/// What a file has stands by file, since an edit of the file replaces it under all crates; it counts as kept under the crates
/// that list the file. All else stands by crate, since an edit of a crate's data lowers anew what is kept under that crate.
#[derive(Drop)]
pub struct SourceTrees {
    by_path: BTreeMap<FilePath, BTreeMap<Crate, Rc<SourceTree>>>,
    paths: BTreeMap<Crate, BTreeMap<FilePath, ()>>,
    by_block: BTreeMap<Crate, BTreeMap<BlockPlace, Rc<SourceTree>>>,
    by_key: BTreeMap<Crate, BTreeMap<ExpansionKey, Rc<SourceTree>>>,
}

/// The same place; no text is copied.
pub fn copied_place(place: &BlockPlace) -> Result<BlockPlace, AllocError>
    ensures value { IfOk result (λ p. p ≡ place.now) }
{
    Ok(BlockPlace {
        holder: place.holder.clone()?,
        id: place.id,
    })
}

/// Has a file have this under a crate.
fn set_tree(
    files: &mut FileTrees,
    alloc: Global,
    path: &FilePath,
    krate: Crate,
    tree: Rc<SourceTree>,
) -> Result<(), AllocError>
    ensures ok { OnOk result ((p : List ℕ) (c : Crate) → file_tree files.new p c
        ≡ (if is_kept_at (file path.now) krate (file p) c then Some tree.value else file_tree files.old p c)) }
    ensures err { OnErr result ((p : List ℕ) (c : Crate) → file_tree files.new p c ≡ file_tree files.old p c) }
{
    match files.get_mut(path) {
        Some(kept) => {
            kept.insert(krate, tree)?;
            Ok(())
        }
        None => {
            let mut kept = BTreeMap::new(alloc);
            kept.insert(krate, tree)?;
            files.insert(path.clone()?, kept)?;
            Ok(())
        }
    }
}

/// Has a file have this under a crate, where it has something under it. It takes no memory.
fn put_tree(files: &mut FileTrees, path: &FilePath, krate: Crate, tree: Rc<SourceTree>)
    ensures value { (p : List ℕ) (c : Crate) → file_tree files.new p c
        ≡ (if is_kept_at (file path.now) krate (file p) c then option_map (λ _. tree.value) (file_tree files.old p c) else file_tree files.old p c) }
{
    match files.get_mut(path) {
        Some(kept) => put_at(kept, &krate, tree),
        None => {}
    }
}

/// Puts these in place of what a file has under crates, where it has something.
fn replace_trees(files: &mut FileTrees, path: &FilePath, trees: CrateTrees)
    ensures here { (c : Crate) (t : SourceTreeValue) → file_tree files.new path.now c ≡ Some t → tree_by trees c ≡ Some t }
    ensures others { (p : List ℕ) (c : Crate) → is_at (slice_cmp nat_cmp path.now) p ≡ false → file_tree files.new p c ≡ file_tree files.old p c }
{
    match files.get_mut(path) {
        Some(kept) => *kept = trees,
        None => {}
    }
}

impl SourceTrees {
    pub fn new(alloc: Global) -> SourceTrees
        ensures value { (place : SourcePlaceValue) (krate : Crate) → tree_in result place krate ≡ None }
    {
        SourceTrees {
            by_path: BTreeMap::new(alloc),
            paths: BTreeMap::new(alloc),
            by_block: BTreeMap::new(alloc),
            by_key: BTreeMap::new(alloc),
        }
    }

    /// Whether a crate lists a file.
    fn is_listed(&self, path: &FilePath, krate: Crate) -> bool
        ensures value { result ≡ is_listed self.now.paths path.now krate }
    {
        match self.paths.get(&krate) {
            Some(listed) => listed.contains_key(path),
            None => false,
        }
    }

    fn of_file(&self, path: &FilePath, krate: Crate) -> Option<&Rc<SourceTree>>
        ensures value { option_map (λ t. t.now.value) result ≡ tree_in self.now (file path.now) krate }
    {
        if !self.is_listed(path, krate) {
            return None;
        }
        match self.by_path.get(path) {
            Some(kept) => kept.get(&krate),
            None => None,
        }
    }

    fn of_block(&self, place: &BlockPlace, krate: Crate) -> Option<&Rc<SourceTree>>
        ensures value { option_map (λ t. t.now.value) result ≡ tree_in self.now (block place.now) krate }
    {
        if place.holder.krate() == krate {
            get_under(&self.by_block, krate, place)
        } else {
            None
        }
    }

    fn of_expansion(&self, key: &ExpansionKey, krate: Crate) -> Option<&Rc<SourceTree>>
        ensures value { option_map (λ t. t.now.value) result ≡ tree_in self.now (expansion (expansion_value key.now)) krate }
    {
        if key.caller == krate {
            get_under(&self.by_key, krate, key)
        } else {
            None
        }
    }

    /// What a source has under a crate, where that is kept.
    pub fn get(&self, place: SourcePlace<'_>, krate: Crate) -> Option<&Rc<SourceTree>>
        ensures value { option_map (λ t. t.now.value) result ≡ tree_in self.now (source_value place.entry) krate }
    {
        match place {
            SourcePlace::File(path) => self.of_file(path, krate),
            SourcePlace::Block(place) => self.of_block(place, krate),
            SourcePlace::Expansion(key) => self.of_expansion(key, krate),
        }
    }

    fn set_of_file(
        &mut self,
        alloc: Global,
        path: &FilePath,
        krate: Crate,
        tree: Rc<SourceTree>,
    ) -> Result<(), AllocError>
        ensures ok { OnOk result ((p : SourcePlaceValue) (c : Crate) → tree_in self.new p c
            ≡ (if is_kept_at (file path.now) krate p c then Some tree.value else tree_in self.old p c)) }
        ensures err { OnErr result ((p : SourcePlaceValue) (c : Crate) → tree_in self.new p c ≡ tree_in self.old p c) }
    {
        if self.is_listed(path, krate) {
            return set_tree(&mut self.by_path, alloc, path, krate, tree);
        }
        set_tree(&mut self.by_path, alloc, path, krate, tree)?;
        let listed = path.clone()?;
        insert_under(&mut self.paths, alloc, krate, listed, ())
    }

    fn set_of_block(
        &mut self,
        alloc: Global,
        place: &BlockPlace,
        krate: Crate,
        tree: Rc<SourceTree>,
    ) -> Result<(), AllocError>
        ensures ok { OnOk result ((p : SourcePlaceValue) (c : Crate) → tree_in self.new p c
            ≡ (if is_kept_at (block place.now) krate p c then Some tree.value else tree_in self.old p c)) }
        ensures err { OnErr result ((p : SourcePlaceValue) (c : Crate) → tree_in self.new p c ≡ tree_in self.old p c) }
    {
        if place.holder.krate() == krate {
            let place = copied_place(place)?;
            insert_under(&mut self.by_block, alloc, krate, place, tree)?;
        }
        Ok(())
    }

    fn set_of_expansion(
        &mut self,
        alloc: Global,
        key: &ExpansionKey,
        krate: Crate,
        tree: Rc<SourceTree>,
    ) -> Result<(), AllocError>
        ensures ok { OnOk result ((p : SourcePlaceValue) (c : Crate) → tree_in self.new p c
            ≡ (if is_kept_at (expansion (expansion_value key.now)) krate p c then Some tree.value else tree_in self.old p c)) }
        ensures err { OnErr result ((p : SourcePlaceValue) (c : Crate) → tree_in self.new p c ≡ tree_in self.old p c) }
    {
        if key.caller == krate {
            let key = copied_key(alloc, key)?;
            insert_under(&mut self.by_key, alloc, krate, key, tree)?;
        }
        Ok(())
    }

    /// Keeps what a source has under a crate, where that is kept.
    pub fn set(
        &mut self,
        alloc: Global,
        place: SourcePlace<'_>,
        krate: Crate,
        tree: Rc<SourceTree>,
    ) -> Result<(), AllocError>
        ensures ok { OnOk result ((p : SourcePlaceValue) (c : Crate) → tree_in self.new p c
            ≡ (if is_kept_at (source_value place.entry) krate p c then Some tree.value else tree_in self.old p c)) }
        ensures err { OnErr result ((p : SourcePlaceValue) (c : Crate) → tree_in self.new p c ≡ tree_in self.old p c) }
    {
        match place {
            SourcePlace::File(path) => self.set_of_file(alloc, path, krate, tree),
            SourcePlace::Block(place) => self.set_of_block(alloc, place, krate, tree),
            SourcePlace::Expansion(key) => self.set_of_expansion(alloc, key, krate, tree),
        }
    }

    /// Puts these in place of what is kept of a file, where something is. It takes no memory.
    pub fn replace(&mut self, path: &FilePath, trees: CrateTrees)
        ensures here { (c : Crate) (t : SourceTreeValue) → tree_in self.new (file path.now) c ≡ Some t → tree_by trees c ≡ Some t }
        ensures others { (p : SourcePlaceValue) (c : Crate) → is_place (file path.now) p ≡ false → tree_in self.new p c ≡ tree_in self.old p c }
    {
        replace_trees(&mut self.by_path, path, trees);
    }

    /// Drops what is kept of a block.
    pub fn remove_block(&mut self, place: &BlockPlace)
        ensures gone { (c : Crate) → tree_in self.new (block place.now) c ≡ None }
        ensures others { (p : SourcePlaceValue) (c : Crate) → is_place (block place.now) p ≡ false → tree_in self.new p c ≡ tree_in self.old p c }
    {
        remove_under(&mut self.by_block, place.holder.krate(), place);
    }

    /// Drops what is kept of an expansion.
    pub fn remove(&mut self, key: &ExpansionKey)
        ensures gone { (c : Crate) → tree_in self.new (expansion (expansion_value key.now)) c ≡ None }
        ensures others { (p : SourcePlaceValue) (c : Crate) → is_place (expansion (expansion_value key.now)) p ≡ false → tree_in self.new p c ≡ tree_in self.old p c }
    {
        remove_under(&mut self.by_key, key.caller, key);
    }
}

/// What a source has under a crate, behind what the crate puts in front of the one at a place.
fn tree_behind(
    alloc: Global,
    info: &CrateInfo,
    place: SourcePlace<'_>,
    source: Option<&Source>,
) -> Result<SourceTree, AllocError>
    ensures value { IfOk result (λ t. t ≡ source_tree_of (is_set info.now.config.options) (front_in info.now (source_value place.entry)) (option_map (λ s. source_view s.now) source.entry)) }
{
    match info.front(place) {
        Some(front) => SourceTree::new(alloc, source, front, info.options()),
        None => SourceTree::new(alloc, source, &Vec::new(alloc), info.options()),
    }
}

/// What a source has under a crate, at its place; under a crate that isn't there no option is set.
pub fn source_tree(
    alloc: Global,
    crates: &Crates,
    krate: Crate,
    place: SourcePlace<'_>,
    source: Option<&Source>,
) -> Result<Rc<SourceTree>, AllocError>
    ensures value { IfOk result (λ t. t.value ≡ tree_under crates.now krate.0 (source_value place.entry) (option_map (λ s. source_view s.now) source.entry)) }
{
    let tree = match crates.get(krate) {
        Some(info) => tree_behind(alloc, info, place, source)?,
        None => SourceTree::new(alloc, source, &Vec::new(alloc), &CfgOptions::new(alloc))?,
    };
    Ok(Rc::new(alloc, tree)?)
}
