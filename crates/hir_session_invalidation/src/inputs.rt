//! What was handed in, and what sources have under the crates that asked for them.
ghost use Rattle.std.specs.Prelude.{◌≡◌, ◌<◌, [], length, Err, IfOk, OnOk, OnErr, Some, None, option_map};
ghost use Rattle.hir_session_state.specs.HirItemTree.Source.{source_view};
ghost use Rattle.hir_session_state.specs.HirTables.SourcePlaces.{expansion_value, file, source_value};
ghost use Rattle.hir_session_state.specs.HirTables.Tables.{KeepsTables};
ghost use Rattle.hir_session_sources.specs.EditValues.{entry_value};
ghost use Rattle.hir_session_state.specs.HirNameres.World.{finished_in};
ghost use Rattle.hir_session_state.specs.HirCollectorRules.Calls.{AreCallsPlaced};
ghost use Rattle.hir_session_state.specs.HirCollectorRules.Derivation.{IsOverlong, collected_view};
ghost use Rattle.hir_session_state.specs.HirCollectorRules.UnknownSources.{MeetsUnknownSource};
ghost use Rattle.hir_session_state.specs.Blocks.{place_of_block, with_block, without_block};
ghost use Rattle.hir_session_state.specs.HirCollectorRules.Workspace.{config_view};
ghost use Rattle.hir_session_state.specs.Crates.{begins_in_block, beginning_in, crate_in, with_config};
ghost use Rattle.hir_session_state.specs.Entries.{with_entry, without_entry};
ghost use Rattle.hir_session_state.specs.Files.{with_file, without_file};
ghost use Rattle.hir_session_state.specs.Inputs.{workspace_by};
ghost use Rattle.hir_session_state.specs.SessionState.{IsResolved};
ghost use Rattle.hir_session_state.specs.SourceTable.{source_at, tree_under, workspace_in};
ghost use Rattle.hir_session_sources.specs.LoweredTrees.{AreLowered, AreLoweredAnew};
ghost use Rattle.hir_session_sources.specs.SourceTrees.{AreCurrent, AreTreesOf};

mod assoc_items;

pub use self::assoc_items::AssocList;
use crate::sources::{CollectDefs, HeldBlock, Sources, collect, collect_block};
use hir_base::file_path::FilePath;
use hir_base::ids::Crate;
use hir_base::macro_kind::ExpansionKey;
use hir_base::place::BlockPlace;
use hir_item_tree::source::Source;
use hir_item_tree::source_tree::SourceTree;
use hir_session_sources::crate_info::CrateInfo;
use hir_session_sources::crates::Crates;
use hir_session_sources::entry::Entry;
use hir_session_sources::same_config::lower_alike;
use hir_session_sources::source_table::SourceTable;
use hir_session_sources::source_trees::{CrateTrees, LoweredTree, SourceTrees, source_tree};
use hir_session_state::hir_collector_rules::collected::Collected;
use hir_session_state::hir_collector_rules::source_database::Config;
use hir_session_state::hir_collector_rules::start::CollectError;
use hir_session_state::hir_def_map::world::World;
use hir_tables::{SourcePlace, Tables};
use std::alloc::{AllocError, Global};
use std::marker::Model;
use std::mem::replace;
use std::rc::Rc;

/// What is kept of sources under a crate, lowered anew for the crate that is handed in so. Where each source has the same then,
/// none is lowered.
fn lowered_for(
    alloc: Global,
    crates: &Crates,
    sources: &SourceTable,
    trees: &SourceTrees,
    krate: Crate,
    info: &CrateInfo,
) -> Result<Vec<LoweredTree>, AllocError>
    requires current { AreCurrent (workspace_in crates.now sources.now) trees.now }
    requires same { info.now.own ≡ (crate_in crates.now krate.0).own }
    ensures lowered { IfOk result (λ lowered. AreLowered info.now sources.now krate trees.now lowered.items) }
{
    if let Some(before) = crates.get(krate) {
        if lower_alike(before.config(), info.config()) {
            return Ok(Vec::new(alloc));
        }
    }
    trees.lowered(alloc, krate, info, sources)
}

/// Has a crate handed in with this, and what is kept of sources under it lowered anew. All that grows does so before anything is
/// replaced.
fn hand_in(
    alloc: Global,
    crates: &mut Crates,
    sources: &SourceTable,
    trees: &mut SourceTrees,
    krate: Crate,
    config: Config,
) -> Result<(), AllocError>
    requires within { krate.0 < length crates.old }
    requires current { AreCurrent (workspace_in crates.old sources.now) trees.old }
    ensures ok { OnOk result (crates.new ≡ with_config crates.old krate.0 (config_view config)) }
    ensures lowered { OnOk result (AreLoweredAnew (crate_in crates.new krate.0) sources.now krate trees.old trees.new) }
    ensures err { OnErr result (crates.new ≡ crates.old) }
    ensures kept { OnErr result (trees.new ≡ trees.old) }
{
    let info = crates.handed_in(krate, config)?;
    let lowered = lowered_for(alloc, crates, sources, trees, krate, &info)?;
    crates.set(alloc, krate, info.into_config())?;
    trees.replace_lowered(krate, lowered);
    Ok(())
}

/// The crates and the sources, and what the sources have under the crates that asked for them.
#[derive(Drop)]
pub struct Inputs {
    crates: Crates,
    sources: SourceTable,
    trees: SourceTrees,
}

impl Model for Inputs {
    ghost use Rattle.hir_session_state.specs.SourceTable.{workspace_in};
    ghost use Rattle.hir_session_state.specs.InputCodes.{coded_inputs};
    ghost use Rattle.hir_session_state.specs.Inputs.{InputsValue};
    ghost use Rattle.hir_session_sources.specs.SourceTrees.{AreCurrent};

    ghost Value = { InputsValue };

    ghost coded = { coded_inputs };

    ghost view = { λ i. record { crates = i.crates; sources = i.sources } };

    ghost invariant = { λ i. AreCurrent (workspace_in i.crates i.sources) i.trees };
}

impl Inputs {
    /// These crates without sources.
    pub fn new(alloc: Global, crates: Crates) -> Inputs
        ensures value { result ≡ record { crates = crates; sources = record { files = []; blocks = []; entries = [] } } }
    {
        Inputs {
            crates,
            sources: SourceTable::new(alloc),
            trees: SourceTrees::new(alloc),
        }
    }

    pub fn crates(&self) -> &Crates
        ensures value { result.now ≡ self.now.crates }
    {
        &self.crates
    }

    pub fn sources(&self) -> &SourceTable
        ensures value { result.now ≡ self.now.sources }
    {
        &self.sources
    }

    /// What a source has under a crate: as it is kept, or made anew.
    pub fn tree(
        &self,
        alloc: Global,
        krate: Crate,
        place: SourcePlace<'_>,
    ) -> Result<Rc<SourceTree>, AllocError>
        ensures value { IfOk result (λ t. t.value ≡ tree_under self.now.crates krate.0 (source_value place.entry) (source_at self.now.sources (source_value place.entry))) }
    {
        match self.trees.get(place, krate) {
            Some(tree) => Ok(tree.clone()?),
            None => {
                let source = self.sources.get(place)?;
                source_tree(alloc, &self.crates, krate, place, source)
            }
        }
    }

    /// What a source has under a crate where its place gets this one, or none.
    pub fn tree_with(
        &self,
        alloc: Global,
        krate: Crate,
        place: SourcePlace<'_>,
        source: Option<&Source>,
    ) -> Result<Rc<SourceTree>, AllocError>
        ensures value { IfOk result (λ t. t.value ≡ tree_under self.now.crates krate.0 (source_value place.entry) (option_map (λ s. source_view s.now) source.entry)) }
    {
        source_tree(alloc, &self.crates, krate, place, source)
    }

    /// Sets a file, which then has these under crates.
    pub fn set_file(
        &mut self,
        path: FilePath,
        source: Source,
        trees: CrateTrees,
    ) -> Result<(), AllocError>
        requires trees { AreTreesOf self.old.crates (file path) (Some (source_view source)) trees }
        ensures ok { OnOk result (self.new ≡ record self.old { sources = record self.old.sources { files = with_file self.old.sources.files path (source_view source) } }) }
        ensures err { OnErr result (self.new ≡ self.old) }
    {
        let at = path.clone()?;
        self.sources.set_file(path, source)?;
        self.trees.replace(&at, trees);
        Ok(())
    }

    /// Removes a file; an absent one has these under crates.
    pub fn remove_file(&mut self, path: &FilePath, trees: CrateTrees)
        requires trees { AreTreesOf self.old.crates (file path.now) None trees }
        ensures value { self.new ≡ record self.old { sources = record self.old.sources { files = without_file self.old.sources.files path.now } } }
    {
        self.sources.remove_file(path);
        self.trees.replace(path, trees);
    }

    /// Has a crate handed in with this; it is for data that name only crates which come before it. What is kept of sources under
    /// the crate is lowered anew.
    pub fn set_crate(
        &mut self,
        alloc: Global,
        krate: Crate,
        config: Config,
    ) -> Result<(), AllocError>
        requires within { krate.0 < length self.old.crates }
        ensures ok { OnOk result (self.new ≡ record self.old { crates = with_config self.old.crates krate.0 (config_view config) }) }
        ensures err { OnErr result (self.new ≡ self.old) }
    {
        hand_in(
            alloc,
            &mut self.crates,
            &self.sources,
            &mut self.trees,
            krate,
            config,
        )
    }

    /// Sets a block. What it had under its crate isn't kept.
    pub fn set_block(&mut self, place: BlockPlace, source: Source) -> Result<(), AllocError>
        ensures ok { OnOk result (self.new ≡ record self.old { sources = record self.old.sources { blocks = with_block self.old.sources.blocks (place_of_block place) (source_view source) } }) }
        ensures err { OnErr result (self.new ≡ self.old) }
    {
        self.trees.remove_block(&place);
        self.sources.set_block(place, source)
    }

    /// Removes a block. What it had under its crate isn't kept.
    pub fn remove_block(&mut self, place: &BlockPlace) -> Result<(), AllocError>
        ensures ok { OnOk result (self.new ≡ record self.old { sources = record self.old.sources { blocks = without_block self.old.sources.blocks (place_of_block place.now) } }) }
        ensures err { OnErr result (self.new ≡ self.old) }
    {
        self.trees.remove_block(place);
        self.sources.remove_block(place)
    }

    /// Sets an expansion. What it had under the crate that calls isn't kept.
    pub fn set_expansion(&mut self, key: ExpansionKey, entry: Entry) -> Result<(), AllocError>
        ensures ok { OnOk result (self.new ≡ record self.old { sources = record self.old.sources { entries = with_entry self.old.sources.entries (expansion_value key) (entry_value entry) } }) }
        ensures err { OnErr result (self.new ≡ self.old) }
    {
        self.trees.remove(&key);
        self.sources.set_expansion(key, entry)
    }

    /// Removes an expansion. What it had under the crate that calls isn't kept.
    pub fn remove_expansion(&mut self, key: &ExpansionKey)
        ensures value { self.new ≡ record self.old { sources = record self.old.sources { entries = without_entry self.old.sources.entries (expansion_value key.now) } } }
    {
        self.trees.remove(key);
        self.sources.remove_expansion(key);
    }

    /// Resolves a crate over the present sources, beside finished maps. What the sources have under the crate is kept.
    pub fn resolve<C: CollectDefs>(
        &mut self,
        alloc: Global,
        tables: &mut Tables,
        world: &World,
        k: u32,
    ) -> Result<Collected, CollectError>
        requires within { k < length self.old.crates }
        ensures same { self.new ≡ self.old }
        ensures kept { KeepsTables tables.old tables.new }
        ensures placed { AreCallsPlaced tables.old → AreCallsPlaced tables.new }
        ensures resolved { IfOk result (λ found. IsResolved tables.new (workspace_by self.old) (finished_in world.now.maps)
            (beginning_in self.old.crates k) (collected_view found)) }
        ensures many { result ≡ Err CollectError.TooMany
            → IsOverlong tables.new (workspace_by self.old) (finished_in world.now.maps) (beginning_in self.old.crates k) }
        ensures unknown { result ≡ Err CollectError.UnknownSource
            → MeetsUnknownSource tables.new (workspace_by self.old) (finished_in world.now.maps) (beginning_in self.old.crates k) }
    {
        let trees = replace(&mut self.trees, SourceTrees::new(alloc));
        let mut sources = Sources {
            crates: &self.crates,
            table: &self.sources,
            trees,
        };
        let found = collect::<C>(alloc, &mut sources, tables, world, k);
        self.trees = sources.trees;
        found
    }

    /// Resolves a block in the module that holds it, over the present sources, beside finished maps. What the sources have
    /// under its crate is kept.
    pub fn resolve_block<C: CollectDefs>(
        &mut self,
        alloc: Global,
        tables: &mut Tables,
        world: &World,
        at: HeldBlock,
    ) -> Result<Collected, CollectError>
        ensures same { self.new ≡ self.old }
        ensures kept { KeepsTables tables.old tables.new }
        ensures placed { AreCallsPlaced tables.old → AreCallsPlaced tables.new }
        ensures resolved { IfOk result (λ found. IsResolved tables.new (workspace_by self.old) (finished_in world.now.maps)
            (begins_in_block at.krate at.block at.holder at.file at.id) (collected_view found)) }
        ensures many { result ≡ Err CollectError.TooMany
            → IsOverlong tables.new (workspace_by self.old) (finished_in world.now.maps) (begins_in_block at.krate at.block at.holder at.file at.id) }
        ensures unknown { result ≡ Err CollectError.UnknownSource
            → MeetsUnknownSource tables.new (workspace_by self.old) (finished_in world.now.maps) (begins_in_block at.krate at.block at.holder at.file at.id) }
    {
        let trees = replace(&mut self.trees, SourceTrees::new(alloc));
        let mut sources = Sources {
            crates: &self.crates,
            table: &self.sources,
            trees,
        };
        let found = collect_block::<C>(alloc, &mut sources, tables, world, at);
        self.trees = sources.trees;
        found
    }
}
