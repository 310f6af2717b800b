//! What a run of the import rules reads of a session.
ghost use Rattle.std.specs.Prelude.{◌≡◌, ◌<◌, length, Err, IfOk};
ghost use Rattle.hir_session_state.specs.HirTables.SourcePlaces.{source_value};
ghost use Rattle.hir_session_state.specs.HirTables.Tables.{KeepsTables};
ghost use Rattle.hir_session_state.specs.HirNameres.World.{finished_in};
ghost use Rattle.hir_session_state.specs.HirCollectorRules.Calls.{AreCallsPlaced};
ghost use Rattle.hir_session_state.specs.HirCollectorRules.Derivation.{IsOverlong, collected_view};
ghost use Rattle.hir_session_state.specs.HirCollectorRules.Start.{beginning};
ghost use Rattle.hir_session_state.specs.HirCollectorRules.UnknownSources.{MeetsUnknownSource};
ghost use Rattle.hir_session_state.specs.Crates.{begins_in_block, beginning_in};
ghost use Rattle.hir_session_state.specs.SessionState.{IsResolved};
ghost use Rattle.hir_session_state.specs.SourceTable.{source_at, tree_under, workspace_in};
ghost use Rattle.hir_session_sources.specs.SourceTrees.{AreCurrent, current_prop};

use hir_base::ast_id::{BlockId, EditionedFileId, HirFileId, InFile, SyntaxId};
use hir_base::ids::{Crate, ModuleId};
use hir_base::macro_kind::ExpansionKey;
use hir_item_tree::source_tree::SourceTree;
use hir_item_tree::tree_id::TreeId;
use hir_session_sources::crates::Crates;
use hir_session_sources::seen_entry::look_at;
use hir_session_sources::source_table::SourceTable;
use hir_session_sources::source_trees::{SourceTrees, source_tree};
use hir_session_state::hir_collector_rules::collected::Collected;
use hir_session_state::hir_collector_rules::source_database::{
    Config, CrateRoot, ExpansionLook, SourceDatabase,
};
use hir_session_state::hir_collector_rules::start::{CollectError, Start};
use hir_session_state::hir_crate_graph::CrateSet;
use hir_session_state::hir_def_map::world::World;
use hir_tables::{SourcePlace, Tables};
use std::alloc::{AllocError, Global};
use std::rc::Rc;

/// The crates and sources of a session, with what the sources have under crates, to which a run adds.
#[derive(Drop)]
pub struct Sources<'a> {
    pub crates: &'a Crates,
    pub table: &'a SourceTable,
    pub trees: SourceTrees,
    ghost current: { AreCurrent (workspace_in crates.now table.now) trees } by { current_prop _ _ },
}

impl<'a> Sources<'a> {
    /// What a source has under a crate: as it is kept, or made and kept.
    fn tree_at(
        &mut self,
        alloc: Global,
        krate: Crate,
        place: SourcePlace<'_>,
    ) -> Result<Rc<SourceTree>, AllocError>
        ensures value { IfOk result (λ t. t.value ≡ tree_under self.old.crates.now krate.0 (source_value place.entry) (source_at self.old.table.now (source_value place.entry))) }
        ensures same { workspace_in self.new.crates.now self.new.table.now ≡ workspace_in self.old.crates.now self.old.table.now }
    {
        if let Some(tree) = self.trees.get(place, krate) {
            return Ok(tree.clone()?);
        }
        let source = self.table.get(place)?;
        let tree = source_tree(alloc, self.crates, krate, place, source)?;
        self.trees.set(alloc, place, krate, tree.clone()?)?;
        Ok(tree)
    }
}

impl<'a> SourceDatabase for Sources<'a> {
    ghost use Rattle.hir_session_state.specs.SourceTable.{workspace_in};

    ghost workspace = { λ s. workspace_in s.crates.now s.table.now };

    fn krate(&self, krate: Crate) -> Option<&CrateRoot> {
        match self.crates.get(krate) {
            Some(info) => Some(info.own()),
            None => None,
        }
    }

    fn config(&self, krate: Crate) -> Option<&Config> {
        match self.crates.get(krate) {
            Some(info) => Some(info.config()),
            None => None,
        }
    }

    fn transitive_dependencies(&self, krate: Crate) -> Option<&Rc<CrateSet>> {
        self.crates.transitive_dependencies(krate)
    }

    fn tree(
        &mut self,
        alloc: Global,
        krate: Crate,
        source: SourcePlace<'_>,
    ) -> Result<Rc<SourceTree>, AllocError> {
        self.tree_at(alloc, krate, source)
    }

    fn present(&self, _krate: Crate, source: SourcePlace<'_>) -> bool {
        self.table.has(source)
    }

    fn expansion(&self, key: &ExpansionKey) -> ExpansionLook<'_> {
        look_at(self.table.entry(key))
    }
}

/// A block that has a number, the module that holds it, the file in which that is written, and the block's node there.
#[derive(Clone, Copy)]
pub struct HeldBlock {
    pub krate: Crate,
    pub block: BlockId,
    pub holder: ModuleId,
    pub file: EditionedFileId,
    pub id: SyntaxId,
}

/// What runs the import rules: the collector, which sessions know by what it promises alone.
pub trait CollectDefs {
    /// Runs the import rules from a start, beside finished maps.
    fn collect_defs(
        alloc: Global,
        sources: &mut Sources<'_>,
        tables: &mut Tables,
        world: &World,
        start: Start,
        tree: TreeId,
    ) -> Result<Collected, CollectError>
        ensures same { workspace_in sources.new.crates.now sources.new.table.now ≡ workspace_in sources.old.crates.now sources.old.table.now }
        ensures kept { KeepsTables tables.old tables.new }
        ensures placed { AreCallsPlaced tables.old → AreCallsPlaced tables.new }
        ensures resolved { IfOk result (λ found. IsResolved tables.new (workspace_in sources.old.crates.now sources.old.table.now)
            (finished_in world.now.maps) (beginning start tree None) (collected_view found)) }
        ensures many { result ≡ Err CollectError.TooMany
            → IsOverlong tables.new (workspace_in sources.old.crates.now sources.old.table.now) (finished_in world.now.maps) (beginning start tree None) }
        ensures unknown { result ≡ Err CollectError.UnknownSource
            → MeetsUnknownSource tables.new (workspace_in sources.old.crates.now sources.old.table.now) (finished_in world.now.maps) (beginning start tree None) };
}

/// Runs the import rules for the crate of a number, beside finished maps.
pub fn collect<C: CollectDefs>(
    alloc: Global,
    sources: &mut Sources<'_>,
    tables: &mut Tables,
    world: &World,
    k: u32,
) -> Result<Collected, CollectError>
    requires within { k < length sources.old.crates.now }
    ensures same { workspace_in sources.new.crates.now sources.new.table.now ≡ workspace_in sources.old.crates.now sources.old.table.now }
    ensures kept { KeepsTables tables.old tables.new }
    ensures placed { AreCallsPlaced tables.old → AreCallsPlaced tables.new }
    ensures resolved { IfOk result (λ found. IsResolved tables.new (workspace_in sources.old.crates.now sources.old.table.now)
        (finished_in world.now.maps) (beginning_in sources.old.crates.now k) (collected_view found)) }
    ensures many { result ≡ Err CollectError.TooMany
        → IsOverlong tables.new (workspace_in sources.old.crates.now sources.old.table.now) (finished_in world.now.maps) (beginning_in sources.old.crates.now k) }
    ensures unknown { result ≡ Err CollectError.UnknownSource
        → MeetsUnknownSource tables.new (workspace_in sources.old.crates.now sources.old.table.now) (finished_in world.now.maps) (beginning_in sources.old.crates.now k) }
{
    let root = sources.crates.as_slice()[k as usize].root();
    let krate = Crate(k);
    let start = Start::Crate { krate, root };
    let tree = TreeId {
        file: HirFileId::File(root),
        block: None,
    };
    C::collect_defs(alloc, sources, tables, world, start, tree)
}

/// Runs the import rules for a block in the module that holds it, beside finished maps.
pub fn collect_block<C: CollectDefs>(
    alloc: Global,
    sources: &mut Sources<'_>,
    tables: &mut Tables,
    world: &World,
    at: HeldBlock,
) -> Result<Collected, CollectError>
    ensures same { workspace_in sources.new.crates.now sources.new.table.now ≡ workspace_in sources.old.crates.now sources.old.table.now }
    ensures kept { KeepsTables tables.old tables.new }
    ensures placed { AreCallsPlaced tables.old → AreCallsPlaced tables.new }
    ensures resolved { IfOk result (λ found. IsResolved tables.new (workspace_in sources.old.crates.now sources.old.table.now)
        (finished_in world.now.maps) (begins_in_block at.krate at.block at.holder at.file at.id) (collected_view found)) }
    ensures many { result ≡ Err CollectError.TooMany
        → IsOverlong tables.new (workspace_in sources.old.crates.now sources.old.table.now) (finished_in world.now.maps) (begins_in_block at.krate at.block at.holder at.file at.id) }
    ensures unknown { result ≡ Err CollectError.UnknownSource
        → MeetsUnknownSource tables.new (workspace_in sources.old.crates.now sources.old.table.now) (finished_in world.now.maps) (begins_in_block at.krate at.block at.holder at.file at.id) }
{
    let file_id = HirFileId::File(at.file);
    let start = Start::Block {
        krate: at.krate,
        block: at.block,
        holder: at.holder,
        at: InFile {
            file_id,
            value: at.id,
        },
    };
    let tree = TreeId {
        file: file_id,
        block: Some(at.block),
    };
    C::collect_defs(alloc, sources, tables, world, start, tree)
}
