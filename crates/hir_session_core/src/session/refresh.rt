//! Resolving again what is marked.
//!
//! Crates come first, by number, so that a run finds what it depends on. Once no crate is marked, blocks follow, an outer one
//! before those within it: whether the module that holds a block is there is known once the blocks around it were resolved.
ghost use Rattle.std.specs.Prelude.{◌≡◌, ◌≢◌, ℕ, ◌<◌, ◌≤◌, ◌++◌, ◌∷◌, [], true, false, length, None, Some, IfOk, IfSome, IsSome, OnOk, OnErr, OnSome, Err};
ghost use Rattle.hir_session_state.specs.HirBase.Locations.{max_locations};
ghost use Rattle.hir_session_state.specs.HirBase.Place.{PlaceValue};
ghost use Rattle.hir_session_state.specs.HirBase.declared.place.BlockPlace.{BlockPlace};
ghost use Rattle.hir_session_state.specs.HirCollectorRules.Derivation.{IsOverlong, collected_view};
ghost use Rattle.hir_session_state.specs.HirTables.Tables.{block_at, file_at};
ghost use Rattle.hir_session_state.specs.Blocks.{place_of_block};
ghost use Rattle.hir_session_state.specs.Crates.{begins_in_block, id_of};
ghost use Rattle.hir_session_state.specs.Changes.{Refreshes, RefreshesPartly};
ghost use Rattle.hir_session_state.specs.Due.{root_place, Grows, HasOverlongRun, IsDueBlock, IsStuckAt, Resolved};
ghost use Rattle.hir_session_state.specs.SessionState.{SessionState, Resolution, beginning_of, finished_of, is_marked, module_of, workspace_of, IsPlace, IsResolutionOf, IsSound};
ghost use Rattle.hir_session_state.specs.Standing.{block_map, block_number, definition_file, is_set};
ghost use Rattle.hir_session_core.specs.Progress.{held_in, AreCratesCurrent, AreFollowedCurrent, HasAllPending, HasResolved, IsBlockResolved, IsModuleThere, IsRefreshed};
ghost use Rattle.hir_session_answers.specs.Status.{status_of};
ghost use Rattle.hir_session_state.specs.HirMessages.declared.reply.Status.TheVariants as status;

use super::Session;
use super::pending::PendingBlock;
use hir_base::ast_id::{BlockId, EditionedFileId};
use hir_base::ids::{Crate, MapId, ModuleId};
use hir_base::place::{BlockPlace, Place};
use hir_session_answers::definition_files::definition_file_at;
use hir_session_invalidation::sources::{CollectDefs, HeldBlock};
use hir_session_sources::source_trees::copied_place;
use hir_session_state::error::RefreshError;
use hir_session_state::hir_collector_rules::collected::Collected;
use hir_session_state::hir_collector_rules::start::CollectError;
use std::alloc::{AllocError, Global};
use std::collections::BTreeSet;

/// A block that is due, and the module that holds it.
#[derive(Clone, Copy)]
struct DueBlock<'a> {
    place: &'a BlockPlace,
    holder: ModuleId,
}

/// Puts the place of a crate's root at the end.
fn note(alloc: Global, done: &mut Vec<Place>, k: u32) -> Result<(), AllocError>
    ensures ok { OnOk result (done.new.items ≡ done.old.items ++ root_place k ∷ []) }
{
    done.push(Place::new(Crate(k), Vec::new(alloc)))?;
    Ok(())
}

/// Puts a place at the end.
fn note_place(done: &mut Vec<Place>, place: &Place) -> Result<(), AllocError>
    ensures ok { OnOk result (done.new.items ≡ done.old.items ++ place.now ∷ []) }
{
    done.push(place.clone()?)?;
    Ok(())
}

/// Why a refresh ends early where a run was given up. A run meets no unknown source: the maps beside it were made over the
/// session's own tables.
fn refresh_error(error: CollectError) -> RefreshError
    requires known { error ≢ CollectError.UnknownSource }
    ensures many { result ≡ RefreshError.TooMany → error ≡ CollectError.TooMany }
    ensures memory { result ≡ RefreshError.Memory → error ≡ CollectError.Memory }
{
    match error {
        CollectError::TooMany => RefreshError::TooMany,
        CollectError::Memory => RefreshError::Memory,
        CollectError::UnknownSource => unreachable!(),
    }
}

impl Session {
    /// Keeps what a run came to for a marked place, of which what it depends on is current.
    fn keep_found(&mut self, found: Collected) -> Result<(), AllocError>
        requires place { IsPlace self.old found.map.id }
        requires marked { is_marked self.old found.map.id ≡ true }
        requires found { IsResolutionOf self.old found.map.id (held_in self.old (collected_view found)) }
        requires behind { AreFollowedCurrent self.old found.map.id found.map.holder }
        ensures ok { OnOk result (Resolved self.old found.map.id (held_in self.old (collected_view found)) self.new) }
        ensures sound { IsSound self.new }
        ensures err { OnErr result (self.new ≡ self.old) }
    {
        // Fewer blocks may wait now. `refresh_blocks` says which do.
        self.pending = None;
        self.kept.keep(&self.tables, &mut self.askers, found)?;
        Ok(())
    }

    /// Whether nothing is kept of a crate.
    fn is_marked_at(&self, k: u32) -> bool
        ensures value { result ≡ is_marked self.now (id_of k) }
    {
        self.is_marked(MapId::of_crate(Crate(k)))
    }

    /// What a run gives for a crate, beside the maps of those before it.
    fn found_at<C: CollectDefs>(&mut self, alloc: Global, k: u32) -> Result<Collected, RefreshError>
        requires within { k < length self.old.crates }
        requires first { (j : ℕ) → j < k → is_marked self.old (id_of j) ≡ false }
        ensures grown { Grows self.old self.new }
        ensures found { IfOk result (λ r. IsResolutionOf self.new (id_of k) (held_in self.new (collected_view r))) }
        ensures many { result ≡ Err RefreshError.TooMany → IsStuckAt self.new (root_place k) }
    {
        match self
            .inputs
            .resolve::<C>(alloc, &mut self.tables, self.kept.world(), k)
        {
            Ok(found) => Ok(found),
            Err(error) => Err(refresh_error(error)),
        }
    }

    /// Resolves the first marked crate.
    fn resolve_at<C: CollectDefs>(&mut self, alloc: Global, k: u32) -> Result<(), RefreshError>
        requires within { k < length self.old.crates }
        requires first { (j : ℕ) → j < k → is_marked self.old (id_of j) ≡ false }
        requires marked { is_marked self.old (id_of k) ≡ true }
        ensures ok { OnOk result ((r : Resolution) × Resolved self.old (id_of k) r self.new) }
        ensures sound { IsSound self.new }
        ensures many { result ≡ Err RefreshError.TooMany → IsStuckAt self.new (root_place k) }
        ensures err { OnErr result (Grows self.old self.new) }
    {
        let found = self.found_at::<C>(alloc, k)?;
        self.keep_found(found)?;
        Ok(())
    }

    /// Resolves the marked crates, in order, and lists them.
    fn refresh_crates<C: CollectDefs>(&mut self, alloc: Global) -> Result<Vec<Place>, RefreshError>
        ensures so_far { IfOk result (λ done. HasResolved self.old done.items self.new) }
        ensures current { OnOk result (AreCratesCurrent self.new) }
        ensures err { OnErr result (RefreshesPartly self.old self.new) }
        ensures many { result ≡ Err RefreshError.TooMany → HasOverlongRun self.new }
    {
        let mut done = Vec::new(alloc);
        for k in 0..self.inputs.crates().len() as u32 {
            if self.is_marked_at(k) {
                note(alloc, &mut done, k)?;
                self.resolve_at::<C>(alloc, k)?;
            }
        }
        Ok(done)
    }

    /// The number of a block, which it gets where it has none.
    fn number_of(&mut self, block: BlockPlace) -> Result<BlockId, RefreshError>
        ensures sound { OnOk result (IsSound self.old) }
        ensures grown { Grows self.old self.new }
        ensures means { IfOk result (λ id. block_at self.new.tables id ≡ Some block) }
        ensures number { IfOk result (λ id. block_number self.new.tables block ≡ Some id) }
        ensures many { result ≡ Err RefreshError.TooMany
            → (block_number self.new.tables block ≡ None) × (max_locations ≤ length self.new.tables.blocks) }
    {
        let number = self.tables.intern_block(block)?;
        Ok(number)
    }

    /// The file in which a module of a current map is written, or the outermost call around it.
    fn file_of(&self, m: ModuleId) -> EditionedFileId
        requires there { IsModuleThere self.now m }
        ensures is { definition_file self.now.tables self.now.kept m ≡ Some result }
        ensures numbered { IsSome (file_at self.now.tables result.file_id) }
    {
        definition_file_at(&self.tables, &self.kept, m).unwrap()
    }

    /// What a run gives for a block, beside the maps of its crate and of the module that holds it.
    fn found_in<C: CollectDefs>(
        &mut self,
        alloc: Global,
        at: HeldBlock,
    ) -> Result<Collected, RefreshError>
        requires place { IsPlace self.old (block_map at.krate at.block) }
        requires marked { is_marked self.old (block_map at.krate at.block) ≡ true }
        requires begun { beginning_of self.old (block_map at.krate at.block)
            ≡ Some (begins_in_block at.krate at.block at.holder at.file at.id) }
        requires numbered { IsSome (file_at self.old.tables at.file.file_id) }
        requires behind { AreFollowedCurrent self.old (block_map at.krate at.block) (Some at.holder) }
        ensures grown { Grows self.old self.new }
        ensures found { IfOk result (λ r. IsResolutionOf self.new (block_map at.krate at.block) (held_in self.new (collected_view r))) }
        ensures holder { IfOk result (λ r. r.map.holder ≡ Some at.holder) }
        ensures many { result ≡ Err RefreshError.TooMany → IsOverlong self.new.tables (workspace_of self.new) (finished_of self.new)
            (begins_in_block at.krate at.block at.holder at.file at.id) }
    {
        match self
            .inputs
            .resolve_block::<C>(alloc, &mut self.tables, self.kept.world(), at)
        {
            Ok(found) => Ok(found),
            Err(error) => Err(refresh_error(error)),
        }
    }

    /// Resolves a block that has a number, in the module that holds it.
    fn resolve_in<C: CollectDefs>(
        &mut self,
        alloc: Global,
        at: HeldBlock,
    ) -> Result<(), RefreshError>
        requires place { IsPlace self.old (block_map at.krate at.block) }
        requires marked { is_marked self.old (block_map at.krate at.block) ≡ true }
        requires begun { beginning_of self.old (block_map at.krate at.block)
            ≡ Some (begins_in_block at.krate at.block at.holder at.file at.id) }
        requires numbered { IsSome (file_at self.old.tables at.file.file_id) }
        requires behind { AreFollowedCurrent self.old (block_map at.krate at.block) (Some at.holder) }
        ensures ok { OnOk result ((r : Resolution) × Resolved self.old (block_map at.krate at.block) r self.new) }
        ensures sound { IsSound self.new }
        ensures many { result ≡ Err RefreshError.TooMany → IsOverlong self.new.tables (workspace_of self.new) (finished_of self.new)
            (begins_in_block at.krate at.block at.holder at.file at.id) }
        ensures err { OnErr result (Grows self.old self.new) }
    {
        let found = self.found_in::<C>(alloc, at)?;
        self.keep_found(found)?;
        Ok(())
    }

    /// Gives a block that is due its number, and resolves it in the module that holds it.
    fn resolve_block<C: CollectDefs>(
        &mut self,
        alloc: Global,
        block: BlockPlace,
        holder: ModuleId,
    ) -> Result<(), RefreshError>
        requires crates { AreCratesCurrent self.old }
        requires due { IsDueBlock self.old block }
        requires held { module_of self.old block.holder ≡ Some holder }
        ensures ok { OnOk result (IsBlockResolved self.old block self.new) }
        ensures sound { IsSound self.new }
        ensures many { result ≡ Err RefreshError.TooMany → IsStuckAt self.new (place_of_block block) }
        ensures err { OnErr result (Grows self.old self.new) }
    {
        let krate = block.holder.krate();
        let id = block.id;
        let number = self.number_of(block)?;
        let file = self.file_of(holder);
        self.resolve_in::<C>(
            alloc,
            HeldBlock {
                krate,
                block: number,
                holder,
                file,
                id,
            },
        )
    }

    /// A block with the module that holds it, if it is marked.
    fn due_in<'a>(&self, place: &'a BlockPlace, holder: ModuleId) -> Option<DueBlock<'a>>
        requires set { is_set self.now.sources.blocks place.now ≡ true }
        requires held { module_of self.now place.now.holder ≡ Some holder }
        ensures place { IfSome result (λ due. due.place.now ≡ place.now) }
        ensures holder { IfSome result (λ due. due.holder ≡ holder) }
        ensures due { OnSome result (IsDueBlock self.now place.now) }
        ensures none { result ≡ None → ¬ IsDueBlock self.now place.now }
    {
        if self.is_block_marked(place) {
            Some(DueBlock { place, holder })
        } else {
            None
        }
    }

    /// A block that is set, if it is due.
    fn due_block<'a>(&self, place: &'a BlockPlace) -> Option<DueBlock<'a>>
        requires set { is_set self.now.sources.blocks place.now ≡ true }
        ensures place { IfSome result (λ due. due.place.now ≡ place.now) }
        ensures due { OnSome result (IsDueBlock self.now place.now) }
        ensures held { IfSome result (λ due. module_of self.now place.now.holder ≡ Some due.holder) }
        ensures none { result ≡ None → ¬ IsDueBlock self.now place.now }
    {
        match self.standing(&place.holder).module() {
            Some(holder) => self.due_in(place, holder),
            None => None,
        }
    }

    /// The block whose root a place names, if it is due.
    fn due_at(&self, root: &Place) -> Option<DueBlock<'_>>
        ensures sound { IsSound self.now }
        ensures place { IfSome result (λ due. place_of_block due.place.now ≡ root.now) }
        ensures due { IfSome result (λ due. IsDueBlock self.now due.place.now) }
        ensures held { IfSome result (λ due. module_of self.now due.place.now.holder ≡ Some due.holder) }
        ensures none { result ≡ None → (b : BlockPlace) → place_of_block b ≡ root.now → ¬ IsDueBlock self.now b }
    {
        let blocks = self.inputs.sources().blocks();
        match blocks.place(root.krate(), root.elements()) {
            Some(place) => self.due_block(place),
            None => None,
        }
    }

    /// Resolves the block whose root a place names, if it is due, and lists it.
    fn refresh_block<C: CollectDefs>(
        &mut self,
        alloc: Global,
        root: &Place,
        done: &mut Vec<Place>,
    ) -> Result<(), RefreshError>
        requires crates { AreCratesCurrent self.old }
        ensures ok { OnOk result (IsRefreshed self.old root.now done.old.items done.new.items self.new) }
        ensures err { OnErr result (Grows self.old self.new) }
        ensures many { result ≡ Err RefreshError.TooMany
            → (b : BlockPlace) × (place_of_block b ≡ root.now) × IsDueBlock self.old b × IsStuckAt self.new root.now }
    {
        match self.due_at(root) {
            Some(due) => {
                let block = copied_place(due.place)?;
                let holder = due.holder;
                note_place(done, root)?;
                self.resolve_block::<C>(alloc, block, holder)
            }
            None => Ok(()),
        }
    }

    /// Resolves, of these blocks, those that are marked and set and whose holding place is there, an outer one before those
    /// within it, and lists them. Resolving one makes only deeper ones due.
    fn refresh_each<C: CollectDefs>(
        &mut self,
        alloc: Global,
        pending: &BTreeSet<PendingBlock>,
        done: &mut Vec<Place>,
    ) -> Result<(), RefreshError>
        requires crates { AreCratesCurrent self.old }
        requires sound { IsSound self.old }
        requires all { HasAllPending self.old pending.now.keys }
        ensures so_far { OnOk result ((from : SessionState) → HasResolved from done.old.items self.old
            → HasResolved from done.new.items self.new) }
        ensures current { OnOk result (AreCratesCurrent self.new) }
        ensures none_due { OnOk result ((b : BlockPlace) → ¬ IsDueBlock self.new b) }
        ensures all { OnOk result (HasAllPending self.new pending.now.keys) }
        ensures err { OnErr result ((from : SessionState) → HasResolved from done.old.items self.old → RefreshesPartly from self.new) }
        ensures many { result ≡ Err RefreshError.TooMany → HasOverlongRun self.new }
    {
        for block in pending {
            self.refresh_block::<C>(alloc, &block.place, done)?;
        }
        Ok(())
    }

    /// Resolves the blocks that are due, and lists them.
    fn refresh_blocks<C: CollectDefs>(
        &mut self,
        alloc: Global,
        done: &mut Vec<Place>,
    ) -> Result<(), RefreshError>
        requires crates { AreCratesCurrent self.old }
        ensures so_far { OnOk result ((from : SessionState) → HasResolved from done.old.items self.old
            → HasResolved from done.new.items self.new) }
        ensures current { OnOk result (AreCratesCurrent self.new) }
        ensures none_due { OnOk result ((b : BlockPlace) → ¬ IsDueBlock self.new b) }
        ensures err { OnErr result ((from : SessionState) → HasResolved from done.old.items self.old → RefreshesPartly from self.new) }
        ensures many { result ≡ Err RefreshError.TooMany → HasOverlongRun self.new }
    {
        let pending = self.take_pending(alloc)?;
        self.refresh_each::<C>(alloc, &pending, done)?;
        let left = self.still_pending(alloc, pending)?;
        self.await_blocks(left);
        Ok(())
    }

    /// Resolves what is marked, in order, by a collector, and lists it.
    pub fn refresh_by<C: CollectDefs>(&mut self, alloc: Global) -> Result<Vec<Place>, RefreshError>
        ensures refreshes { IfOk result (λ done. Refreshes self.old done.items self.new) }
        ensures none_stale { OnOk result ((k : ℕ) → k < length self.new.crates → is_marked self.new (id_of k) ≡ false) }
        ensures nowhere_stale { OnOk result ((place : PlaceValue) → status_of self.new place ≢ status.Stale) }
        ensures err { OnErr result (RefreshesPartly self.old self.new) }
        ensures many { result ≡ Err RefreshError.TooMany → HasOverlongRun self.new }
    {
        let mut done = self.refresh_crates::<C>(alloc)?;
        self.refresh_blocks::<C>(alloc, &mut done)?;
        Ok(done)
    }
}
