//! Edits of blocks.
ghost use Rattle.std.specs.Prelude.{◌≡◌, ◌⊎◌, None, Some, OnOk, OnErr, IfErr, Ok, Err, length, nat_lt, option_map};
ghost use Rattle.hir_session_state.specs.HirIds.Refusal.{Gives};
ghost use Rattle.hir_session_state.specs.HirItemTree.Source.{source_view};
ghost use Rattle.hir_session_state.specs.Blocks.{place_of_block};
ghost use Rattle.hir_session_state.specs.Changes.{Becomes};
ghost use Rattle.hir_session_state.specs.Refusals.{verdict_of_block, verdict_of_source, verdict_with_steps, IsEditMemory};
ghost use Rattle.hir_session_state.specs.SourceEdits.{edited, of_block};
ghost use Rattle.hir_session_state.specs.Standing.{block_map, block_number};
ghost use Rattle.hir_session_core.specs.BlockVerdicts.{told_with_steps};

use super::pending::{PendingBlock, forget_listing, settle};
use super::{Session, check_source};
use hir_base::ids::MapId;
use hir_base::place::BlockPlace;
use hir_item_tree::source::Source;
use hir_session_invalidation::invalidate::{Invalidation, invalidated};
use hir_session_sources::source_edit::SourceEdit;
use hir_session_state::error::EditError;
use hir_session_state::steps::check_with_steps;
use std::alloc::{AllocError, Global};

/// What is told where this came of the check of a source, with the steps to its block.
fn told_with_steps(block: &BlockPlace, verdict: Result<(), EditError>) -> Result<(), EditError>
    ensures value { result ≡ told_with_steps (place_of_block block.now).elements verdict }
{
    match verdict {
        Err(EditError::Memory) => verdict,
        Err(
            EditError::UnknownCrate
            | EditError::TooLarge(_)
            | EditError::DependencyOrder(_)
            | EditError::DuplicateId { .. },
        )
        | Ok(()) => check_with_steps(block, verdict),
    }
}

/// Whether a source has each id once, and is within the limits with the steps to its block.
fn check_block(alloc: Global, block: &BlockPlace, source: &Source) -> Result<(), EditError>
    ensures accepted { OnOk result (verdict_with_steps (place_of_block block.now).elements (verdict_of_source (source_view source.now)) ≡ Ok tt) }
    ensures refused { IfErr result (λ e. IsEditMemory e
        ⊎ (verdict_with_steps (place_of_block block.now).elements (verdict_of_source (source_view source.now)) ≡ Err e)) }
{
    let verdict = check_source(alloc, source);
    told_with_steps(block, verdict)
}

impl Session {
    /// Whether there is the crate of a block.
    fn has_crate_of(&self, block: &BlockPlace) -> bool
        ensures value { result ≡ nat_lt block.now.holder.krate.0 (length self.now.crates) }
    {
        (block.holder.krate().0 as usize) < self.inputs.crates().len()
    }

    /// The id of a block's map, where the block has a number.
    fn block_id(&self, block: &BlockPlace) -> Option<MapId>
        ensures value { result ≡ option_map (block_map block.now.holder.krate) (block_number self.now.tables block.now) }
    {
        match self.tables.block_number(block) {
            Some(number) => Some(MapId {
                krate: block.holder.krate(),
                block: Some(number),
            }),
            None => None,
        }
    }

    /// Sets a checked block, and drops what is kept of what that touches.
    fn keep_block(
        &mut self,
        alloc: Global,
        block: BlockPlace,
        source: Source,
    ) -> Result<(), AllocError>
        ensures ok { OnOk result (Becomes self.old (edited self.old.sources (of_block block (Some (source_view source)))) self.new) }
        ensures err { OnErr result (self.new ≡ self.old) }
    {
        let edit = SourceEdit::Block {
            place: &block,
            new: Some(&source),
        };
        let Invalidation { hits, trees: _ } = invalidated(
            alloc,
            &self.inputs,
            &self.tables,
            &self.askers,
            edit,
        )?;
        let one = PendingBlock::new(alloc, &block)?;
        let own = self.block_id(&block);
        self.inputs.set_block(block, source)?;
        let mut known = self.pending.take();
        let fell = forget_listing(
            alloc,
            &self.tables,
            &mut self.kept,
            &mut self.askers,
            &hits,
            known.is_some(),
        );
        let is_kept = self.kept.has(own);
        settle(&mut known, one, !is_kept);
        self.await_fallen(alloc, known, fell);
        Ok(())
    }

    /// Drops a block, and what is kept of what that touches.
    fn drop_block(&mut self, alloc: Global, block: &BlockPlace) -> Result<(), AllocError>
        ensures ok { OnOk result (Becomes self.old (edited self.old.sources (of_block block.now None)) self.new) }
        ensures err { OnErr result (self.new ≡ self.old) }
    {
        let edit = SourceEdit::Block {
            place: block,
            new: None,
        };
        let Invalidation { hits, trees: _ } = invalidated(
            alloc,
            &self.inputs,
            &self.tables,
            &self.askers,
            edit,
        )?;
        let one = PendingBlock::new(alloc, block)?;
        self.inputs.remove_block(block)?;
        let mut known = self.pending.take();
        let fell = forget_listing(
            alloc,
            &self.tables,
            &mut self.kept,
            &mut self.askers,
            &hits,
            known.is_some(),
        );
        settle(&mut known, one, false);
        self.await_fallen(alloc, known, fell);
        Ok(())
    }

    /// Sets a block, as the edit of that name does, whether or not what holds it is there. A refused source is dropped.
    pub fn set_block(
        &mut self,
        alloc: Global,
        block: BlockPlace,
        source: Source,
    ) -> Result<(), EditError>
        ensures answer { Gives IsEditMemory result (verdict_of_block (length self.old.crates) block (verdict_of_source (source_view source))) }
        ensures ok { OnOk result (Becomes self.old (edited self.old.sources (of_block block (Some (source_view source)))) self.new) }
        ensures err { OnErr result (self.new ≡ self.old) }
    {
        if !self.has_crate_of(&block) {
            return Err(EditError::UnknownCrate);
        }
        check_block(alloc, &block, &source)?;
        self.keep_block(alloc, block, source)?;
        Ok(())
    }

    /// Removes a block, as the edit of that name does.
    pub(super) fn remove_block(
        &mut self,
        alloc: Global,
        block: &BlockPlace,
    ) -> Result<(), EditError>
        ensures answer { Gives IsEditMemory result (verdict_of_block (length self.old.crates) block.now (Ok tt)) }
        ensures ok { OnOk result (Becomes self.old (edited self.old.sources (of_block block.now None)) self.new) }
        ensures err { OnErr result (self.new ≡ self.old) }
    {
        if !self.has_crate_of(block) {
            return Err(EditError::UnknownCrate);
        }
        check_with_steps(block, Ok(()))?;
        self.drop_block(alloc, block)?;
        Ok(())
    }
}
