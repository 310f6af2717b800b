//! The session: what is handed in, and what is kept of each crate and each block that was resolved.
//!
//! A run of the import rules for a crate notes each key that it asks for: what a file or an expansion has under the crate, the
//! variants of an enum, the text of a macro and the input of a call, the map of a crate on which it depends. So does a run for a
//! block, which asks for its own source too, and for the maps of its crate and of what holds it. What it comes to is kept, with
//! these keys.
//!
//! An edit of a source compares what the source has with what it gets, at each key of it for which a kept run asked: an index has
//! these keys by source, and of each the places. Where one is altered those places are marked, and so is each place that depends
//! on one: what is kept of them is dropped, with what the index has of them, and that is all that a mark is. A refresh runs the
//! import rules for the marked places: for crates in the order of their numbers, and then for blocks, an outer one before those
//! within it, so that a run finds what it depends on.
//!
//! The one difficulty: no query looks at a source. What is kept of a place is right because it is what the import rules could
//! have given just now, over the present sources: the invariant of a session says so of each place, and an edit or a refresh that ends
//! early leaves it true.
ghost use Rattle.std.specs.Prelude.{◌≡◌, map, length, None, Some, IfOk, OnOk, OnErr, IfErr, ◌≤◌, ◌⊎◌, Ok, Err};
ghost use Rattle.hir_session_state.specs.HirIds.Refusal.{Gives};
ghost use Rattle.hir_session_state.specs.HirMessages.CommandValue.{crate_input_view};
ghost use Rattle.hir_session_state.specs.HirTables.SourcePlaces.{expansion_value};
ghost use Rattle.hir_session_state.specs.HirMessages.Edits.{call_key_value, edit_view, entry_view, inner_entry};
ghost use Rattle.hir_session_state.specs.Beginning.{Begins};
ghost use Rattle.std.specs.List.{list_any};
ghost use Rattle.hir_session_state.specs.HirItemTree.Limits.{is_long};
ghost use Rattle.hir_session_state.specs.HirItemTree.Source.{source_view};
ghost use Rattle.hir_session_state.specs.SourceEdits.{edited, of_expansion, of_file};
ghost use Rattle.hir_session_state.specs.Refusals.{first_out_of_order, verdict_of_new, IsNewMemory, verdict_of_apply, verdict_of_expansion, verdict_of_inner, verdict_of_removal, verdict_of_source, IsEditMemory};
ghost use Rattle.hir_session_sources.specs.EditValues.{entry_value};
ghost use Rattle.hir_session_state.specs.Changes.{Becomes, Applies};

mod assoc_items;
mod blocks;
mod crates;
mod pending;
mod queries;
mod refresh;

use self::pending::{PendingBlock, forget};
use hir_base::file_path::FilePath;
use hir_base::ids::Crate;
use hir_base::limit::Limit;
use hir_base::macro_kind::ExpansionKey;
use hir_base::mod_path::ModPath;
use hir_base::text::Text;
use hir_item_tree::check::check;
use hir_item_tree::source::Source;
use hir_session_invalidation::inputs::Inputs;
use hir_session_invalidation::invalidate::{Invalidation, invalidated};
use hir_session_sources::beginning::{crates_of, first_late};
use hir_session_sources::entry::Entry;
use hir_session_sources::source_edit::SourceEdit;
use hir_session_state::askers::Askers;
use hir_session_state::error::{EditError, NewSessionError};
use hir_session_state::front::{has_deep_condition, has_long_path};
use hir_session_state::hir_messages::command::CrateInput;
use hir_session_state::hir_messages::edit::{CallKey, Edit, ExpansionEntry};
use hir_session_state::kept::Kept;
use hir_session_state::known_crates::names_known;
use hir_session_state::nesting::nests_too_deep;
use hir_tables::Tables;
use hir_use_tree::limits::is_long_path;
use std::alloc::{AllocError, Global};
use std::collections::BTreeSet;
use std::marker::Model;

/// The most crates that a session has.
pub const MAX_CRATES: usize = 10000;

/// The most paths that a macro may ask to have resolved before a call is expanded.
pub const MAX_INNER: usize = 1000;

/// Crates and sources as they were handed in, and for each place that was resolved what its names stand for.
pub struct Session {
    inputs: Inputs,
    tables: Tables,
    kept: Kept,
    askers: Askers,
    /// The blocks that are set and of which nothing is kept; None where that isn't known.
    pending: Option<BTreeSet<PendingBlock>>,
}

impl Drop for Session {
    fn drop(self) {
        let Session {
            inputs: _,
            tables: _,
            kept: _,
            askers: _,
            pending: _,
        } = self;
    }
}

impl Model for Session {
    ghost use Rattle.hir_session_state.specs.Askers.{HoldsExactly};
    ghost use Rattle.hir_session_state.specs.SessionState.{SessionState, IsSound, state_of};
    ghost use Rattle.hir_session_state.specs.Codes.{coded_session};
    ghost use Rattle.hir_session_core.specs.Progress.{AreKnownPending};

    ghost Value = { SessionState };

    ghost coded = { coded_session };

    ghost view = { λ s. state_of s.inputs s.tables s.kept };

    ghost invariant = { λ s. IsSound (state_of s.inputs s.tables s.kept) × HoldsExactly s.tables s.kept s.askers
        × AreKnownPending (state_of s.inputs s.tables s.kept) s.pending };
}

/// Whether a source is within the limits, and has each id once. How deep its items nest is looked at first,
/// since what goes down the items needs stack for it.
fn check_source(alloc: Global, source: &Source) -> Result<(), EditError>
    ensures accepted { OnOk result (verdict_of_source (source_view source.now) ≡ Ok tt) }
    ensures refused { IfErr result (λ e. IsEditMemory e ⊎ (verdict_of_source (source_view source.now) ≡ Err e)) }
{
    if nests_too_deep(source) {
        return Err(EditError::TooLarge(Limit::Modules));
    }
    check(alloc, source)?;
    Ok(())
}

/// Whether one of some paths has too many segments.
fn any_long(paths: &[ModPath]) -> bool
    ensures value { result ≡ list_any is_long paths.now }
{
    for path in paths {
        if is_long_path(path) {
            return true;
        }
    }
    false
}

/// Whether paths that a macro asks to have resolved first are within the limits.
fn check_paths(paths: &Vec<ModPath>) -> Result<(), EditError>
    ensures value { result ≡ verdict_of_inner paths.now.items }
{
    if any_long(paths) {
        return Err(EditError::TooLarge(Limit::Path));
    }
    if paths.len() > MAX_INNER {
        return Err(EditError::TooLarge(Limit::Inner));
    }
    Ok(())
}

/// What the expansion of a call depends on while no path is resolved.
fn key_of_call(alloc: Global, key: CallKey) -> ExpansionKey
    ensures value { expansion_value result ≡ call_key_value key }
{
    let CallKey {
        caller,
        called,
        call,
        input,
    } = key;
    ExpansionKey {
        caller,
        called,
        call,
        input,
        reached: Vec::new(alloc),
    }
}

impl Session {
    /// A session over these crates, numbered in this order, without sources.
    pub fn new(alloc: Global, inputs: Vec<CrateInput>) -> Result<Session, NewSessionError>
        ensures begins { IfOk result (λ s. Begins (map crate_input_view inputs.items) s) }
        ensures accepted { OnOk result (verdict_of_new (map crate_input_view inputs.items) ≡ Ok tt) }
        ensures refused { IfErr result (λ e. IsNewMemory e ⊎ (verdict_of_new (map crate_input_view inputs.items) ≡ Err e)) }
    {
        let count = inputs.as_slice().len();
        if let Some(k) = first_late(&inputs) {
            return Err(NewSessionError::DependencyOrder(Crate(k)));
        }
        if has_long_path(&inputs) {
            return Err(NewSessionError::TooLarge(Limit::Path));
        }
        if has_deep_condition(&inputs) {
            return Err(NewSessionError::TooLarge(Limit::Cfg));
        }
        if count > MAX_CRATES {
            return Err(NewSessionError::TooLarge(Limit::Crates));
        }
        let session = begin(alloc, &inputs)?;
        Ok(session)
    }

    /// Sets a checked file, and drops what is kept of what that touches.
    fn keep_file(&mut self, alloc: Global, file: FilePath, source: Source) -> Result<(), AllocError>
        ensures ok { OnOk result (Becomes self.old (edited self.old.sources (of_file file (Some (source_view source)))) self.new) }
        ensures err { OnErr result (self.new ≡ self.old) }
    {
        let edit = SourceEdit::File {
            path: &file,
            new: Some(&source),
        };
        let Invalidation { hits, trees } = invalidated(
            alloc,
            &self.inputs,
            &self.tables,
            &self.askers,
            edit,
        )?;
        self.inputs.set_file(file, source, trees)?;
        forget(
            &self.tables,
            &mut self.kept,
            &mut self.askers,
            &mut self.pending,
            &hits,
        );
        Ok(())
    }

    /// Removes a file, and drops what is kept of what that touches.
    fn remove_file(&mut self, alloc: Global, file: &FilePath) -> Result<(), AllocError>
        ensures ok { OnOk result (Becomes self.old (edited self.old.sources (of_file file.now None)) self.new) }
        ensures err { OnErr result (self.new ≡ self.old) }
    {
        let edit = SourceEdit::File {
            path: file,
            new: None,
        };
        let Invalidation { hits, trees } = invalidated(
            alloc,
            &self.inputs,
            &self.tables,
            &self.askers,
            edit,
        )?;
        self.inputs.remove_file(file, trees);
        forget(
            &self.tables,
            &mut self.kept,
            &mut self.askers,
            &mut self.pending,
            &hits,
        );
        Ok(())
    }

    /// Sets a checked expansion, and drops what is kept of what that touches.
    fn keep_expansion(
        &mut self,
        alloc: Global,
        key: ExpansionKey,
        entry: Entry,
    ) -> Result<(), AllocError>
        ensures ok { OnOk result (Becomes self.old (edited self.old.sources (of_expansion (expansion_value key) (Some (entry_value entry)))) self.new) }
        ensures err { OnErr result (self.new ≡ self.old) }
    {
        let edit = SourceEdit::Expansion {
            key: &key,
            new: Some(&entry),
        };
        let Invalidation { hits, trees: _ } = invalidated(
            alloc,
            &self.inputs,
            &self.tables,
            &self.askers,
            edit,
        )?;
        self.inputs.set_expansion(key, entry)?;
        forget(
            &self.tables,
            &mut self.kept,
            &mut self.askers,
            &mut self.pending,
            &hits,
        );
        Ok(())
    }

    /// Drops an expansion, and what is kept of what that touches.
    fn drop_expansion(&mut self, alloc: Global, key: &ExpansionKey) -> Result<(), AllocError>
        ensures ok { OnOk result (Becomes self.old (edited self.old.sources (of_expansion (expansion_value key.now) None)) self.new) }
        ensures err { OnErr result (self.new ≡ self.old) }
    {
        let edit = SourceEdit::Expansion { key, new: None };
        let Invalidation { hits, trees: _ } = invalidated(
            alloc,
            &self.inputs,
            &self.tables,
            &self.askers,
            edit,
        )?;
        self.inputs.remove_expansion(key);
        forget(
            &self.tables,
            &mut self.kept,
            &mut self.askers,
            &mut self.pending,
            &hits,
        );
        Ok(())
    }

    /// Sets a file, as the edit of that name does. A refused source is dropped.
    pub fn set_file(
        &mut self,
        alloc: Global,
        file: FilePath,
        source: Source,
    ) -> Result<(), EditError>
        ensures answer { Gives IsEditMemory result (verdict_of_source (source_view source)) }
        ensures ok { OnOk result (Becomes self.old (edited self.old.sources (of_file file (Some (source_view source)))) self.new) }
        ensures err { OnErr result (self.new ≡ self.old) }
    {
        check_source(alloc, &source)?;
        self.keep_file(alloc, file, source)?;
        Ok(())
    }

    /// Sets an expansion, as the edit of that name does. A refused expansion is dropped.
    pub fn set_expansion(
        &mut self,
        alloc: Global,
        key: ExpansionKey,
        entry: ExpansionEntry,
    ) -> Result<(), EditError>
        ensures answer { Gives IsEditMemory result (verdict_of_expansion (length self.old.crates) (expansion_value key) (entry_view entry)) }
        ensures ok { OnOk result (Becomes self.old (edited self.old.sources (of_expansion (expansion_value key) (Some (entry_view entry)))) self.new) }
        ensures err { OnErr result (self.new ≡ self.old) }
    {
        if !names_known(self.inputs.crates().len(), &key) {
            return Err(EditError::UnknownCrate);
        }
        check_source(alloc, &entry.source)?;
        self.keep_expansion(alloc, key, Entry::of_unit(entry))?;
        Ok(())
    }

    /// Sets the paths that an eager macro asks to have resolved first, as the edit of that name does. Refused paths are
    /// dropped.
    pub fn set_inner_paths(
        &mut self,
        alloc: Global,
        key: CallKey,
        inner: Vec<ModPath>,
        error: Option<Text>,
    ) -> Result<(), EditError>
        ensures answer { Gives IsEditMemory result (verdict_of_expansion (length self.old.crates) (call_key_value key) (inner_entry inner.items error)) }
        ensures ok { OnOk result (Becomes self.old (edited self.old.sources (of_expansion (call_key_value key) (Some (inner_entry inner.items error)))) self.new) }
        ensures err { OnErr result (self.new ≡ self.old) }
    {
        let key = key_of_call(alloc, key);
        if !names_known(self.inputs.crates().len(), &key) {
            return Err(EditError::UnknownCrate);
        }
        check_paths(&inner)?;
        let entry = Entry::of_paths(alloc, inner, error)?;
        self.keep_expansion(alloc, key, entry)?;
        Ok(())
    }

    /// Removes an expansion, as the edit of that name does.
    fn remove_expansion(&mut self, alloc: Global, key: &ExpansionKey) -> Result<(), EditError>
        ensures answer { Gives IsEditMemory result (verdict_of_removal (length self.old.crates) (expansion_value key.now)) }
        ensures ok { OnOk result (Becomes self.old (edited self.old.sources (of_expansion (expansion_value key.now) None)) self.new) }
        ensures err { OnErr result (self.new ≡ self.old) }
    {
        if !names_known(self.inputs.crates().len(), key) {
            return Err(EditError::UnknownCrate);
        }
        self.drop_expansion(alloc, key)?;
        Ok(())
    }

    /// Changes what is handed in, and marks what that touches. A refused edit is dropped.
    pub fn apply(&mut self, alloc: Global, edit: Edit) -> Result<(), EditError>
        ensures answer { Gives IsEditMemory result (verdict_of_apply (length self.old.crates) (edit_view edit)) }
        ensures ok { OnOk result (Applies self.old (edit_view edit) self.new) }
        ensures err { OnErr result (self.new ≡ self.old) }
    {
        match edit {
            Edit::SetFile { file, source } => self.set_file(alloc, file, source)?,
            Edit::RemoveFile { file } => self.remove_file(alloc, &file)?,
            Edit::SetBlock { place, source } => self.set_block(alloc, place, source)?,
            Edit::RemoveBlock { place } => self.remove_block(alloc, &place)?,
            Edit::SetExpansion { key, entry } => self.set_expansion(alloc, key, entry)?,
            Edit::SetInnerPaths { key, inner, error } => {
                self.set_inner_paths(alloc, key, inner, error)?
            }
            Edit::RemoveExpansion { key } => self.remove_expansion(alloc, &key)?,
            Edit::SetCrate {
                krate,
                edition,
                attrs,
                cfg,
                deps,
            } => self.set_crate(alloc, krate, edition, attrs, cfg, deps)?,
        }
        Ok(())
    }
}

/// A session over crates that can be taken, in order, and few enough.
fn begin(alloc: Global, inputs: &Vec<CrateInput>) -> Result<Session, AllocError>
    requires few { length inputs.now.items ≤ 10000 }
    requires ordered { first_out_of_order 0 (map crate_input_view inputs.now.items) ≡ None }
    ensures begins { IfOk result (λ s. Begins (map crate_input_view inputs.now.items) s) }
{
    let mut tables = Tables::new(alloc);
    let crates = crates_of(alloc, inputs, &mut tables)?;
    Ok(Session {
        inputs: Inputs::new(alloc, crates),
        tables,
        kept: Kept::new(alloc),
        askers: Askers::new(alloc),
        pending: None,
    })
}
