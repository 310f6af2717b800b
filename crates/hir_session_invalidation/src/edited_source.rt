//! The source of an edit.
ghost use Rattle.std.specs.Prelude.{◌≡◌, ◌↔◌, IsTrue};
ghost use Rattle.hir_session_state.specs.SourceEdits.{place_of};
ghost use Rattle.hir_session_sources.specs.EditValues.{edit_value};
ghost use Rattle.hir_session_state.specs.SourceNumbers.{IsNumberOf};

use crate::inputs::Inputs;
use hir_session_sources::seen_entry::is_same_look;
use hir_session_sources::source_edit::SourceEdit;
use hir_session_state::hir_collector_rules::source_database::Key;
use hir_session_state::source_number::{SourceNumber, asked_number};
use hir_tables::Tables;

/// An edit of a source that has a number, and what was handed in before it.
#[derive(Drop)]
pub struct EditedSource<'a> {
    pub inputs: &'a Inputs,
    pub tables: &'a Tables,
    pub edit: SourceEdit<'a>,
    pub number: SourceNumber,
    ghost numbered: { IsNumberOf tables.now (place_of (edit_value edit)) number },
}

impl<'a> EditedSource<'a> {
    ghost use Rattle.hir_session_state.specs.SourceEdits.{IsSeenAlike};
    ghost use Rattle.hir_session_state.specs.SourceNumbers.{asks};

    /// Whether a key asks for the source.
    pub fn asks(&self, key: Key) -> bool
        ensures value { result ≡ asks self.now.tables.now self.now.number key }
    {
        match asked_number(self.tables, key) {
            Some(number) => number == self.number,
            None => false,
        }
    }

    /// Whether what stands beside the items of an expansion stays what it is; a file and a block have nothing of that.
    pub fn leaves_beside(&self) -> bool
        ensures exact { IsTrue result ↔ IsSeenAlike self.now.inputs.now.sources (edit_value self.now.edit) }
    {
        match self.edit {
            SourceEdit::File { .. } | SourceEdit::Block { .. } => true,
            SourceEdit::Expansion { key, new } => is_same_look(
                self.inputs.sources().entry(key),
                new,
            ),
        }
    }
}
