//! An edit of one source.
ghost use Rattle.std.specs.Prelude.{◌≡◌, option_map};
ghost use Rattle.hir_session_state.specs.HirItemTree.Source.{source_view};
ghost use Rattle.hir_session_state.specs.HirTables.SourcePlaces.{source_value};
ghost use Rattle.hir_session_state.specs.SourceEdits.{place_of, source_by};
ghost use Rattle.hir_session_sources.specs.EditValues.{edit_value};

use crate::entry::Entry;
use crate::seen_entry::source_in;
use hir_base::file_path::FilePath;
use hir_base::macro_kind::ExpansionKey;
use hir_base::place::BlockPlace;
use hir_item_tree::source::Source;
use hir_tables::SourcePlace;

/// An edit of a source: what it gets, or nothing where it is removed.
#[derive(Clone, Copy)]
pub enum SourceEdit<'a> {
    File {
        path: &'a FilePath,
        new: Option<&'a Source>,
    },
    Block {
        place: &'a BlockPlace,
        new: Option<&'a Source>,
    },
    Expansion {
        key: &'a ExpansionKey,
        new: Option<&'a Entry>,
    },
}

impl<'a> SourceEdit<'a> {
    /// Where the source stands.
    pub fn place(self) -> SourcePlace<'a>
        ensures value { source_value result ≡ place_of (edit_value self.entry) }
    {
        match self {
            SourceEdit::File { path, new: _ } => SourcePlace::File(path),
            SourceEdit::Block { place, new: _ } => SourcePlace::Block(place),
            SourceEdit::Expansion { key, new: _ } => SourcePlace::Expansion(key),
        }
    }

    /// The source that stands there then.
    pub fn source(self) -> Option<&'a Source>
        ensures value { option_map (λ s. source_view s.now) result ≡ source_by (edit_value self.entry) }
    {
        match self {
            SourceEdit::File { path: _, new } => new,
            SourceEdit::Block { place: _, new } => new,
            SourceEdit::Expansion { key: _, new } => source_in(new),
        }
    }
}
