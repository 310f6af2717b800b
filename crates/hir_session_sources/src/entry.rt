//! Expansions, as they are kept.
ghost use Rattle.std.specs.Prelude.{◌≡◌, IfOk};
ghost use Rattle.hir_session_state.specs.HirMessages.Edits.{entry_view, inner_entry};
ghost use Rattle.hir_session_sources.specs.EditValues.{entry_value};

use hir_base::mod_path::ModPath;
use hir_base::text::Text;
use hir_item_tree::source::{Source, Unit};
use hir_session_state::hir_collector_rules::inner_paths::InnerPaths;
use hir_session_state::hir_messages::edit::ExpansionEntry;
use std::alloc::{AllocError, Global};

/// What a macro call expands to, or the paths that its macro asks to have resolved first.
#[derive(Drop)]
pub struct Entry {
    /// The syntax; that of an empty unit where paths are listed.
    pub source: Source,
    /// Why the expansion failed, if it did.
    pub error: Option<Text>,
    pub inner: InnerPaths,
}

impl Entry {
    /// An expansion that lists no paths.
    pub fn of_unit(entry: ExpansionEntry) -> Entry
        ensures value { entry_value result ≡ entry_view entry }
    {
        let ExpansionEntry { source, error } = entry;
        Entry {
            source,
            error,
            inner: InnerPaths::none(),
        }
    }

    /// One that lists these paths.
    pub fn of_paths(
        alloc: Global,
        inner: Vec<ModPath>,
        error: Option<Text>,
    ) -> Result<Entry, AllocError>
        ensures value { IfOk result (λ entry. entry_value entry ≡ inner_entry inner.items error) }
    {
        Ok(Entry {
            source: Source::Unit(Unit::new(alloc, Vec::new(alloc))),
            error,
            inner: InnerPaths::new(alloc, inner)?,
        })
    }
}
