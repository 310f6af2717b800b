//! Edits of the input between two queries.

use crate::command::Dependencies;
use hir_base::cfg::CfgAtom;
use hir_base::edition::Edition;
use hir_base::file_path::FilePath;
use hir_base::ids::Crate;
use hir_base::macro_kind::{CallStyle, ExpansionKey, MacroText};
use hir_base::mod_path::ModPath;
use hir_base::place::BlockPlace;
use hir_base::text::Text;
use hir_item_tree::raw_attr::RawAttr;
use hir_item_tree::source::Source;

/// What a macro call expands to.
#[derive(Drop)]
pub struct ExpansionEntry {
    pub source: Source,
    /// Why the expansion failed, if it did. Its source counts all the same.
    pub error: Option<Text>,
}

/// What the expansion of a call depends on before any path in its input is resolved.
#[derive(Drop)]
pub struct CallKey {
    /// The crate that calls.
    pub caller: Crate,
    /// The macro that it calls.
    pub called: MacroText,
    pub call: CallStyle,
    pub input: Text,
}

/// A change of the input.
#[derive(Drop)]
pub enum Edit {
    /// Sets a file's source, in place of an earlier one.
    SetFile {
        file: FilePath,
        source: Source,
    },
    /// Removes a file, if there is one.
    RemoveFile {
        file: FilePath,
    },
    /// Sets a block's source, in place of an earlier one.
    SetBlock {
        place: BlockPlace,
        source: Source,
    },
    /// Removes a block, if there is one.
    RemoveBlock {
        place: BlockPlace,
    },
    /// Sets what the macro calls with this key expand to, in place of what was set earlier.
    SetExpansion {
        key: ExpansionKey,
        entry: ExpansionEntry,
    },
    /// Sets the paths that an eager macro asks to have resolved before calls with this key are expanded, in place of what
    /// was set earlier. The expansion is then that of the key with the macros that the paths reach.
    SetInnerPaths {
        key: CallKey,
        inner: Vec<ModPath>,
        /// Why the expansion failed, if it did. Calls of other macros are told with it.
        error: Option<Text>,
    },
    /// Removes what the macro calls with this key expand to, if it is set.
    RemoveExpansion {
        key: ExpansionKey,
    },
    /// Gives a crate other data. Its root file, and whether it is a procedural macro's, stay.
    SetCrate {
        krate: Crate,
        edition: Edition,
        /// The attributes at the crate's top that its root file doesn't write.
        attrs: Vec<RawAttr>,
        /// The options that are set.
        cfg: Vec<CfgAtom>,
        deps: Dependencies,
    },
}
