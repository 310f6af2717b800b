//! What an import writes.
ghost use Rattle.std.specs.Prelude.{◌≡◌, IfOk};
ghost use Rattle.hir_import_rules.specs.Directives.{glob_of, is_one_name, is_plain, is_unnamed, kind_of, leaf_of, name_of, way_of};

use hir_base::ids::{Crate, ExternCrateId};
use hir_base::mod_path::PathKind;
use hir_base::name::Name;
use hir_item_tree::shared_path::SharedPath;
use hir_nameres::hir_raw_visibility::raw_visibility::RawVisibility;
use hir_nameres::hir_scope::imports::{GlobId, ImportId, ImportOrExternCrate};
use hir_use_tree::imports::{ImportAlias, ImportKind};
use std::alloc::AllocError;

/// What writes an import.
#[derive(Clone, Copy, Debug, PartialEq, Eq)]
pub enum ImportSource {
    /// A leaf of a `use` item.
    Use {
        id: ImportId,
        kind: ImportKind,
    },
    /// An `extern crate`, and the crate that it names, where there is one.
    ExternCrate {
        id: ExternCrateId,
        krate: Option<Crate>,
    },
}

/// An import of a module, after rust-analyzer's `ImportDirective`.
#[derive(Drop)]
pub struct ImportDirective {
    /// The number of the module that has it.
    pub home: u32,
    pub source: ImportSource,
    pub visibility: RawVisibility,
    pub path: SharedPath,
    pub alias: Option<ImportAlias>,
}

impl ImportSource {
    /// What the import is to those that it binds.
    pub fn way(self) -> ImportOrExternCrate
        ensures value { result ≡ way_of self }
    {
        match self {
            ImportSource::Use { id, .. } => ImportOrExternCrate::Import(id),
            ImportSource::ExternCrate { id, .. } => ImportOrExternCrate::ExternCrate(id),
        }
    }

    /// What the import brings: an `extern crate` all that it reaches.
    pub fn kind(self) -> ImportKind
        ensures value { result ≡ kind_of self }
    {
        match self {
            ImportSource::Use { kind, .. } => kind,
            ImportSource::ExternCrate { .. } => ImportKind::Plain,
        }
    }

    /// The glob that it is, if it is one.
    pub fn glob(self) -> Option<GlobId>
        ensures value { result ≡ glob_of self }
    {
        match self {
            ImportSource::Use {
                id,
                kind: ImportKind::Glob,
            } => Some(GlobId {
                use_: id.use_,
                idx: id.idx,
            }),
            _ => None,
        }
    }

    /// The leaf of a `use` item that it is, if it is one.
    pub fn leaf(self) -> Option<ImportId>
        ensures value { result ≡ leaf_of self }
    {
        match self {
            ImportSource::Use { id, .. } => Some(id),
            ImportSource::ExternCrate { .. } => None,
        }
    }
}

impl ImportDirective {
    /// The name that it gives: its alias, or else the last name of its path.
    pub fn name(&self) -> Result<Option<Name>, AllocError>
        ensures value { IfOk result (λ name. name ≡ name_of self.now) }
    {
        match &self.alias {
            Some(ImportAlias::Alias(name)) => Ok(Some(name.clone()?)),
            Some(ImportAlias::Underscore) => Ok(None),
            None => match self.path.last() {
                Some(name) => Ok(Some(name.clone()?)),
                None => Ok(None),
            },
        }
    }

    /// Whether it keeps its trait without a name.
    pub fn is_unnamed(&self) -> bool
        ensures value { result ≡ is_unnamed self.now.alias }
    {
        matches!(self.alias, Some(ImportAlias::Underscore))
    }
}

/// Whether a path is one name alone.
pub fn is_one_name(path: &SharedPath) -> bool
    ensures value { result ≡ is_one_name path.now }
{
    matches!(path.kind(), PathKind::Plain) && path.has_one_name()
}
