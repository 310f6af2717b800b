//! From one kind of import to another.
ghost use Rattle.std.specs.Prelude.{◌≡◌};
ghost use Rattle.hir_per_ns.specs.Imports.{import_or_glob_of, import_of, glob_of, use_of, import_of_value, as_item_import, as_target, value_as_target};

use crate::imports::{GlobId, ImportId, ImportOrDef, ImportOrExternCrate, ImportOrGlob};
use hir_ids::ids::UseId;

impl ImportOrExternCrate {
    pub fn import_or_glob(self) -> Option<ImportOrGlob>
        ensures value { result ≡ import_or_glob_of self }
    {
        match self {
            ImportOrExternCrate::Glob(glob) => Some(ImportOrGlob::Glob(glob)),
            ImportOrExternCrate::Import(import) => Some(ImportOrGlob::Import(import)),
            ImportOrExternCrate::ExternCrate(_) => None,
        }
    }

    pub fn import(self) -> Option<ImportId>
        ensures value { result ≡ import_of self }
    {
        match self {
            ImportOrExternCrate::Import(import) => Some(import),
            _ => None,
        }
    }

    pub fn glob(self) -> Option<GlobId>
        ensures value { result ≡ glob_of self }
    {
        match self {
            ImportOrExternCrate::Glob(glob) => Some(glob),
            _ => None,
        }
    }

    /// The `use` item that an import or a glob is a leaf of.
    pub fn use_(self) -> Option<UseId>
        ensures value { result ≡ use_of self }
    {
        match self {
            ImportOrExternCrate::Glob(glob) => Some(glob.use_),
            ImportOrExternCrate::Import(import) => Some(import.use_),
            ImportOrExternCrate::ExternCrate(_) => None,
        }
    }
}

impl ImportOrGlob {
    pub fn into_import(self) -> Option<ImportId>
        ensures value { result ≡ import_of_value self }
    {
        match self {
            ImportOrGlob::Import(import) => Some(import),
            ImportOrGlob::Glob(_) => None,
        }
    }
}

impl From<ImportOrGlob> for ImportOrExternCrate {
    ghost from_gives = { λ import outcome. outcome ≡ as_item_import import };

    fn from(import: ImportOrGlob) -> ImportOrExternCrate {
        match import {
            ImportOrGlob::Glob(glob) => ImportOrExternCrate::Glob(glob),
            ImportOrGlob::Import(import) => ImportOrExternCrate::Import(import),
        }
    }
}

impl From<ImportOrExternCrate> for ImportOrDef {
    ghost from_gives = { λ import outcome. outcome ≡ as_target import };

    fn from(import: ImportOrExternCrate) -> ImportOrDef {
        match import {
            ImportOrExternCrate::Glob(glob) => ImportOrDef::Glob(glob),
            ImportOrExternCrate::Import(import) => ImportOrDef::Import(import),
            ImportOrExternCrate::ExternCrate(declared) => ImportOrDef::ExternCrate(declared),
        }
    }
}

impl From<ImportOrGlob> for ImportOrDef {
    ghost from_gives = { λ import outcome. outcome ≡ value_as_target import };

    fn from(import: ImportOrGlob) -> ImportOrDef {
        match import {
            ImportOrGlob::Glob(glob) => ImportOrDef::Glob(glob),
            ImportOrGlob::Import(import) => ImportOrDef::Import(import),
        }
    }
}
