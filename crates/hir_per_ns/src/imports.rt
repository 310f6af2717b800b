//! What brings a name into a scope, after rust-analyzer's `item_scope.rs`.

use hir_ids::ids::{ExternCrateId, ModuleDefId, UseId};

/// An import of one name: its `use` item, and its leaf's place there.
#[derive(Clone, Copy, Debug, PartialEq, Eq, PartialOrd, Ord, Hash)]
pub struct ImportId {
    pub use_: UseId,
    pub idx: u32,
}

/// A glob import: its `use` item, and its leaf's place there.
#[derive(Clone, Copy, Debug, PartialEq, Eq, PartialOrd, Ord, Hash)]
pub struct GlobId {
    pub use_: UseId,
    pub idx: u32,
}

/// What brought a value.
#[derive(Clone, Copy, Debug, PartialEq, Eq, PartialOrd, Ord, Hash)]
pub enum ImportOrGlob {
    Glob(GlobId),
    Import(ImportId),
}

/// What brought a type or a macro.
#[derive(Clone, Copy, Debug, PartialEq, Eq, PartialOrd, Ord, Hash)]
pub enum ImportOrExternCrate {
    Glob(GlobId),
    Import(ImportId),
    ExternCrate(ExternCrateId),
}

/// What an import reached: what had brought it there, or else its definition.
#[derive(Clone, Copy, Debug, PartialEq, Eq, Hash)]
pub enum ImportOrDef {
    Import(ImportId),
    Glob(GlobId),
    ExternCrate(ExternCrateId),
    Def(ModuleDefId),
}
