//! What an import of a use tree is: its path, what it brings, and its alias.
ghost use Rattle.std.specs.Prelude.{◌≡◌, IfOk};

use crate::shared_path::SharedPath;
use hir_base::name::Name;
use std::alloc::AllocError;

/// The alias of an import.
#[derive(Drop)]
pub enum ImportAlias {
    /// `as _`.
    Underscore,
    Alias(Name),
}

impl ImportAlias {
    /// The same alias again.
    pub fn clone(&self) -> Result<ImportAlias, AllocError>
        ensures value { IfOk result (λ a. a ≡ self.now) }
    {
        match self {
            ImportAlias::Underscore => Ok(ImportAlias::Underscore),
            ImportAlias::Alias(name) => Ok(ImportAlias::Alias(name.clone()?)),
        }
    }
}

/// What an import brings.
#[derive(Clone, Copy, Debug, PartialEq, Eq)]
pub enum ImportKind {
    Plain,
    Glob,
    TypeOnly,
}

/// An import of a use tree.
#[derive(Drop)]
pub struct Import {
    /// The place of the leaf that writes it, among the parts of the tree in preorder.
    pub place: u32,
    pub path: SharedPath,
    pub kind: ImportKind,
    pub alias: Option<ImportAlias>,
}
