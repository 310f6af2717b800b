//! What the calls of a session are refused for, each in the order in which it is looked for.

use hir_base::ast_id::{AstKind, SyntaxId};
use hir_base::ids::Crate;
use hir_base::limit::Limit;
use hir_base::locations::LocationsError;
use hir_item_tree::check::CheckError;
use std::alloc::{AllocError, AllocFailed};
use thiserror::Error;

/// Why a session isn't made.
#[derive(Clone, Copy, Debug, PartialEq, Eq, Drop, Error)]
pub enum NewSessionError {
    /// A dependency of this crate doesn't come before it.
    #[error("crate {} depends on one that doesn't come before it", .0.0)]
    DependencyOrder(Crate),
    #[error("{} is above the limit", measured(*.0))]
    TooLarge(Limit),
    #[error("out of memory")]
    Memory,
}

/// Why an edit is refused.
#[derive(Clone, Copy, Debug, PartialEq, Eq, Drop, Error)]
pub enum EditError {
    #[error("there is no such crate")]
    UnknownCrate,
    /// The first limit that is passed.
    #[error("{} is above the limit", measured(*.0))]
    TooLarge(Limit),
    /// A dependency of this crate doesn't come before it.
    #[error("crate {} depends on one that doesn't come before it", .0.0)]
    DependencyOrder(Crate),
    /// Two nodes of one kind have this id.
    #[error("two nodes of kind {kind:?} have the id [{}, {}]", .id.hash, .id.index)]
    DuplicateId { kind: AstKind, id: SyntaxId },
    #[error("out of memory")]
    Memory,
}

/// Why a refresh ended early.
#[derive(Clone, Copy, Debug, PartialEq, Eq, Drop, Error)]
pub enum RefreshError {
    /// A run took more steps, or made more modules, than are counted, or no number was left for a file, a block, an
    /// expansion or a macro call.
    #[error("a run took more steps, or made more modules, than are counted")]
    TooMany,
    #[error("out of memory")]
    Memory,
}

/// Why a query has no answer.
#[derive(Clone, Copy, Debug, PartialEq, Eq, Drop, Error)]
pub enum QueryError {
    /// What is kept of the place may be out of date.
    #[error("what is kept of the place may be out of date")]
    StalePlace,
    #[error("there is no such crate, module or block")]
    UnknownPlace,
    #[error("out of memory")]
    Memory,
}

/// Why the items of a trait aren't listed.
#[derive(Clone, Copy, Debug, PartialEq, Eq, Drop, Error)]
pub enum TraitItemsError {
    /// What is kept of the place may be out of date.
    #[error("what is kept of the place may be out of date")]
    StalePlace,
    #[error("there is no such crate, module or block")]
    UnknownPlace,
    /// The path names no trait, or goes on past one.
    #[error("the path names no trait")]
    NotATrait,
    /// No number was left for a macro call or for what one expands to, or more items came up than are counted.
    #[error("more macro calls or items came up than are counted")]
    TooMany,
    #[error("out of memory")]
    Memory,
}

/// Why the items of an impl aren't listed.
#[derive(Clone, Copy, Debug, PartialEq, Eq, Drop, Error)]
pub enum ImplItemsError {
    /// What is kept of the place may be out of date.
    #[error("what is kept of the place may be out of date")]
    StalePlace,
    #[error("there is no such crate, module or block")]
    UnknownPlace,
    #[error("the module has no impl of that number")]
    NoSuchImpl,
    /// No number was left for a macro call or for what one expands to, or more items came up than are counted.
    #[error("more macro calls or items came up than are counted")]
    TooMany,
    #[error("out of memory")]
    Memory,
}

/// Why the tree of a file isn't shown.
#[derive(Clone, Copy, Debug, PartialEq, Eq, Drop, Error)]
pub enum TreeTextError {
    #[error("there is no such crate")]
    UnknownCrate,
    #[error("out of memory")]
    Memory,
}

/// Why the diagnostics of a crate aren't told.
#[derive(Clone, Copy, Debug, PartialEq, Eq, Drop, Error)]
pub enum DiagnosticsError {
    #[error("there is no such crate")]
    UnknownCrate,
    /// What is kept of the crate may be out of date.
    #[error("what is kept of the crate may be out of date")]
    StalePlace,
    #[error("out of memory")]
    Memory,
}

/// Why the modules of a crate aren't listed.
#[derive(Clone, Copy, Debug, PartialEq, Eq, Drop, Error)]
pub enum ModulesError {
    #[error("there is no such crate")]
    UnknownCrate,
    /// What is kept of the crate may be out of date.
    #[error("what is kept of the crate may be out of date")]
    StalePlace,
    #[error("out of memory")]
    Memory,
}

/// What a limit is on.
fn measured(limit: Limit) -> &'static str {
    match limit {
        Limit::Line => "the length of a line",
        Limit::Name => "the length of a name",
        Limit::Path => "the length of a path",
        Limit::File => "the length of a file's path",
        Limit::Index => "the index of an id",
        Limit::Nodes => "the number of nodes",
        Limit::Modules => "the depth of modules",
        Limit::UseTree => "the depth of a use tree",
        Limit::Cfg => "the depth of a condition",
        Limit::Blocks => "the depth of blocks",
        Limit::Crates => "the number of crates",
        Limit::Inner => "the number of inner paths",
    }
}

impl From<AllocError> for NewSessionError {
    ghost use Rattle.std.specs.Prelude.{◌≡◌};
    ghost use Rattle.hir_session_state.specs.declared.error.NewSessionError.TheVariants.{Memory};

    ghost from_gives = { λ _ e. e ≡ Memory };

    fn from(_: AllocError) -> NewSessionError {
        NewSessionError::Memory
    }
}

impl From<AllocError> for EditError {
    ghost use Rattle.std.specs.Prelude.{◌≡◌};
    ghost use Rattle.hir_session_state.specs.declared.error.EditError.TheVariants.{Memory};

    ghost from_gives = { λ _ e. e ≡ Memory };

    fn from(_: AllocError) -> EditError {
        EditError::Memory
    }
}

impl From<CheckError> for EditError {
    ghost use Rattle.std.specs.Prelude.{◌≡◌};
    ghost use Rattle.hir_session_state.specs.Refusals.{edit_error_of};

    ghost from_gives = { λ e r. r ≡ edit_error_of e };

    fn from(error: CheckError) -> EditError {
        match error {
            CheckError::TooLarge(limit) => EditError::TooLarge(limit),
            CheckError::DuplicateId { kind, id } => EditError::DuplicateId { kind, id },
            CheckError::Memory => EditError::Memory,
        }
    }
}

impl From<AllocError> for RefreshError {
    ghost use Rattle.std.specs.Prelude.{◌≡◌};
    ghost use Rattle.hir_session_state.specs.declared.error.RefreshError.TheVariants.{Memory};

    ghost from_gives = { λ _ e. e ≡ Memory };

    fn from(_: AllocError) -> RefreshError {
        RefreshError::Memory
    }
}

impl<T: Drop> From<AllocFailed<T>> for RefreshError {
    ghost use Rattle.std.specs.Prelude.{◌≡◌};
    ghost use Rattle.hir_session_state.specs.declared.error.RefreshError.TheVariants.{Memory};

    ghost from_gives = { λ _ e. e ≡ Memory };

    fn from(_: AllocFailed<T>) -> RefreshError {
        RefreshError::Memory
    }
}

impl From<LocationsError> for RefreshError {
    ghost use Rattle.std.specs.Prelude.{◌≡◌};
    ghost use Rattle.hir_session_state.specs.Refusals.{refresh_error_of_number};

    ghost from_gives = { λ error r. r ≡ refresh_error_of_number error };

    fn from(error: LocationsError) -> RefreshError {
        match error {
            LocationsError::TooMany => RefreshError::TooMany,
            LocationsError::Memory => RefreshError::Memory,
        }
    }
}

impl From<AllocError> for QueryError {
    ghost use Rattle.std.specs.Prelude.{◌≡◌};
    ghost use Rattle.hir_session_state.specs.declared.error.QueryError.TheVariants.{Memory};

    ghost from_gives = { λ _ e. e ≡ Memory };

    fn from(_: AllocError) -> QueryError {
        QueryError::Memory
    }
}

impl From<AllocError> for TraitItemsError {
    ghost use Rattle.std.specs.Prelude.{◌≡◌};
    ghost use Rattle.hir_session_state.specs.declared.error.TraitItemsError.TheVariants.{Memory};

    ghost from_gives = { λ _ e. e ≡ Memory };

    fn from(_: AllocError) -> TraitItemsError {
        TraitItemsError::Memory
    }
}

impl From<AllocError> for ImplItemsError {
    ghost use Rattle.std.specs.Prelude.{◌≡◌};
    ghost use Rattle.hir_session_state.specs.declared.error.ImplItemsError.TheVariants.{Memory};

    ghost from_gives = { λ _ e. e ≡ Memory };

    fn from(_: AllocError) -> ImplItemsError {
        ImplItemsError::Memory
    }
}

impl From<AllocError> for TreeTextError {
    ghost use Rattle.std.specs.Prelude.{◌≡◌};
    ghost use Rattle.hir_session_state.specs.declared.error.TreeTextError.TheVariants.{Memory};

    ghost from_gives = { λ _ e. e ≡ Memory };

    fn from(_: AllocError) -> TreeTextError {
        TreeTextError::Memory
    }
}

impl From<AllocError> for DiagnosticsError {
    ghost use Rattle.std.specs.Prelude.{◌≡◌};
    ghost use Rattle.hir_session_state.specs.declared.error.DiagnosticsError.TheVariants.{Memory};

    ghost from_gives = { λ _ e. e ≡ Memory };

    fn from(_: AllocError) -> DiagnosticsError {
        DiagnosticsError::Memory
    }
}

impl From<AllocError> for ModulesError {
    ghost use Rattle.std.specs.Prelude.{◌≡◌};
    ghost use Rattle.hir_session_state.specs.declared.error.ModulesError.TheVariants.{Memory};

    ghost from_gives = { λ _ e. e ≡ Memory };

    fn from(_: AllocError) -> ModulesError {
        ModulesError::Memory
    }
}
