//! Where a run begins, and why one is given up.
ghost use Rattle.std.specs.Prelude.{◌≡◌};
ghost use Rattle.hir_collector_rules.specs.Start.{block_of, id_of, krate_of, origin_of, root_visibility};

use hir_base::ast_id::{BlockId, EditionedFileId, InFile, SyntaxId};
use hir_base::ids::{Crate, MapId, ModuleId};
use hir_base::locations::LocationsError;
use hir_glob_imports::MAX_STEPS;
use hir_import_rules::ImportError;
use hir_item_tree::raw_visibility::VisibilityExplicitness;
use hir_nameres::hir_scope::visibility::Visibility;
use hir_nameres::nameres::origin::ModuleOrigin;
use hir_nameres::nameres::{AddModuleError, BlockInfo};
use std::alloc::AllocError;

/// Where a run begins.
#[derive(Clone, Copy, Debug, PartialEq, Eq, Hash)]
pub enum Start {
    /// A crate, and its root file in the crate's edition.
    Crate {
        krate: Crate,
        root: EditionedFileId,
    },
    /// A block of a crate, the module that holds it, and its node in the file that this module is written in.
    Block {
        krate: Crate,
        block: BlockId,
        holder: ModuleId,
        at: InFile<SyntaxId>,
    },
}

impl Start {
    /// The crate that the names are of.
    pub fn krate(self) -> Crate
        ensures value { result ≡ krate_of self }
    {
        match self {
            Start::Crate { krate, .. } | Start::Block { krate, .. } => krate,
        }
    }

    /// The block and the module that holds it, if it is one.
    pub fn block(self) -> Option<BlockInfo>
        ensures value { result ≡ block_of self }
    {
        match self {
            Start::Crate { .. } => None,
            Start::Block { block, holder, .. } => Some(BlockInfo {
                block,
                parent: holder,
            }),
        }
    }

    /// The map that is made.
    pub fn map_id(self) -> MapId
        ensures value { result ≡ id_of self }
    {
        match self {
            Start::Crate { krate, .. } => MapId { krate, block: None },
            Start::Block { krate, block, .. } => MapId {
                krate,
                block: Some(block),
            },
        }
    }

    /// What the root module is of.
    pub fn origin(self) -> ModuleOrigin
        ensures value { result ≡ origin_of self }
    {
        match self {
            Start::Crate { root, .. } => ModuleOrigin::CrateRoot { definition: root },
            Start::Block { block, at, .. } => ModuleOrigin::BlockExpr {
                id: block,
                block: at,
            },
        }
    }

    /// Who sees the root module: of a block what sees into the module that holds it.
    pub fn visibility(self) -> Visibility
        ensures value { result ≡ root_visibility self }
    {
        match self {
            Start::Crate { .. } => Visibility::Public,
            Start::Block { holder, .. } => {
                Visibility::Module(holder, VisibilityExplicitness::Implicit)
            }
        }
    }
}

/// How many steps a run may take, those along globs among them, and how many modules it may make.
pub const STEP_LIMIT: u32 = MAX_STEPS;

/// Why a step isn't taken.
#[derive(Clone, Copy, Debug, PartialEq, Eq)]
pub enum StepError {
    /// As many steps or modules as are counted, and another was wanted; or no number is left.
    TooMany,
    Memory,
}

/// Why a run was given up.
#[derive(Clone, Copy, Debug, PartialEq, Eq)]
pub enum CollectError {
    /// As many steps or modules as are counted, and another was wanted; or no number is left.
    TooMany,
    /// A source has no number: that of a macro of a finished map, which was made over other tables, or the file in which a
    /// block is written.
    UnknownSource,
    Memory,
}

impl From<AllocError> for StepError {
    ghost use Rattle.std.specs.Prelude.{◌≡◌};
    ghost use Rattle.hir_collector_rules.specs.declared.start.StepError.TheVariants as Errors;

    ghost from_gives = { λ _ e. e ≡ Errors.Memory };

    fn from(_error: AllocError) -> StepError {
        StepError::Memory
    }
}

impl From<AddModuleError> for StepError {
    ghost use Rattle.std.specs.Prelude.{◌≡◌};
    ghost use Rattle.hir_collector_rules.specs.Moves.{refusal_of};

    ghost from_gives = { λ x e. e ≡ refusal_of x };

    fn from(error: AddModuleError) -> StepError {
        match error {
            AddModuleError::TooMany => StepError::TooMany,
            AddModuleError::Memory => StepError::Memory,
        }
    }
}

impl From<LocationsError> for StepError {
    ghost use Rattle.std.specs.Prelude.{◌≡◌};
    ghost use Rattle.hir_collector_rules.specs.Moves.{refusal_of_number};

    ghost from_gives = { λ x e. e ≡ refusal_of_number x };

    fn from(error: LocationsError) -> StepError {
        match error {
            LocationsError::TooMany => StepError::TooMany,
            LocationsError::Memory => StepError::Memory,
        }
    }
}

impl From<ImportError> for StepError {
    ghost use Rattle.std.specs.Prelude.{◌≡◌};
    ghost use Rattle.hir_collector_rules.specs.Moves.{refusal_of_import};

    ghost from_gives = { λ x e. e ≡ refusal_of_import x };

    fn from(error: ImportError) -> StepError {
        match error {
            ImportError::TooMany => StepError::TooMany,
            ImportError::Memory => StepError::Memory,
        }
    }
}

impl From<AllocError> for CollectError {
    ghost use Rattle.std.specs.Prelude.{◌≡◌};
    ghost use Rattle.hir_collector_rules.specs.declared.start.CollectError.TheVariants as Errors;

    ghost from_gives = { λ _ e. e ≡ Errors.Memory };

    fn from(_error: AllocError) -> CollectError {
        CollectError::Memory
    }
}

impl From<StepError> for CollectError {
    ghost use Rattle.std.specs.Prelude.{◌≡◌};
    ghost use Rattle.hir_collector_rules.specs.Moves.{refusal_of_step};

    ghost from_gives = { λ x e. e ≡ refusal_of_step x };

    fn from(error: StepError) -> CollectError {
        match error {
            StepError::TooMany => CollectError::TooMany,
            StepError::Memory => CollectError::Memory,
        }
    }
}
