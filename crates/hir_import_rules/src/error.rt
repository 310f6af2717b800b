//! Why imports are given up.
use hir_glob_imports::GlobError;
use std::alloc::AllocError;

/// Why imports were given up.
#[derive(Clone, Copy, Debug, PartialEq, Eq)]
pub enum ImportError {
    /// As many steps as are counted, and another was wanted.
    TooMany,
    Memory,
}

impl From<AllocError> for ImportError {
    ghost use Rattle.std.specs.Prelude.{◌≡◌};
    ghost use Rattle.hir_import_rules.specs.declared.error.ImportError.TheVariants as Errors;

    ghost from_gives = { λ _ e. e ≡ Errors.Memory };

    fn from(_error: AllocError) -> ImportError {
        ImportError::Memory
    }
}

impl From<GlobError> for ImportError {
    ghost use Rattle.std.specs.Prelude.{◌≡◌};
    ghost use Rattle.hir_import_rules.specs.Refusals.{refusal_of};

    ghost from_gives = { λ x e. e ≡ refusal_of x };

    fn from(error: GlobError) -> ImportError {
        match error {
            GlobError::TooMany => ImportError::TooMany,
            GlobError::Memory => ImportError::Memory,
        }
    }
}
