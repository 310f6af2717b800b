//! Why associated items are not answered.

use hir_base::locations::LocationsError;
use std::alloc::{AllocError, AllocFailed};
use thiserror::Error;

/// Why the items of a trait or an impl are not answered.
#[derive(Clone, Copy, Debug, PartialEq, Eq, Error)]
pub enum AssocItemsError {
    /// No number is left for a macro call, or more items came up than are counted.
    #[error("more numbers than there are")]
    TooMany,
    /// The source of a macro has no number: it is of a finished map, which was made over other tables.
    #[error("a macro of an unknown source")]
    UnknownSource,
    #[error("out of memory")]
    Memory,
}

impl From<AllocError> for AssocItemsError {
    ghost use Rattle.std.specs.Prelude.{◌≡◌};
    ghost use Rattle.hir_assoc_items.specs.declared.error.AssocItemsError.TheVariants as errors;

    ghost from_gives = { λ _ e. e ≡ errors.Memory };

    fn from(_error: AllocError) -> AssocItemsError {
        AssocItemsError::Memory
    }
}

impl<T: Drop> From<AllocFailed<T>> for AssocItemsError {
    ghost use Rattle.std.specs.Prelude.{◌≡◌};
    ghost use Rattle.hir_assoc_items.specs.declared.error.AssocItemsError.TheVariants as errors;

    ghost from_gives = { λ _ e. e ≡ errors.Memory };

    fn from(_error: AllocFailed<T>) -> AssocItemsError {
        AssocItemsError::Memory
    }
}

impl From<LocationsError> for AssocItemsError {
    ghost use Rattle.std.specs.Prelude.{◌≡◌};
    ghost use Rattle.hir_assoc_items.specs.Steps.{refusal_of_number};

    ghost from_gives = { λ x e. e ≡ refusal_of_number x };

    fn from(error: LocationsError) -> AssocItemsError {
        match error {
            LocationsError::TooMany => AssocItemsError::TooMany,
            LocationsError::Memory => AssocItemsError::Memory,
        }
    }
}
