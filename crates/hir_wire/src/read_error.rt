//! Why a line is no command.
ghost use Rattle.std.specs.Prelude.{◌≡◌, Some};
ghost use Rattle.hir_wire.specs.Reading.{error_text, gravity, graver};

use hir_base::limit::Limit;
use std::alloc::{AllocError, AllocFailed};
use std::error::Error;
use std::fmt::{Display, Formatter, Write};

/// Why a line is no command, in the order in which it is looked for.
#[derive(Clone, Copy, Debug, Drop, PartialEq, Eq)]
pub enum ReadError {
    /// The line is no JSON, or nests more than 127 deep.
    Json,
    /// A field is missing or ill-formed, or a number is read as a float.
    Command,
    /// The first limit that a text in the line passes.
    TooLarge(Limit),
    Memory,
}

impl From<AllocError> for ReadError {
    ghost use Rattle.std.specs.Prelude.{◌≡◌};
    ghost use Rattle.hir_wire.specs.declared.read_error.ReadError.TheVariants.{Memory};

    ghost from_gives = { λ _ e. e ≡ Memory };

    fn from(_refused: AllocError) -> ReadError {
        ReadError::Memory
    }
}

impl<T: Drop> From<AllocFailed<T>> for ReadError {
    ghost use Rattle.std.specs.Prelude.{◌≡◌};
    ghost use Rattle.hir_wire.specs.declared.read_error.ReadError.TheVariants.{Memory};

    ghost from_gives = { λ _ e. e ≡ Memory };

    fn from(_refused: AllocFailed<T>) -> ReadError {
        ReadError::Memory
    }
}

impl Display for ReadError {
    ghost output = { λ error. Some (error_text error) };

    fn fmt<W: Write>(&self, f: &mut Formatter<W>) -> std::fmt::Result {
        match *self {
            ReadError::Json => f.write_str("the line is no JSON"),
            ReadError::Command => f.write_str("the line is no command"),
            ReadError::TooLarge(limit) => { write!(f, "the line passes a limit: {limit}") }
            ReadError::Memory => f.write_str("out of memory"),
        }
    }
}

impl Error for ReadError {}

impl ReadError {
    fn gravity(self) -> u8
        ensures value { result ≡ gravity self }
    {
        match self {
            ReadError::TooLarge(Limit::Inner) => 0,
            ReadError::TooLarge(Limit::Crates) => 1,
            ReadError::TooLarge(Limit::Blocks) => 2,
            ReadError::TooLarge(Limit::Cfg) => 3,
            ReadError::TooLarge(Limit::UseTree) => 4,
            ReadError::TooLarge(Limit::Modules) => 5,
            ReadError::TooLarge(Limit::Nodes) => 6,
            ReadError::TooLarge(Limit::Index) => 7,
            ReadError::TooLarge(Limit::File) => 8,
            ReadError::TooLarge(Limit::Path) => 9,
            ReadError::TooLarge(Limit::Name) => 10,
            ReadError::TooLarge(Limit::Line) => 11,
            ReadError::Command => 12,
            ReadError::Json => 13,
            ReadError::Memory => 14,
        }
    }

    /// The error that a line with these two reports.
    #[tactic(auto, unfolding(crate::specs::Reading::graver))]
    pub fn graver(self, other: ReadError) -> ReadError
        ensures value { result ≡ graver self other }
    {
        if self.gravity() < other.gravity() {
            other
        } else {
            self
        }
    }
}
