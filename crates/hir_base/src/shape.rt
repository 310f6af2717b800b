//! Shapes of structs and variants, and names of extern crates.
ghost use Rattle.std.specs.Prelude.{◌≡◌, true, false, IfOk};
ghost use Rattle.hir_base.specs.Shape.{has_constructor};

use crate::name::Name;
use std::alloc::AllocError;

/// How the fields of a struct or variant are written.
#[derive(Clone, Copy, Debug, PartialEq, Eq, Hash)]
pub enum FieldsShape {
    Record,
    Tuple,
    Unit,
}

impl FieldsShape {
    /// Whether the name stands for a value too: a function, or the only value.
    pub fn has_value_ns_ctor(self) -> bool
        ensures value { result ≡ has_constructor self }
    {
        match self {
            FieldsShape::Record => false,
            FieldsShape::Tuple | FieldsShape::Unit => true,
        }
    }
}

/// What an `extern crate` names.
#[derive(Drop)]
pub enum ExternCrateName {
    /// `extern crate self`.
    SelfCrate,
    Name(Name),
}

impl ExternCrateName {
    /// The same name again.
    pub fn clone(&self) -> Result<ExternCrateName, AllocError>
        ensures value { IfOk result (λ n. n ≡ self.now) }
    {
        match self {
            ExternCrateName::SelfCrate => Ok(ExternCrateName::SelfCrate),
            ExternCrateName::Name(name) => Ok(ExternCrateName::Name(name.clone()?)),
        }
    }
}
