//! Names that the rules themselves speak of, and lists of names.
ghost use Rattle.std.specs.Prelude.{◌≡◌, IfOk};

use hir_base::name::Name;
use std::alloc::{AllocError, Global};

/// The name that a text is, which has the form of one.
pub fn known_name(alloc: Global, text: &str) -> Result<Name, AllocError>
    ensures value { IfOk result (λ name. name ≡ text.now) }
{
    match Name::new(alloc, text) {
        Ok(name) => Ok(name),
        Err(_) => Err(AllocError),
    }
}

/// The same names again.
pub fn cloned(alloc: Global, names: &[Name]) -> Result<Vec<Name>, AllocError>
    ensures value { IfOk result (λ copies. copies.items ≡ names.now) }
{
    let mut copies = Vec::new(alloc);
    for name in names {
        copies.push(name.clone()?)?;
    }
    Ok(copies)
}
