//! The pieces of a text between separators.
ghost use Rattle.std.specs.Prelude.{◌≡◌, ◌<◌, ◌==◌, IfOk};
ghost use Rattle.std.specs.List.{slice_split};
ghost use Rattle.hir_ids.specs.Text.{nows};

use std::alloc::{AllocError, Global};

/// The pieces of `text` between the ASCII characters `separator`.
pub(crate) fn pieces<'a>(
    alloc: Global,
    text: &'a str,
    separator: char,
) -> Result<Vec<&'a str>, AllocError>
    requires ascii { separator < 128 }
    ensures ok { IfOk result (λ v. nows v.items ≡ slice_split (λ b. b == separator) text.now) }
{
    text.split(separator).collect(alloc)
}
