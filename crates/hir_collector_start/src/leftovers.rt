//! Imports that are left over.
ghost use Rattle.std.specs.Prelude.{◌≡◌, IfOk, slice_get};
ghost use Rattle.hir_collector_rules.specs.Derivation.{is_left_over, leftover_among, told_of};

use hir_collector_rules::hir_import_rules::{ImportDirective, ImportSource, Taken};
use hir_collector_rules::hir_scope::imports::ImportOrExternCrate;
use std::alloc::{AllocError, Global};

/// The imports of which no taking reached anything, in their order.
pub fn untaken(
    alloc: Global,
    imports: &[ImportDirective],
    taken: &[Taken],
) -> Result<Vec<ImportOrExternCrate>, AllocError>
    ensures value { IfOk result (λ ids. ids.items ≡ leftover_among imports.now taken.now) }
{
    let mut leftover = Vec::new(alloc);
    for (i, import) in imports.iter().enumerate() {
        if is_left_over(taken, i) {
            leftover.push(told(import.source))?;
        }
    }
    Ok(leftover)
}

/// An import as it is told where it is left over: a glob as the glob that it is.
fn told(source: ImportSource) -> ImportOrExternCrate
    ensures value { result ≡ told_of source }
{
    match source.glob() {
        Some(glob) => ImportOrExternCrate::Glob(glob),
        None => source.way(),
    }
}

/// Whether no taking of the import at the place reached anything.
fn is_left_over(taken: &[Taken], i: usize) -> bool
    ensures value { result ≡ is_left_over (slice_get taken.now i) }
{
    match taken.get(i) {
        Some(taken) => taken.is_untaken(),
        None => false,
    }
}
