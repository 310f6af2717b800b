//! Where a source stands.

use hir_base::file_path::FilePath;
use hir_base::macro_kind::ExpansionKey;
use hir_base::place::BlockPlace;

/// Where a source stands: a file by its path, a block by what holds it, or the expansion of a macro call by what it
/// depends on.
#[derive(Clone, Copy)]
pub enum SourcePlace<'a> {
    File(&'a FilePath),
    Block(&'a BlockPlace),
    Expansion(&'a ExpansionKey),
}
