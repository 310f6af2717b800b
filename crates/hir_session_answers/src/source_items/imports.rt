//! What made a binding.
ghost use Rattle.std.specs.Prelude.{◌≡◌, IfOk};
ghost use Rattle.hir_session_answers.specs.SourceItems.{use_source, import_source, value_import_source};

use super::source_calls::source_at;
use hir_base::ids::UseId;
use hir_session_state::hir_messages::answer::{ImportOrigin, ImportSource};
use hir_session_state::hir_scope::imports::{ImportOrExternCrate, ImportOrGlob};
use hir_tables::Tables;
use std::alloc::{AllocError, Global};

/// A `use` item, with the kind and the place of its leaf.
fn use_at(
    alloc: Global,
    tables: &Tables,
    by: UseId,
    origin: ImportOrigin,
) -> Result<Option<ImportSource>, AllocError>
    ensures value { IfOk result (λ o. o ≡ use_source tables.now by origin) }
{
    match source_at(alloc, tables, by.loc.file_id, by.loc.block)? {
        Some(source) => Ok(Some(ImportSource {
            source,
            id: by.loc.id,
            origin,
        })),
        None => Ok(None),
    }
}

/// What made a type or a macro.
pub fn import_at(
    alloc: Global,
    tables: &Tables,
    by: ImportOrExternCrate,
) -> Result<Option<ImportSource>, AllocError>
    ensures value { IfOk result (λ o. o ≡ import_source tables.now by) }
{
    match by {
        ImportOrExternCrate::Glob(g) => use_at(alloc, tables, g.use_, ImportOrigin::Glob(g.idx)),
        ImportOrExternCrate::Import(i) => use_at(
            alloc,
            tables,
            i.use_,
            ImportOrigin::Import(i.idx),
        ),
        ImportOrExternCrate::ExternCrate(i) => {
            match source_at(alloc, tables, i.loc.file_id, i.loc.block)? {
                Some(source) => Ok(Some(ImportSource {
                    source,
                    id: i.loc.id,
                    origin: ImportOrigin::ExternCrate,
                })),
                None => Ok(None),
            }
        }
    }
}

/// What made a value.
pub fn value_import_at(
    alloc: Global,
    tables: &Tables,
    by: ImportOrGlob,
) -> Result<Option<ImportSource>, AllocError>
    ensures value { IfOk result (λ o. o ≡ value_import_source tables.now by) }
{
    match by {
        ImportOrGlob::Glob(g) => use_at(alloc, tables, g.use_, ImportOrigin::Glob(g.idx)),
        ImportOrGlob::Import(i) => use_at(alloc, tables, i.use_, ImportOrigin::Import(i.idx)),
    }
}
