//! Rows again.
ghost use Rattle.std.specs.Prelude.{◌≡◌, IfOk};
ghost use Rattle.hir_item_tree.specs.Rows.{numbers_of, content_of, row_view, rows_view};

use crate::lower::{copy_alias, copy_name, copy_names, copy_visibilities};
use crate::rows::{ModItemId, Row, RowKind};
use std::alloc::AllocError;

/// The same numbers again.
pub fn copy_ids(ids: &Vec<ModItemId>) -> Result<Vec<ModItemId>, AllocError>
    ensures value { IfOk result (λ is. numbers_of is.items ≡ numbers_of ids.now.items) }
{
    let mut copies = Vec::new(*ids.allocator());
    for id in ids {
        copies.push(*id)?;
    }
    Ok(copies)
}

fn copy_kind(kind: &RowKind) -> Result<RowKind, AllocError>
    ensures value { IfOk result (λ k. content_of k ≡ content_of kind.now) }
{
    Ok(match kind {
        RowKind::Use { use_tree } => RowKind::Use {
            use_tree: use_tree.clone()?,
        },
        RowKind::ExternCrate { name, alias } => RowKind::ExternCrate {
            name: name.clone()?,
            alias: copy_alias(alias)?,
        },
        RowKind::ExternBlock { children } => RowKind::ExternBlock {
            children: copy_ids(children)?,
        },
        RowKind::Function { name } => RowKind::Function {
            name: name.clone()?,
        },
        RowKind::Struct {
            name,
            shape,
            fields,
        } => RowKind::Struct {
            name: name.clone()?,
            shape: *shape,
            fields: copy_visibilities(fields)?,
        },
        RowKind::Union { name, fields } => RowKind::Union {
            name: name.clone()?,
            fields: copy_visibilities(fields)?,
        },
        RowKind::Enum { name } => RowKind::Enum {
            name: name.clone()?,
        },
        RowKind::Const { name } => RowKind::Const {
            name: copy_name(name)?,
        },
        RowKind::Static { name } => RowKind::Static {
            name: name.clone()?,
        },
        RowKind::Trait { name } => RowKind::Trait {
            name: name.clone()?,
        },
        RowKind::Impl { of_trait } => RowKind::Impl {
            of_trait: *of_trait,
        },
        RowKind::TypeAlias { name } => RowKind::TypeAlias {
            name: name.clone()?,
        },
        RowKind::Mod { name, items } => RowKind::Mod {
            name: name.clone()?,
            items: copy_ids(items)?,
        },
        RowKind::OutlineMod { name } => RowKind::OutlineMod {
            name: name.clone()?,
        },
        RowKind::MacroCall { path } => RowKind::MacroCall {
            path: path.clone()?,
        },
        RowKind::MacroRules {
            name,
            expander,
            helpers,
        } => RowKind::MacroRules {
            name: name.clone()?,
            expander: *expander,
            helpers: copy_names(helpers)?,
        },
        RowKind::Macro2 {
            name,
            expander,
            helpers,
        } => RowKind::Macro2 {
            name: name.clone()?,
            expander: *expander,
            helpers: copy_names(helpers)?,
        },
    })
}

fn copy_row(row: &Row) -> Result<Row, AllocError>
    ensures value { IfOk result (λ r. row_view r ≡ row_view row.now) }
{
    Ok(Row {
        id: row.id,
        visibility: row.visibility.clone()?,
        attrs: row.attrs.clone()?,
        kind: copy_kind(&row.kind)?,
    })
}

/// The same rows again.
pub fn copy_rows(rows: &Vec<Row>) -> Result<Vec<Row>, AllocError>
    ensures value { IfOk result (λ rs. rows_view rs.items ≡ rows_view rows.now.items) }
{
    let mut copies = Vec::new(*rows.allocator());
    for row in rows {
        copies.push(copy_row(row)?)?;
    }
    Ok(copies)
}
