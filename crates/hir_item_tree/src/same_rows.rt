//! Tests of rows, each exact.
ghost use Rattle.std.specs.Prelude.{◌≡◌, ◌↔◌, IsTrue};
ghost use Rattle.hir_item_tree.specs.Rows.{numbers_of, content_of, row_view, rows_view};

use crate::rows::{ModItemId, Row, RowKind};
use crate::same::{
    same_crate_name, same_name, same_names, same_optional_name, same_path, same_visibilities,
    same_visibility,
};
use hir_base::macro_kind::MacroExpander;
use hir_base::name::Name;
use hir_use_tree::eq::{same_optional_alias, same_use_tree};

/// Whether two lists of numbers are the same.
pub fn same_ids(a: &[ModItemId], b: &[ModItemId]) -> bool
    ensures exact { IsTrue result ↔ (numbers_of a.now ≡ numbers_of b.now) }
{
    if a.len() != b.len() {
        return false;
    }
    for i in 0..a.len() {
        if a[i].0 != b[i].0 {
            return false;
        }
    }
    true
}

fn same_macro(
    a: &Name,
    x: MacroExpander,
    f: &[Name],
    b: &Name,
    y: MacroExpander,
    g: &[Name],
) -> bool
    ensures exact { IsTrue result ↔ ((a.now ≡ b.now) × (x ≡ y) × (f.now ≡ g.now)) }
{
    same_name(a, b) && x == y && same_names(f, g)
}

fn same_kind(a: &RowKind, b: &RowKind) -> bool
    ensures exact { IsTrue result ↔ (content_of a.now ≡ content_of b.now) }
{
    match (a, b) {
        (RowKind::Use { use_tree: a }, RowKind::Use { use_tree: b }) => same_use_tree(a, b),
        (RowKind::ExternCrate { name: a, alias: x }, RowKind::ExternCrate { name: b, alias: y }) =>
            { same_crate_name(a, b) && same_optional_alias(x, y) }
        (RowKind::ExternBlock { children: a }, RowKind::ExternBlock { children: b }) => same_ids(
            a, b,
        ),
        (RowKind::Function { name: a }, RowKind::Function { name: b }) => same_name(a, b),
        (
            RowKind::Struct {
                name: a,
                shape: s,
                fields: x,
            },
            RowKind::Struct {
                name: b,
                shape: t,
                fields: y,
            },
        ) => same_name(a, b) && s == t && same_visibilities(x, y),
        (RowKind::Union { name: a, fields: x }, RowKind::Union { name: b, fields: y }) => {
            same_name(a, b) && same_visibilities(x, y)
        }
        (RowKind::Enum { name: a }, RowKind::Enum { name: b }) => same_name(a, b),
        (RowKind::Const { name: a }, RowKind::Const { name: b }) => same_optional_name(a, b),
        (RowKind::Static { name: a }, RowKind::Static { name: b }) => same_name(a, b),
        (RowKind::Trait { name: a }, RowKind::Trait { name: b }) => same_name(a, b),
        (RowKind::Impl { of_trait: a }, RowKind::Impl { of_trait: b }) => a == b,
        (RowKind::TypeAlias { name: a }, RowKind::TypeAlias { name: b }) => same_name(a, b),
        (RowKind::Mod { name: a, items: x }, RowKind::Mod { name: b, items: y }) => {
            same_name(a, b) && same_ids(x, y)
        }
        (RowKind::OutlineMod { name: a }, RowKind::OutlineMod { name: b }) => same_name(a, b),
        (RowKind::MacroCall { path: a }, RowKind::MacroCall { path: b }) => same_path(a, b),
        (
            RowKind::MacroRules {
                name: a,
                expander: x,
                helpers: f,
            },
            RowKind::MacroRules {
                name: b,
                expander: y,
                helpers: g,
            },
        ) => same_macro(a, *x, f, b, *y, g),
        (
            RowKind::Macro2 {
                name: a,
                expander: x,
                helpers: f,
            },
            RowKind::Macro2 {
                name: b,
                expander: y,
                helpers: g,
            },
        ) => same_macro(a, *x, f, b, *y, g),
        _ => false,
    }
}

fn same_row(a: &Row, b: &Row) -> bool
    ensures exact { IsTrue result ↔ (row_view a.now ≡ row_view b.now) }
{
    a.id == b.id
        && same_visibility(&a.visibility, &b.visibility)
        && a.attrs.same(&b.attrs)
        && same_kind(&a.kind, &b.kind)
}

/// Whether two tables have the same rows.
pub fn same_rows(a: &[Row], b: &[Row]) -> bool
    ensures exact { IsTrue result ↔ (rows_view a.now ≡ rows_view b.now) }
{
    if a.len() != b.len() {
        return false;
    }
    for i in 0..a.len() {
        if !same_row(&a[i], &b[i]) {
            return false;
        }
    }
    true
}
