//! Equality of names, paths, aliases and use trees, each exact.
ghost use Rattle.std.specs.Prelude.{◌≡◌, ◌↔◌, IsTrue, map};
ghost use Rattle.hir_use_tree.specs.UseTree.{use_tree_view, use_trees_view};

use crate::imports::ImportAlias;
use crate::use_tree::{UseTree, UseTreeKind};
use hir_base::mod_path::ModPath;
use hir_base::name::Name;

/// Whether two names are the same.
pub fn same_name(a: &Name, b: &Name) -> bool
    ensures exact { IsTrue result ↔ (a.now ≡ b.now) }
{
    a == b
}

/// Whether two lists of names are the same.
pub fn same_names(a: &[Name], b: &[Name]) -> bool
    ensures exact { IsTrue result ↔ (a.now ≡ b.now) }
{
    if a.len() != b.len() {
        return false;
    }
    for i in 0..a.len() {
        if !same_name(&a[i], &b[i]) {
            return false;
        }
    }
    true
}

/// Whether two paths are the same.
pub fn same_path(a: &ModPath, b: &ModPath) -> bool
    ensures exact { IsTrue result ↔ (a.now ≡ b.now) }
{
    a.kind() == b.kind() && same_names(a.segments(), b.segments())
}

/// Whether two aliases are the same.
pub fn same_alias(a: &ImportAlias, b: &ImportAlias) -> bool
    ensures exact { IsTrue result ↔ (a.now ≡ b.now) }
{
    match (a, b) {
        (ImportAlias::Underscore, ImportAlias::Underscore) => true,
        (ImportAlias::Alias(a), ImportAlias::Alias(b)) => same_name(a, b),
        _ => false,
    }
}

fn same_optional_path(a: &Option<ModPath>, b: &Option<ModPath>) -> bool
    ensures exact { IsTrue result ↔ (a.now ≡ b.now) }
{
    match (a, b) {
        (None, None) => true,
        (Some(a), Some(b)) => same_path(a, b),
        _ => false,
    }
}

/// Whether two aliases are the same, or there is none in both.
pub fn same_optional_alias(a: &Option<ImportAlias>, b: &Option<ImportAlias>) -> bool
    ensures exact { IsTrue result ↔ (a.now ≡ b.now) }
{
    match (a, b) {
        (None, None) => true,
        (Some(a), Some(b)) => same_alias(a, b),
        _ => false,
    }
}

/// Whether two use trees are written alike.
#[cycle(same)]
pub fn same_use_tree(a: &UseTree, b: &UseTree) -> bool
    ensures exact { IsTrue result ↔ (use_tree_view a.now ≡ use_tree_view b.now) }
{
    match (&a.kind, &b.kind) {
        (UseTreeKind::Single { path: a, alias: x }, UseTreeKind::Single { path: b, alias: y }) =>
            same_path(a, b) && same_optional_alias(x, y),
        (UseTreeKind::Glob { path: a }, UseTreeKind::Glob { path: b }) => same_optional_path(a, b),
        (
            UseTreeKind::Prefixed { prefix: p, list: a },
            UseTreeKind::Prefixed { prefix: q, list: b },
        ) => same_optional_path(p, q) && same_use_trees(a, b),
        _ => false,
    }
}

#[cycle(same)]
fn same_use_trees(a: &Vec<UseTree>, b: &Vec<UseTree>) -> bool
    ensures exact { IsTrue result ↔ (use_trees_view a.now.items ≡ use_trees_view b.now.items) }
{
    same_each(a, b)
}

#[cycle(same)]
fn same_each(a: &Vec<UseTree>, b: &Vec<UseTree>) -> bool
    ensures exact { IsTrue result ↔ (map use_tree_view a.now.items ≡ map use_tree_view b.now.items) }
{
    if a.len() != b.len() {
        return false;
    }
    for i in 0..a.len() {
        if !same_use_tree(&a[i], &b[i]) {
            return false;
        }
    }
    true
}
