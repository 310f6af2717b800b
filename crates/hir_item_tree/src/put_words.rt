//! Words of a page: names, paths, visibilities, use trees.
ghost use Rattle.std.specs.Prelude.{◌≡◌, ◌++◌, false, OnOk, string_bytes};
ghost use Rattle.hir_use_tree.specs.UseTree.{use_tree_view, use_trees_view};
ghost use Rattle.hir_item_tree.specs.Page.{name_text, path_text, names_text, paths_text, visibility_text, alias_text, renamed_text, crate_text, prefix_text, use_text, uses_text, comma};

use crate::raw_visibility::RawVisibility;
use crate::shape::ExternCrateName;
use hir_base::edition::Edition;
use hir_base::mod_path::ModPath;
use hir_base::name::Name;
use hir_use_tree::imports::ImportAlias;
use hir_use_tree::use_tree::{UseTree, UseTreeKind};
use std::alloc::AllocError;
use std::fmt::Write;

/// Adds a name.
#[tactic(auto, unfolding(crate::specs::Page::name_text))]
pub fn put_name(out: &mut String, edition: Edition, name: &Name) -> Result<(), AllocError>
    ensures ok { OnOk result (string_bytes out.new ≡ string_bytes out.old ++ name_text edition name.now) }
{
    let name = name.display(edition);
    write!(out, "{name}")?;
    Ok(())
}

/// Adds a path.
#[tactic(auto, unfolding(crate::specs::Page::path_text))]
pub fn put_path(out: &mut String, edition: Edition, path: &ModPath) -> Result<(), AllocError>
    ensures ok { OnOk result (string_bytes out.new ≡ string_bytes out.old ++ path_text edition path.now) }
{
    let path = path.display(edition);
    write!(out, "{path}")?;
    Ok(())
}

/// Adds a comma, unless nothing was before.
pub fn put_comma(out: &mut String, later: bool) -> Result<(), AllocError>
    ensures ok { OnOk result (string_bytes out.new ≡ string_bytes out.old ++ comma later) }
{
    if later { out.push_str(", ") } else { Ok(()) }
}

/// Adds names with commas between.
pub fn put_names(out: &mut String, edition: Edition, names: &[Name]) -> Result<(), AllocError>
    ensures ok { OnOk result (string_bytes out.new ≡ string_bytes out.old ++ names_text edition names.now false) }
{
    let mut later = false;
    for name in names {
        put_comma(out, later)?;
        put_name(out, edition, name)?;
        later = true;
    }
    Ok(())
}

/// Adds paths with commas between.
pub fn put_paths(out: &mut String, edition: Edition, paths: &[ModPath]) -> Result<(), AllocError>
    ensures ok { OnOk result (string_bytes out.new ≡ string_bytes out.old ++ paths_text edition paths.now false) }
{
    let mut later = false;
    for path in paths {
        put_comma(out, later)?;
        put_path(out, edition, path)?;
        later = true;
    }
    Ok(())
}

/// Adds a visibility.
pub fn put_visibility(
    out: &mut String,
    edition: Edition,
    visibility: &RawVisibility,
) -> Result<(), AllocError>
    ensures ok { OnOk result (string_bytes out.new ≡ string_bytes out.old ++ visibility_text edition visibility.now) }
{
    match visibility {
        RawVisibility::Module(path, _) => {
            out.push_str("pub(in ")?;
            put_path(out, edition, path)?;
            out.push_str(")")
        }
        RawVisibility::PubSelf(_) => out.push_str("pub(self)"),
        RawVisibility::PubCrate => out.push_str("pub(crate)"),
        RawVisibility::Public => out.push_str("pub"),
    }
}

/// Adds an alias behind what it renames, where there is one.
pub fn put_alias(
    out: &mut String,
    edition: Edition,
    alias: &Option<ImportAlias>,
) -> Result<(), AllocError>
    ensures ok { OnOk result (string_bytes out.new ≡ string_bytes out.old ++ renamed_text edition alias.now) }
{
    match alias {
        None => Ok(()),
        Some(ImportAlias::Underscore) => out.push_str(" as _"),
        Some(ImportAlias::Alias(name)) => {
            out.push_str(" as ")?;
            put_name(out, edition, name)
        }
    }
}

/// Adds the name of an extern crate.
pub fn put_crate_name(
    out: &mut String,
    edition: Edition,
    name: &ExternCrateName,
) -> Result<(), AllocError>
    ensures ok { OnOk result (string_bytes out.new ≡ string_bytes out.old ++ crate_text edition name.now) }
{
    match name {
        ExternCrateName::SelfCrate => out.push_str("self"),
        ExternCrateName::Name(name) => put_name(out, edition, name),
    }
}

fn put_prefix(
    out: &mut String,
    edition: Edition,
    prefix: &Option<ModPath>,
) -> Result<(), AllocError>
    ensures ok { OnOk result (string_bytes out.new ≡ string_bytes out.old ++ prefix_text edition prefix.now) }
{
    match prefix {
        None => Ok(()),
        Some(path) => {
            put_path(out, edition, path)?;
            out.push_str("::")
        }
    }
}

/// Adds a use tree.
#[cycle(put)]
pub fn put_use_tree(out: &mut String, edition: Edition, tree: &UseTree) -> Result<(), AllocError>
    ensures ok { OnOk result (string_bytes out.new ≡ string_bytes out.old ++ use_text edition (use_tree_view tree.now)) }
{
    match &tree.kind {
        UseTreeKind::Single { path, alias } => {
            put_path(out, edition, path)?;
            put_alias(out, edition, alias)
        }
        UseTreeKind::Glob { path } => {
            put_prefix(out, edition, path)?;
            out.push_str("*")
        }
        UseTreeKind::Prefixed { prefix, list } => {
            put_prefix(out, edition, prefix)?;
            out.push_str("{")?;
            put_use_trees(out, edition, list)?;
            out.push_str("}")
        }
    }
}

#[cycle(put)]
fn put_use_trees(out: &mut String, edition: Edition, list: &Vec<UseTree>) -> Result<(), AllocError>
    ensures ok { OnOk result (string_bytes out.new
        ≡ string_bytes out.old ++ uses_text edition (use_trees_view list.now.items) false) }
{
    let mut later = false;
    for tree in list {
        put_comma(out, later)?;
        put_use_tree(out, edition, tree)?;
        later = true;
    }
    Ok(())
}
