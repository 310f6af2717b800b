//! Attributes by their names.
ghost use Rattle.std.specs.Prelude.{◌≡◌, ◌++◌, IfOk, OnOk, map, option_map};
ghost use Rattle.hir_item_tree.specs.Attributes.{input_view};
ghost use Rattle.hir_item_tree.specs.Collected.{numbered};
ghost use Rattle.hir_collector_rules.specs.CrateTop.{is_keyed, listed_under, name_alone, names_among, names_in, says};

use hir_base::mod_path::{ModPath, PathKind};
use hir_base::name::Name;
use hir_item_tree::attrs::Attr;
use hir_item_tree::raw_attr::{AttrInput, TokenTree};
use std::alloc::{AllocError, Global};

/// Whether an attribute's path is this name alone.
pub fn is_keyed(attr: &Attr, key: &str) -> bool
    ensures value { result ≡ is_keyed key.now (numbered attr.now) }
{
    match (attr.meta.path.kind(), attr.meta.path.segments()) {
        (PathKind::Plain, [name]) => name.as_str() == key,
        _ => false,
    }
}

/// Whether there is an attribute of this name.
pub fn says(attrs: &[Attr], key: &str) -> bool
    ensures value { result ≡ says key.now (map numbered attrs.now) }
{
    for attr in attrs {
        if is_keyed(attr, key) {
            return true;
        }
    }
    false
}

/// Adds the name that a path is alone.
fn push_name(names: &mut Vec<Name>, path: &ModPath) -> Result<(), AllocError>
    ensures ok { OnOk result (names.new.items ≡ names.old.items ++ name_alone path.now.kind path.now.segments) }
{
    match (path.kind(), path.segments()) {
        (PathKind::Plain, [name]) => {
            names.push(name.clone()?)?;
            Ok(())
        }
        _ => Ok(()),
    }
}

/// Adds the names that paths are alone.
fn push_names(names: &mut Vec<Name>, paths: &Vec<ModPath>) -> Result<(), AllocError>
    ensures ok { OnOk result (names.new.items ≡ names.old.items ++ names_among paths.now.items) }
{
    for path in paths {
        push_name(names, path)?;
    }
    Ok(())
}

/// Adds the names that an attribute lists.
fn push_listed(names: &mut Vec<Name>, input: &Option<AttrInput>) -> Result<(), AllocError>
    ensures ok { OnOk result (names.new.items ≡ names.old.items ++ names_in (option_map input_view input.now)) }
{
    match input {
        Some(AttrInput::TokenTree(TokenTree::Paths(paths))) => push_names(names, paths),
        _ => Ok(()),
    }
}

/// The names that the attributes of a key list.
pub fn listed(alloc: Global, attrs: &[Attr], key: &str) -> Result<Vec<Name>, AllocError>
    ensures value { IfOk result (λ names. names.items ≡ listed_under key.now (map numbered attrs.now)) }
{
    let mut names = Vec::new(alloc);
    for attr in attrs {
        if is_keyed(attr, key) {
            push_listed(&mut names, &attr.meta.input)?;
        }
    }
    Ok(names)
}
