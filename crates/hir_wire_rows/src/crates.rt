//! What is said of a crate.
use hir_base::cfg::CfgAtom;
use hir_base::cfg_options::CfgOptions;
use hir_base::edition::Edition;
use hir_base::ids::Crate;
use hir_item_tree::item_tree::source_tree;
use hir_item_tree::raw_attr::RawAttr;
use hir_item_tree::source::Source;
use hir_wire::{Dependencies, Dependency};
use std::alloc::{AllocError, Global};
use std::fmt::Write;

/// Writes a line with the crate's number and its edition.
pub fn push_crate(out: &mut String, krate: Crate, edition: Edition) -> Result<(), AllocError> {
    let number = krate.0;
    write!(out, "{number} {edition:?}\n")
}

fn push_dependency(out: &mut String, dependency: &Dependency) -> Result<(), AllocError> {
    let name = dependency.name.as_str();
    let krate = dependency.krate.0;
    write!(out, "{name} = crate {krate}")?;
    if !dependency.prelude {
        out.push_str(" outside the extern prelude")?;
    }
    out.push_str("\n")
}

/// Writes a line for each dependency.
pub fn push_dependencies(out: &mut String, dependencies: &Dependencies) -> Result<(), AllocError> {
    for dependency in dependencies.as_slice() {
        push_dependency(out, dependency)?;
    }
    Ok(())
}

/// Writes a line for each option.
pub fn push_options(out: &mut String, options: &Vec<CfgAtom>) -> Result<(), AllocError> {
    for option in options {
        write!(out, "--cfg {option}\n")?;
    }
    Ok(())
}

/// Writes the page of a root file that can't be read, under these attributes and options.
pub fn push_front(
    alloc: Global,
    out: &mut String,
    attrs: &Vec<RawAttr>,
    options: &Vec<CfgAtom>,
    edition: Edition,
) -> Result<(), AllocError> {
    let mut set = CfgOptions::new(alloc);
    for option in options {
        set.insert(option.clone()?)?;
    }
    let tree = source_tree(alloc, &Source::Broken, attrs, &set)?;
    let page = tree.pretty_print(edition)?;
    out.push_str(page.as_str())
}
