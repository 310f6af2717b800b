//! Attributes that are handed in for the top of a crate's root file.
ghost use Rattle.std.specs.Prelude.{◌≡◌, IfOk, map};
ghost use Rattle.std.specs.List.{list_any};
ghost use Rattle.hir_collector_rules.specs.HirItemTree.Attributes.{attribute_view};
ghost use Rattle.hir_messages.specs.CommandValue.{crate_input_view};
ghost use Rattle.hir_session_state.specs.Refusals.{is_too_deep, is_too_long};

use hir_item_tree::check::long_paths::any_long_attr;
use hir_item_tree::check::nesting::deep_attrs;
use hir_item_tree::raw_attr::RawAttr;
use hir_messages::command::CrateInput;
use std::alloc::{AllocError, Global};

#[cycle(copy)]
fn copy_attr(alloc: Global, attr: &RawAttr) -> Result<RawAttr, AllocError>
    ensures value { IfOk result (λ a. attribute_view a ≡ attribute_view attr.now) }
{
    match attr {
        RawAttr::Meta(meta) => Ok(RawAttr::Meta(meta.clone()?)),
        RawAttr::Cfg(cfg) => Ok(RawAttr::Cfg(cfg.clone(alloc)?)),
        RawAttr::CfgAttr { cfg, attrs } => Ok(RawAttr::CfgAttr {
            cfg: cfg.clone(alloc)?,
            attrs: copy_attrs(alloc, attrs)?,
        }),
    }
}

/// The same attributes again.
#[cycle(copy)]
pub fn copy_attrs(alloc: Global, attrs: &Vec<RawAttr>) -> Result<Vec<RawAttr>, AllocError>
    ensures value { IfOk result (λ copies. map attribute_view copies.items ≡ map attribute_view attrs.now.items) }
{
    let mut copies = Vec::new(alloc);
    for attr in attrs {
        copies.push(copy_attr(alloc, attr)?)?;
    }
    Ok(copies)
}

fn is_path_too_long(input: &CrateInput) -> bool
    ensures value { result ≡ is_too_long (crate_input_view input.now) }
{
    any_long_attr(&input.attrs)
}

fn is_condition_too_deep(input: &CrateInput) -> bool
    ensures value { result ≡ is_too_deep (crate_input_view input.now) }
{
    !any_long_attr(&input.attrs) && deep_attrs(&input.attrs)
}

/// Whether an attribute of one of the crates holds a path with too many segments.
pub fn has_long_path(inputs: &Vec<CrateInput>) -> bool
    ensures value { result ≡ list_any is_too_long (map crate_input_view inputs.now.items) }
{
    for input in inputs {
        if is_path_too_long(input) {
            return true;
        }
    }
    false
}

/// Whether conditions nest too deep in an attribute of one of the crates.
pub fn has_deep_condition(inputs: &Vec<CrateInput>) -> bool
    ensures value { result ≡ list_any is_too_deep (map crate_input_view inputs.now.items) }
{
    for input in inputs {
        if is_condition_too_deep(input) {
            return true;
        }
    }
    false
}
