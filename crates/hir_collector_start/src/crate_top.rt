//! What a crate's top says.
ghost use Rattle.std.specs.Prelude.{◌≡◌, ◌++◌, IfOk, OnOk, map, option_map};
ghost use Rattle.hir_collector_rules.specs.HirItemTree.Attributes.{input_view};
ghost use Rattle.hir_collector_rules.specs.HirItemTree.Collected.{collected_of, numbered};
ghost use Rattle.hir_collector_rules.specs.CrateTop.{builtin_tools, crate_data_of, is_keyed, limit_after, limit_by, limit_in, says, with_names};

use hir_base::edition::Edition;
use hir_base::name::Name;
use hir_collector_rules::crate_attrs::{is_keyed, listed, says};
use hir_collector_rules::hir_crate_graph::crate_set::CrateSet;
use hir_collector_rules::hir_nameres::nameres::crate_data::DefMapCrateData;
use hir_collector_rules::names::known_name;
use hir_item_tree::attrs::{Attr, AttrsOrCfg};
use hir_item_tree::raw_attr::{AttrInput, TokenTree};
use std::alloc::{AllocError, Global};
use std::rc::Rc;

/// The limit that an attribute gives, if it can be read.
fn limit_in(input: &Option<AttrInput>) -> Option<u32>
    ensures value { result ≡ limit_in (option_map input_view input.now) }
{
    match input {
        Some(AttrInput::Literal(text)) => text.as_str().parse::<u32>().ok(),
        Some(AttrInput::TokenTree(_)) | None => None,
    }
}

/// The limit that an attribute gives, or else the one before.
fn limit_by(before: u32, attr: &Attr) -> u32
    ensures value { result ≡ limit_by before (numbered attr.now) }
{
    if !is_keyed(attr, "recursion_limit") {
        return before;
    }
    match limit_in(&attr.meta.input) {
        Some(limit) => limit,
        None => before,
    }
}

/// The last limit on the nesting of macro calls that can be read.
fn recursion_limit(attrs: &[Attr]) -> u32
    ensures value { result ≡ limit_after 128 (map numbered attrs.now) }
{
    let mut limit = 128;
    for attr in attrs {
        limit = limit_by(limit, attr);
    }
    limit
}

fn add_features(crate_data: &mut DefMapCrateData, names: &[Name]) -> Result<(), AllocError>
    ensures ok { OnOk result (crate_data.new ≡ record crate_data.old { features = with_names crate_data.old.features names.now }) }
{
    for name in names {
        crate_data.add_feature(name.clone()?)?;
    }
    Ok(())
}

/// Registers tools behind those that are there.
pub(crate) fn add_tools(crate_data: &mut DefMapCrateData, names: &[Name]) -> Result<(), AllocError>
    ensures ok { OnOk result (crate_data.new ≡ record crate_data.old { registered_tools = crate_data.old.registered_tools ++ names.now }) }
{
    for name in names {
        crate_data.register_tool(name.clone()?)?;
    }
    Ok(())
}

/// The tools whose attributes are inert in each crate.
fn builtin_tools(alloc: Global) -> Result<Vec<Name>, AllocError>
    ensures value { IfOk result (λ tools. tools.items ≡ builtin_tools) }
{
    let mut tools = Vec::new(alloc);
    tools.push(known_name(alloc, "clippy")?)?;
    tools.push(known_name(alloc, "rustfmt")?)?;
    tools.push(known_name(alloc, "diagnostic")?)?;
    tools.push(known_name(alloc, "miri")?)?;
    tools.push(known_name(alloc, "rust_analyzer")?)?;
    Ok(tools)
}

/// The data of a crate with these attributes at its top, and these transitive dependencies.
pub(crate) fn top_data(
    alloc: Global,
    edition: Edition,
    attrs: &AttrsOrCfg,
    transitive: Rc<CrateSet>,
) -> Result<DefMapCrateData, AllocError>
    ensures value { IfOk result (λ crate_data. crate_data ≡ crate_data_of edition (collected_of attrs.now).attributes transitive.value) }
{
    let attrs = attrs.attrs.as_slice();
    let mut crate_data = DefMapCrateData::new(alloc, edition, transitive);
    crate_data.set_rustc_coherence_is_core(says(attrs, "rustc_coherence_is_core"));
    crate_data.set_no_core(says(attrs, "no_core"));
    crate_data.set_no_std(says(attrs, "no_std"));
    crate_data.set_recursion_limit(recursion_limit(attrs));
    add_features(&mut crate_data, listed(alloc, attrs, "feature")?.as_slice())?;
    add_tools(&mut crate_data, builtin_tools(alloc)?.as_slice())?;
    add_tools(
        &mut crate_data,
        listed(alloc, attrs, "register_tool")?.as_slice(),
    )?;
    Ok(crate_data)
}
