//! Parts of nodes that neither a page nor an answer shows.
use hir_base::edition::Edition::Edition2021;
use hir_base::macro_kind::MacroExpander;
use hir_item_tree::raw_visibility::RawVisibility;
use hir_item_tree::source::{MacroDefinition, Node, NodeKind};
use std::alloc::AllocError;
use std::fmt::Write;

fn push_field(out: &mut String, vis: &RawVisibility) -> Result<(), AllocError> {
    match vis {
        RawVisibility::Module(path, explicitness) => {
            let path = path.display(Edition2021);
            write!(out, " in {path} {explicitness:?}")
        }
        RawVisibility::PubSelf(explicitness) => write!(out, " self {explicitness:?}"),
        RawVisibility::PubCrate => out.push_str(" crate"),
        RawVisibility::Public => out.push_str(" pub"),
    }
}

fn push_fields(out: &mut String, fields: &Vec<RawVisibility>) -> Result<(), AllocError> {
    for vis in fields {
        push_field(out, vis)?;
    }
    Ok(())
}

fn push_expander(out: &mut String, expander: MacroExpander) -> Result<(), AllocError> {
    match expander {
        MacroExpander::Declarative(styles) => {
            let fn_like = styles.fn_like;
            let attr = styles.attr;
            let derive = styles.derive;
            write!(out, " {fn_like} {attr} {derive}")
        }
        _ => write!(out, " {expander:?}"),
    }
}

fn push_macro(out: &mut String, definition: &MacroDefinition) -> Result<(), AllocError> {
    let rules = definition.text.as_str();
    write!(out, " `{rules}`")?;
    push_expander(out, definition.expander)?;
    for helper in &definition.helpers {
        let helper = helper.display(Edition2021);
        write!(out, " {helper}")?;
    }
    Ok(())
}

/// Writes the input of a node, and its body, the visibilities of its fields, or the text, the expander and the
/// helpers of a macro.
fn push_node(out: &mut String, node: &Node) -> Result<(), AllocError> {
    let input = node.input.as_str();
    write!(out, "`{input}`")?;
    match &node.kind {
        NodeKind::Fn { name: _, body }
        | NodeKind::Const { name: _, body }
        | NodeKind::Static { name: _, body } => write!(out, " `{body}`"),
        NodeKind::Struct {
            name: _,
            shape: _,
            fields,
        }
        | NodeKind::Union { name: _, fields } => push_fields(out, fields),
        NodeKind::MacroRules {
            name: _,
            definition,
        }
        | NodeKind::MacroDef {
            name: _,
            definition,
        } => push_macro(out, definition),
        _ => Ok(()),
    }
}

/// Writes a line for each node.
pub fn push_parts(out: &mut String, nodes: &[Node]) -> Result<(), AllocError> {
    for node in nodes {
        push_node(out, node)?;
        out.push_str("\n")?;
    }
    Ok(())
}
