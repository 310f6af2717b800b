//! The lines of attributes on a page.
ghost use Rattle.std.specs.Prelude.{◌≡◌, ◌++◌, false, OnOk, map, option_map, string_bytes};
ghost use Rattle.hir_item_tree.specs.Attributes.{meta_view, input_view, token_tree_view};
ghost use Rattle.hir_base.specs.Cfg.{cfg_view, cfg_text};
ghost use Rattle.hir_item_tree.specs.Collected.{numbered, collected_of};
ghost use Rattle.hir_item_tree.specs.Page.{names_between, helpers_text, tokens_text, input_text, meta_text, pad, meta_line, metas_text, disabled_text, attributes_text};

use crate::attrs::{Attr, AttrsOrCfg};
use crate::put_words::{put_name, put_names, put_path, put_paths};
use crate::raw_attr::{AttrInput, Meta, TokenTree};
use hir_base::cfg::CfgExpr;
use hir_base::edition::Edition;
use hir_base::name::Name;
use std::alloc::AllocError;
use std::fmt::Write;

/// Adds four spaces for each level.
#[tactic(auto, unfolding(crate::specs::Page::pad))]
pub fn put_pad(out: &mut String, level: usize) -> Result<(), AllocError>
    ensures ok { OnOk result (string_bytes out.new ≡ string_bytes out.old ++ pad level) }
{
    for _ in 0..level {
        out.push_str("    ")?;
    }
    Ok(())
}

/// Adds a condition.
pub fn put_cfg(out: &mut String, cfg: &CfgExpr) -> Result<(), AllocError>
    ensures ok { OnOk result (string_bytes out.new ≡ string_bytes out.old ++ cfg_text (cfg_view cfg.now)) }
{
    write!(out, "{cfg}")?;
    Ok(())
}

#[tactic(auto, unfolding(crate::specs::Page::names_between))]
fn put_names_between(
    out: &mut String,
    edition: Edition,
    before: &str,
    names: &[Name],
    after: &str,
) -> Result<(), AllocError>
    ensures ok { OnOk result (string_bytes out.new
        ≡ string_bytes out.old ++ names_between edition before.now names.now after.now) }
{
    out.push_str(before)?;
    put_names(out, edition, names)?;
    out.push_str(after)
}

fn put_helpers(out: &mut String, edition: Edition, helpers: &[Name]) -> Result<(), AllocError>
    ensures ok { OnOk result (string_bytes out.new ≡ string_bytes out.old ++ helpers_text edition helpers.now) }
{
    match helpers {
        [] => Ok(()),
        [_, ..] => { put_names_between(out, edition, ", attributes(", helpers, ")") }
    }
}

fn put_tokens(out: &mut String, edition: Edition, tokens: &TokenTree) -> Result<(), AllocError>
    ensures ok { OnOk result (string_bytes out.new ≡ string_bytes out.old ++ tokens_text edition (token_tree_view tokens.now)) }
{
    match tokens {
        TokenTree::Paths(paths) => put_paths(out, edition, paths),
        TokenTree::Tokens(text) => out.push_str(text),
        TokenTree::Derive { name, helpers } => {
            put_name(out, edition, name)?;
            put_helpers(out, edition, helpers)
        }
    }
}

fn put_input(
    out: &mut String,
    edition: Edition,
    input: &Option<AttrInput>,
) -> Result<(), AllocError>
    ensures ok { OnOk result (string_bytes out.new
        ≡ string_bytes out.old ++ input_text edition (option_map input_view input.now)) }
{
    match input {
        None => Ok(()),
        Some(AttrInput::Literal(text)) => {
            out.push_str(" = \"")?;
            out.push_str(text)?;
            out.push_str("\"")
        }
        Some(AttrInput::TokenTree(tokens)) => {
            out.push_str("(")?;
            put_tokens(out, edition, tokens)?;
            out.push_str(")")
        }
    }
}

#[tactic(auto, unfolding(crate::specs::Page::meta_text))]
fn put_meta(out: &mut String, edition: Edition, meta: &Meta) -> Result<(), AllocError>
    ensures ok { OnOk result (string_bytes out.new ≡ string_bytes out.old ++ meta_text edition (meta_view meta.now)) }
{
    out.push_str("[")?;
    put_path(out, edition, &meta.path)?;
    put_input(out, edition, &meta.input)?;
    out.push_str("]")
}

#[tactic(auto, unfolding(crate::specs::Page::meta_line))]
fn put_meta_line(
    out: &mut String,
    edition: Edition,
    level: usize,
    mark: &str,
    meta: &Meta,
) -> Result<(), AllocError>
    ensures ok { OnOk result (string_bytes out.new ≡ string_bytes out.old ++ meta_line edition level mark.now (meta_view meta.now)) }
{
    put_pad(out, level)?;
    out.push_str(mark)?;
    put_meta(out, edition, meta)?;
    out.push_str("\n")
}

fn put_metas(
    out: &mut String,
    edition: Edition,
    level: usize,
    mark: &str,
    attrs: &[Attr],
) -> Result<(), AllocError>
    ensures ok { OnOk result (string_bytes out.new
        ≡ string_bytes out.old ++ metas_text edition level mark.now (map numbered attrs.now)) }
{
    for attr in attrs {
        put_meta_line(out, edition, level, mark, &attr.meta)?;
    }
    Ok(())
}

fn put_disabled(
    out: &mut String,
    level: usize,
    mark: &str,
    disabled: &Option<CfgExpr>,
) -> Result<(), AllocError>
    ensures ok { OnOk result (string_bytes out.new
        ≡ string_bytes out.old ++ disabled_text level mark.now (option_map cfg_view disabled.now)) }
{
    match disabled {
        None => Ok(()),
        Some(cfg) => {
            put_pad(out, level)?;
            out.push_str(mark)?;
            out.push_str("[cfg(")?;
            put_cfg(out, cfg)?;
            out.push_str(")]\n")
        }
    }
}

/// Adds what is left of attributes, each on a line of its own behind a mark.
pub fn put_attrs(
    out: &mut String,
    edition: Edition,
    level: usize,
    mark: &str,
    attrs: &AttrsOrCfg,
) -> Result<(), AllocError>
    ensures ok { OnOk result (string_bytes out.new
        ≡ string_bytes out.old ++ attributes_text edition level mark.now (collected_of attrs.now)) }
{
    put_metas(out, edition, level, mark, &attrs.attrs)?;
    put_disabled(out, level, mark, &attrs.disabled)
}
