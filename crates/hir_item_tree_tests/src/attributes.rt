use crate::units::{holds, is_text, source_of};
use hir_base::ast_id::AttrId;
use hir_base::cfg::CfgAtom;
use hir_base::cfg_options::CfgOptions;
use hir_base::name::Name;
use hir_item_tree::attr_query::{AttrQuery, Attrs};
use hir_item_tree::attrs::{AttrsOrCfg, collected};
use hir_item_tree::raw_attr::{RawAttr, TokenTree};
use hir_item_tree::source::Source;
use std::alloc::{AllocError, Global};
use std::fmt::Write;
use std::process::Abort;
use std::test::Fail;

/// These attributes, as they stand at the top of a unit.
pub fn attributes(alloc: Global, attrs: &str) -> Result<Vec<RawAttr>, Fail> {
    let unit = format!(in alloc; "{{\"attrs\":{attrs}}}")?;
    match source_of(alloc, unit.as_str())? {
        Source::Unit(unit) => Ok(unit.attrs),
        Source::Broken => Err(Fail::new("broken")),
    }
}

/// The options with `x`.
fn with_x(alloc: Global) -> Result<CfgOptions, Fail> {
    let name = Name::new(alloc, "x")?;
    let mut options = CfgOptions::new(alloc);
    options.insert(CfgAtom::Flag(name))?;
    Ok(options)
}

/// Adds the number and path of each attribute.
pub fn put_numbers(text: &mut String, attrs: &AttrsOrCfg) -> Result<(), AllocError> {
    for attr in attrs.attrs().iter() {
        let id = attr.id.0;
        let path = attr.meta.path.display_verbatim();
        write!(text, "{id} {path}; ")?;
    }
    Ok(())
}

/// No options, or those with `x`.
pub fn options(alloc: Global, x: bool) -> Result<CfgOptions, Fail> {
    if x {
        with_x(alloc)
    } else {
        Ok(CfgOptions::new(alloc))
    }
}

/// What is left of attributes.
fn left(alloc: Global, attrs: &str, x: bool) -> Result<AttrsOrCfg, Fail> {
    let options = options(alloc, x)?;
    let raw = attributes(alloc, attrs)?;
    Ok(collected(alloc, &options, &raw)?)
}

/// The numbers and paths of what is kept, and whether a condition doesn't hold.
fn shown(alloc: Global, attrs: &AttrsOrCfg) -> Result<String, AllocError> {
    let mut text = String::new(alloc);
    put_numbers(&mut text, attrs)?;
    if !attrs.is_enabled() {
        text.push_str("disabled")?;
    }
    Ok(text)
}

fn shown_left(alloc: Global, attrs: &str, x: bool) -> Result<String, Fail> {
    let left = left(alloc, attrs, x)?;
    Ok(shown(alloc, &left)?)
}

/// Whether what is left without `x` is the same as its copy.
fn same_again(alloc: Global, attrs: &str) -> Result<bool, Fail> {
    let left = left(alloc, attrs, false)?;
    let again = left.clone()?;
    Ok(left.same(&again))
}

/// Attributes, and what is left of them without and with the option `x`.
const ATTRS: &[(&str, &str, &str, &str)] = &[
    (
        "cfg_attr_contents_keep_their_numbers",
        r#"[{"path":"cfg_attr","cfg":"x","attrs":[{"path":"inline"},{"path":"cold"}]},{"path":"must_use"}]"#,
        "3 must_use; ",
        "1 inline; 2 cold; 3 must_use; ",
    ),
    (
        "a false condition ends it",
        r#"[{"path":"a"},{"path":"cfg","cfg":"x"},{"path":"b"}]"#,
        "0 a; disabled",
        "0 a; 2 b; ",
    ),
    (
        "a condition that can't be read holds",
        r#"[{"path":"cfg","cfg":null},{"path":"cfg_attr","cfg":null,"attrs":[{"path":"a"}]}]"#,
        "2 a; ",
        "2 a; ",
    ),
    (
        "a false condition in a cfg_attr",
        r#"[{"path":"cfg_attr","cfg":"x","attrs":[{"path":"cfg","cfg":false}]},{"path":"cfg_attr","cfg":true,"attrs":[{"path":"cfg_attr","cfg":true,"attrs":[{"path":"a"}]}]}]"#,
        "4 a; ",
        "disabled",
    ),
];

fn are_left(rt: &impl Abort, alloc: Global, rows: &[(&str, &str, &str, &str)]) -> Result<(), Fail> {
    for &(row, attrs, expected, expected_with) in rows {
        let text = shown_left(alloc, attrs, false)?;
        is_text(rt, row, text.as_str(), expected);
        let text = shown_left(alloc, attrs, true)?;
        is_text(rt, row, text.as_str(), expected_with);
        holds(rt, row, same_again(alloc, attrs)?);
    }
    Ok(())
}

/// What is left of attributes, without and with the option `x`.
#[test]
fn attrs(rt: HostRuntime) -> Result<(), Fail> {
    are_left(&rt, rt.alloc(), ATTRS)
}

/// Where nothing is collected, there is no attribute and no condition.
#[test]
fn nothing_collected(rt: HostRuntime) {
    let none = AttrsOrCfg::empty(rt.alloc());
    assert!(rt; none.attrs().as_slice().len() == 0);
    assert!(rt; none.is_enabled());
}

/// What is left of the first, merged with what is left of the second.
fn merged(alloc: Global, first: &str, second: &str) -> Result<AttrsOrCfg, Fail> {
    let second = left(alloc, second, false)?;
    let first = left(alloc, first, false)?;
    Ok(first.merge(second)?)
}

fn shown_merged(alloc: Global, first: &str, second: &str) -> Result<String, Fail> {
    let merged = merged(alloc, first, second)?;
    Ok(shown(alloc, &merged)?)
}

const ONE: &str = r#"[{"path":"a"}]"#;

const OTHER: &str = r#"[{"path":"b"},{"path":"cfg","cfg":false}]"#;

/// Of two lists the first goes in front, unless it is disabled.
#[test]
fn merging(rt: HostRuntime) -> Result<(), Fail> {
    let text = shown_merged(rt.alloc(), ONE, OTHER)?;
    is_text(&rt, "enabled first", text.as_str(), "0 a; 0 b; disabled");
    let text = shown_merged(rt.alloc(), OTHER, ONE)?;
    is_text(&rt, "disabled first", text.as_str(), "0 b; disabled");
    Ok(())
}

/// The numbers of the attributes of a key, and the tokens that they have in parentheses.
fn keyed(alloc: Global, query: AttrQuery<'_>) -> Result<String, AllocError> {
    let mut text = String::new(alloc);
    for attr in query.attrs() {
        let id = attr.id.0;
        write!(text, "{id} ")?;
    }
    for tree in query.tt_values() {
        if let TokenTree::Tokens(tokens) = tree {
            write!(text, "({tokens})")?;
        }
    }
    Ok(text)
}

/// The attributes that are asked.
const ASKED: &str =
    r#"[{"path":"path"},{"path":"clippy::path","literal":"no"},{"path":"path","literal":"x.rs"},{"path":"path","tokens":"1, 2"},{"path":"path","literal":"y.rs"}]"#;

fn keyed_left(alloc: Global, key: &str) -> Result<String, Fail> {
    let left = left(alloc, ASKED, false)?;
    Ok(keyed(alloc, left.attrs().by_key(key))?)
}

fn exists(alloc: Global, key: &str) -> Result<bool, Fail> {
    let left = left(alloc, ASKED, false)?;
    Ok(left.attrs().by_key(key).exists())
}

fn has_value(alloc: Global, key: &str, value: Option<&str>) -> Result<bool, Fail> {
    let left = left(alloc, ASKED, false)?;
    Ok(left.attrs().by_key(key).string_value() == value)
}

/// Questions by key.
#[test]
fn queries(rt: HostRuntime) -> Result<(), Fail> {
    let text = keyed_left(rt.alloc(), "path")?;
    is_text(&rt, "path", text.as_str(), "0 2 3 4 (1, 2)");
    holds(&rt, "path is there", exists(rt.alloc(), "path")?);
    holds(&rt, "clippy isn't", !exists(rt.alloc(), "clippy")?);
    let has_first = has_value(rt.alloc(), "path", Some("x.rs"))?;
    holds(&rt, "path has a value", has_first);
    holds(
        &rt,
        "inline has none",
        has_value(rt.alloc(), "inline", None)?,
    );
    Ok(())
}

/// How many attributes are behind the one with this number, if it is there.
fn count_after(alloc: Global, after: Option<AttrId>) -> Result<Option<usize>, Fail> {
    let left = left(alloc, ASKED, false)?;
    let attrs = left.attrs();
    if !attrs.has(after) {
        return Ok(None);
    }
    Ok(Some(attrs.iter_after(after).count()))
}

/// Questions by number.
#[test]
fn numbers(rt: HostRuntime) -> Result<(), Fail> {
    assert!(rt; count_after(rt.alloc(), None)? == Some(5));
    assert!(rt; count_after(rt.alloc(), Some(AttrId(2)))? == Some(2));
    assert!(rt; count_after(rt.alloc(), Some(AttrId(5)))?.is_none());
    assert!(rt; Attrs::empty().as_slice().len() == 0);
    Ok(())
}
