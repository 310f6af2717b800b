//! The trees of what is handed in under a crate.
ghost use Rattle.std.specs.Prelude.{Some, option_map};
ghost use Rattle.hir_base.specs.CfgOptions.{is_set};
ghost use Rattle.hir_item_tree.specs.Attributes.{attributes_view};
ghost use Rattle.hir_item_tree.specs.Source.{source_view};

use crate::attributes::{attributes, options, put_numbers};
use crate::units::{is_text, source_of};
use hir_base::ast_id::{EditionedFileId, FileId, HirFileId};
use hir_base::cfg_options::CfgOptions;
use hir_base::edition::Edition;
use hir_base::ids::Crate;
use hir_item_tree::item_tree::{ItemTree, file_item_tree};
use hir_item_tree::raw_attr::RawAttr;
use hir_item_tree::source::Source;
use hir_item_tree::sources::Sources;
use std::alloc::{AllocError, Global};
use std::process::Abort;
use std::test::Fail;

/// A file, if it is there, that is the root of each crate, their attributes and their options.
#[derive(Drop)]
struct OneFile {
    source: Option<Source>,
    front: Vec<RawAttr>,
    options: CfgOptions,
}

impl Sources for OneFile {
    ghost sources = { λ s. record {
      source = λ file. option_map source_view s.source;
      root_attributes = λ krate file. Some (attributes_view s.front.items);
      options = λ krate. Some (is_set s.options);
    } };

    fn source(&self, _file_id: HirFileId) -> Option<&Source> {
        self.source.as_ref()
    }

    fn root_attrs(&self, _krate: Crate, _file_id: HirFileId) -> Option<&Vec<RawAttr>> {
        Some(&self.front)
    }

    fn options(&self, _krate: Crate) -> Option<&CfgOptions> {
        Some(&self.options)
    }
}

const FILE: HirFileId = HirFileId::File(EditionedFileId {
    file_id: FileId(0),
    edition: Edition::Edition2021,
});

fn tree_under(alloc: Global, sources: OneFile) -> Result<ItemTree, Fail> {
    Ok(file_item_tree(alloc, &sources, FILE, Crate(0))?)
}

/// The tree of a unit, or of what is absent, under a crate with these attributes, without or with the option `x`.
fn tree_of(alloc: Global, front: &str, unit: Option<&str>, x: bool) -> Result<ItemTree, Fail> {
    let front = attributes(alloc, front)?;
    let options = options(alloc, x)?;
    let source = source_or_none(alloc, unit)?;
    tree_under(
        alloc,
        OneFile {
            source,
            front,
            options,
        },
    )
}

fn source_or_none(alloc: Global, unit: Option<&str>) -> Result<Option<Source>, Fail> {
    match unit {
        Some(unit) => Ok(Some(source_of(alloc, unit)?)),
        None => Ok(None),
    }
}

fn tree_of_unit(alloc: Global, front: &str, unit: &str, x: bool) -> Result<ItemTree, Fail> {
    tree_of(alloc, front, Some(unit), x)
}

fn absent_tree(alloc: Global, front: &str) -> Result<ItemTree, Fail> {
    tree_of(alloc, front, None, false)
}

/// `mod inline { use super::*; fn fn_in_module() {} } mod outline;`
const MODULES: &str = r#"{"nodes":[
    {"kind":"Module","id":[942,0],"name":"inline","nodes":[
        {"kind":"Use","id":[0,0],"tree":{"glob":"super"}},
        {"kind":"Fn","id":[10872,0],"name":"fn_in_module","body":"{}"}
    ]},
    {"kind":"Module","id":[49291,0],"name":"outline"}
]}"#;

const PAGE_OF_MODULES: &str =
    "// AstId: Module[03AE, 0]\npub(self) mod inline {\n    // AstId: Use[0000, 0]\n    pub(self) use super::*;\n\n    // AstId: Fn[2A78, 0]\n    pub(self) fn fn_in_module;\n}\n\n// AstId: Module[C08B, 0]\npub(self) mod outline;\n";

const NO_STD: &str = r#"[{"path":"no_std"}]"#;

/// The attributes of a crate, a unit, and its page.
const PAGES: [(&str, &str, &str, &str); 2] = [
    (
        "disabled_file_keeps_earlier_attributes",
        NO_STD,
        r#"{"attrs":[{"path":"cfg","cfg":false},{"path":"no_core"}]}"#,
        "#![no_std]\n#![cfg(false)]\n",
    ),
    ("inline_and_outline_modules", "[]", MODULES, PAGE_OF_MODULES),
];

fn page_of_unit(alloc: Global, front: &str, unit: &str) -> Result<String, Fail> {
    let tree = tree_of_unit(alloc, front, unit, false)?;
    Ok(tree.pretty_print(Edition::Edition2021)?)
}

fn have_pages(
    rt: &impl Abort,
    alloc: Global,
    rows: &[(&str, &str, &str, &str)],
) -> Result<(), Fail> {
    for &(label, front, unit, page) in rows {
        let text = page_of_unit(alloc, front, unit)?;
        is_text(rt, label, text.as_str(), page);
    }
    Ok(())
}

/// What is handed in is read under the crate's options, behind its attributes.
#[test]
fn pages_of_files(rt: HostRuntime) -> Result<(), Fail> {
    have_pages(&rt, rt.alloc(), &PAGES)
}

/// What is absent has no items.
#[test]
fn tree_of_what_is_absent(rt: HostRuntime) -> Result<(), Fail> {
    let tree = absent_tree(rt.alloc(), "[]")?;
    assert!(rt; tree == ItemTree::empty(rt.alloc()));
    Ok(())
}

/// At a crate's root it has the attributes of the crate.
#[test]
fn tree_of_an_absent_root(rt: HostRuntime) -> Result<(), Fail> {
    let tree = absent_tree(rt.alloc(), NO_STD)?;
    assert!(rt; tree.top_level_items().len() == 0);
    assert!(rt; tree.top_level_attrs().attrs().by_key("no_std").exists());
    Ok(())
}

/// `#![cfg(x)]`
const WITH_X: &str = r#"{"attrs":[{"path":"cfg","cfg":"x"}]}"#;

fn is_enabled(alloc: Global, unit: &str, x: bool) -> Result<bool, Fail> {
    let tree = tree_of_unit(alloc, "[]", unit, x)?;
    Ok(tree.top_level_attrs().is_enabled())
}

/// A condition at its top disables a file.
#[test]
fn attributes_at_the_top(rt: HostRuntime) -> Result<(), Fail> {
    assert!(rt; !is_enabled(rt.alloc(), WITH_X, false)?);
    assert!(rt; is_enabled(rt.alloc(), WITH_X, true)?);
    Ok(())
}

/// `fn f() { 1 }` and `fn f() { 2 }`.
const ONE_BODY: &str = r#"{"nodes":[{"kind":"Fn","id":[1,0],"name":"f","body":"1"}]}"#;

const OTHER_BODY: &str = r#"{"nodes":[{"kind":"Fn","id":[1,0],"name":"f","body":"2"}]}"#;

/// A body isn't in the tree.
#[test]
fn equal_trees_of_two_bodies(rt: HostRuntime) -> Result<(), Fail> {
    let alloc = rt.alloc();
    let one = tree_of_unit(alloc, "[]", ONE_BODY, false)?;
    let other = tree_of_unit(alloc, "[]", OTHER_BODY, false)?;
    assert!(rt; one == other);
    Ok(())
}

/// `#[cfg_attr(x, inline, cold)] #[must_use] fn f() {}`
const ATTRIBUTES: &str = r#"{"nodes":[{"kind":"Fn","id":[1,0],"name":"f","attrs":[
    {"path":"cfg_attr","cfg":"x","attrs":[{"path":"inline"},{"path":"cold"}]},
    {"path":"must_use"}]}]}"#;

/// Adds the numbers and paths of the attributes of the first item.
fn put_first(text: &mut String, tree: &ItemTree) -> Result<(), AllocError> {
    if let [first, ..] = tree.top_level_items() {
        if tree.contains(*first) {
            put_numbers(text, tree.attrs(*first))?;
        }
    }
    Ok(())
}

fn numbers_of_first(alloc: Global, unit: &str, x: bool) -> Result<String, Fail> {
    let mut text = String::new(alloc);
    let tree = tree_of_unit(alloc, "[]", unit, x)?;
    put_first(&mut text, &tree)?;
    Ok(text)
}

/// The attributes of an item by their numbers, without and with the option `x`.
#[test]
fn attributes_of_an_item(rt: HostRuntime) -> Result<(), Fail> {
    let text = numbers_of_first(rt.alloc(), ATTRIBUTES, false)?;
    is_text(&rt, "without x", text.as_str(), "3 must_use; ");
    let text = numbers_of_first(rt.alloc(), ATTRIBUTES, true)?;
    let numbers = "1 inline; 2 cold; 3 must_use; ";
    is_text(&rt, "with x", text.as_str(), numbers);
    Ok(())
}
