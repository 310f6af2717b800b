//! Sources by the text of their units.

use hir_base::cfg_options::CfgOptions;
use hir_item_tree::item_tree::{ItemTree, source_tree};
use hir_item_tree::source::Source;
use hir_wire::command::Command;
use hir_wire::edit::Edit;
use hir_wire::read::line::read_command;
use std::alloc::{AllocError, Global};
use std::process::Abort;
use std::test::Fail;

/// Asserts a text; of all tests, so that the comparison is proved once.
pub fn is_text(rt: &impl Abort, row: &str, found: &str, expected: &str) {
    assert_eq!(rt; found, expected, "{row}");
}

/// Asserts what a row says.
pub fn holds(rt: &impl Abort, row: &str, is: bool) {
    assert!(rt; is, "{row}");
}

/// The source that a file hands in with this unit.
pub fn source_of(alloc: Global, unit: &str) -> Result<Source, Fail> {
    let line = format!(in alloc; "{{\"do\":\"set file\",\"file\":\"lib.rs\",\"unit\":{unit}}}")?;
    match read_command(alloc, line.as_bytes())? {
        Command::Edit(Edit::SetFile { file: _, source }) => Ok(source),
        _ => Err(Fail::new("another command")),
    }
}

/// The tree of a source, without options and without a crate's attributes.
pub fn tree_of_source(alloc: Global, source: &Source) -> Result<ItemTree, AllocError> {
    let front = Vec::new(alloc);
    let options = CfgOptions::new(alloc);
    source_tree(alloc, source, &front, &options)
}

/// The tree of a unit.
pub fn tree_of(alloc: Global, unit: &str) -> Result<ItemTree, Fail> {
    let source = source_of(alloc, unit)?;
    Ok(tree_of_source(alloc, &source)?)
}
