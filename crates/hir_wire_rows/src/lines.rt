//! Lines, and what is done with them.
use crate::answers::{answer_below, answer_in, places_with};
use crate::crates::{push_crate, push_dependencies, push_front, push_options};
use crate::diagnostics::{diagnostics_below, diagnostics_of};
use crate::keys::{push_entry, push_error, push_inner, push_key};
use crate::parts::push_parts;
use crate::places::{push_block, push_impl, push_place, push_trait};
use hir_base::cfg_options::CfgOptions;
use hir_base::edition::Edition::Edition2021;
use hir_base::file_path::FilePath;
use hir_base::limit::Limit;
use hir_base::place::Place;
use hir_item_tree::item_tree::source_tree;
use hir_item_tree::source::{Node, Source};
use hir_wire::{Command, Edit, Reply, read_command, reply_text};
use std::alloc::{AllocError, Global};
use std::fmt::Write;

fn nodes_of(source: &Source) -> &[Node] {
    match source {
        Source::Unit(unit) => unit.nodes.as_slice(),
        Source::Broken => &[],
    }
}

fn page(alloc: Global, source: &Source) -> Result<String, AllocError> {
    let front = Vec::new(alloc);
    let options = CfgOptions::new(alloc);
    let tree = source_tree(alloc, source, &front, &options)?;
    tree.pretty_print(Edition2021)
}

/// Writes the page of a source, and below it what no page shows.
fn read(alloc: Global, source: &Source, out: &mut String) -> Result<(), AllocError> {
    let page = page(alloc, source)?;
    out.push_str(page.as_str())?;
    push_parts(out, nodes_of(source))
}

fn push_reply(alloc: Global, reply: Reply, out: &mut String) -> Result<(), AllocError> {
    let text = reply_text(alloc, &reply)?;
    out.push_str(text.as_str())
}

/// Refuses by a word.
fn refuse(alloc: Global, word: &str, out: &mut String) -> Result<(), AllocError> {
    let reply = match word {
        "memory" => Reply::Memory,
        "too many" => Reply::TooMany,
        "not a trait" => Reply::NotATrait,
        "no such impl" => Reply::NoSuchImpl,
        _ => Reply::TooLarge(Limit::Blocks),
    };
    push_reply(alloc, reply, out)
}

/// Refuses the id of the first node.
fn repeat(alloc: Global, nodes: &[Node], out: &mut String) -> Result<(), AllocError> {
    let Some(node) = nodes.first() else {
        return out.push_str("no node");
    };
    let kind = node.ast_kind();
    push_reply(alloc, Reply::DuplicateId { kind, id: node.id }, out)
}

fn diagnose(
    alloc: Global,
    file: &FilePath,
    nodes: &[Node],
    out: &mut String,
) -> Result<(), AllocError> {
    let diagnostics = diagnostics_of(alloc, file, nodes)?;
    push_reply(alloc, Reply::Diagnostics(diagnostics), out)
}

/// Names the last of these nodes, below the expansions of those before it.
fn name_last(
    alloc: Global,
    file: &FilePath,
    nodes: &[Node],
    out: &mut String,
) -> Result<(), AllocError> {
    let Some((node, calls)) = nodes.split_last() else {
        return out.push_str("no node");
    };
    let answer = answer_below(alloc, file, calls, node)?;
    push_reply(alloc, Reply::Answer(answer), out)
}

/// Diagnoses the last of these nodes, below the expansions of those before it.
fn diagnose_last(
    alloc: Global,
    file: &FilePath,
    nodes: &[Node],
    out: &mut String,
) -> Result<(), AllocError> {
    let Some((node, calls)) = nodes.split_last() else {
        return out.push_str("no node");
    };
    let diagnostics = diagnostics_below(alloc, file, calls, node)?;
    push_reply(alloc, Reply::Diagnostics(diagnostics), out)
}

fn name(alloc: Global, at: &Place, out: &mut String) -> Result<(), AllocError> {
    let answer = answer_in(alloc, at)?;
    push_reply(alloc, Reply::Answer(answer), out)
}

fn list(alloc: Global, at: &Place, out: &mut String) -> Result<(), AllocError> {
    let places = places_with(alloc, at)?;
    push_reply(alloc, Reply::Places(places), out)
}

fn with_file(
    alloc: Global,
    word: &str,
    file: &FilePath,
    source: &Source,
    out: &mut String,
) -> Result<(), AllocError> {
    match word {
        "read" => read(alloc, source, out),
        "repeat" => repeat(alloc, nodes_of(source), out),
        "name" => name_last(alloc, file, nodes_of(source), out),
        "expand" => diagnose_last(alloc, file, nodes_of(source), out),
        _ => diagnose(alloc, file, nodes_of(source), out),
    }
}

fn with_command(
    alloc: Global,
    word: &str,
    command: &Command,
    out: &mut String,
) -> Result<(), AllocError> {
    match command {
        Command::Edit(Edit::SetFile { file, source }) => with_file(alloc, word, file, source, out),
        Command::Edit(Edit::SetBlock { place, source }) => {
            push_block(out, place)?;
            out.push_str("\n")?;
            read(alloc, source, out)
        }
        Command::Edit(Edit::RemoveBlock { place }) => push_block(out, place),
        Command::Edit(Edit::SetExpansion { key, entry }) => {
            push_key(out, key)?;
            push_entry(out, entry)?;
            read(alloc, &entry.source, out)
        }
        Command::Edit(Edit::SetInnerPaths { key, inner, error }) => {
            push_inner(out, key, inner)?;
            push_error(out, error)
        }
        Command::Edit(Edit::RemoveExpansion { key }) => push_key(out, key),
        Command::Edit(
            Edit::SetCrate {
                krate,
                edition,
                attrs,
                cfg,
                deps,
            },
        ) => {
            push_crate(out, *krate, *edition)?;
            push_options(out, cfg)?;
            push_dependencies(out, deps)?;
            push_front(alloc, out, attrs, cfg, *edition)
        }
        Command::TraitItems { at, path } => push_trait(out, at, path),
        Command::ImplItems { at, number } => push_impl(out, at, *number),
        Command::Dump { at } => push_place(out, at),
        Command::Status { at } if word == "list" => list(alloc, at, out),
        Command::Status { at } => name(alloc, at, out),
        _ => out.push_str("another command"),
    }
}

fn answer(alloc: Global, word: &str, line: &str, out: &mut String) -> Result<(), AllocError> {
    match read_command(alloc, line.as_bytes()) {
        Ok(command) => with_command(alloc, word, &command, out),
        Err(error) => write!(out, "{error}"),
    }
}

/// Answers each line.
pub fn run(alloc: Global, text: &str, out: &mut String) -> Result<(), AllocError> {
    for text in text.lines() {
        match text.split_once(' ') {
            Some(("#", _)) | None => out.push_str(text)?,
            Some(("refuse", word)) => refuse(alloc, word, out)?,
            Some((word, line)) => answer(alloc, word, line, out)?,
        }
        out.push_str("\n")?;
    }
    Ok(())
}
