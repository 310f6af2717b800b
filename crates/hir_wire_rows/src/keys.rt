//! Keys and entries of expansions.
use hir_base::edition::Edition;
use hir_base::macro_kind::{CallStyle, ExpansionKey, MacroText};
use hir_base::mod_path::ModPath;
use hir_base::text::Text;
use hir_wire::{CallKey, ExpansionEntry};
use std::alloc::AllocError;
use std::fmt::Write;

fn push_call(out: &mut String, call: CallStyle) -> Result<(), AllocError> {
    match call {
        CallStyle::Bang => out.push_str(" bang"),
        CallStyle::Derive => out.push_str(" derive"),
        CallStyle::Attribute(attr) => {
            let attr = attr.0;
            write!(out, " attribute {attr}")
        }
    }
}

/// Writes the crate that calls, the crate and the text of the macro, how it is called, and on which input.
fn push_call_on(
    out: &mut String,
    caller: u32,
    called: &MacroText,
    call: CallStyle,
    input: &str,
) -> Result<(), AllocError> {
    let krate = called.krate.0;
    let text = called.text.as_str();
    write!(out, "{caller} {krate} `{text}`")?;
    push_call(out, call)?;
    write!(out, " `{input}`")
}

/// Writes a line: the call, and behind it the macros that paths reach.
pub fn push_key(out: &mut String, key: &ExpansionKey) -> Result<(), AllocError> {
    push_call_on(out, key.caller.0, &key.called, key.call, key.input.as_str())?;
    for makro in &key.reached {
        let krate = makro.krate.0;
        let text = makro.text.as_str();
        write!(out, " {krate} `{text}`")?;
    }
    out.push_str("\n")
}

/// Writes a line: the call, and behind it the paths that its macro asks to have resolved first.
pub fn push_inner(out: &mut String, key: &CallKey, inner: &[ModPath]) -> Result<(), AllocError> {
    push_call_on(out, key.caller.0, &key.called, key.call, key.input.as_str())?;
    out.push_str(" inner")?;
    for path in inner {
        let path = path.display(Edition::LATEST);
        write!(out, " `{path}`")?;
    }
    out.push_str("\n")
}

/// Writes a line with the error of an entry, if it has one.
pub fn push_entry(out: &mut String, entry: &ExpansionEntry) -> Result<(), AllocError> {
    push_error(out, &entry.error)
}

pub fn push_error(out: &mut String, error: &Option<Text>) -> Result<(), AllocError> {
    match error {
        Some(error) => {
            let error = error.as_str();
            write!(out, "failed `{error}`\n")
        }
        None => Ok(()),
    }
}
