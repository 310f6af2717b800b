//! What an expansion depends on, once more.
ghost use Rattle.std.specs.Prelude.{◌≡◌, IfOk};
ghost use Rattle.hir_session_state.specs.HirTables.SourcePlaces.{expansion_value};

use hir_base::macro_kind::{ExpansionKey, MacroText};
use std::alloc::{AllocError, Global};

fn copied_text(text: &MacroText) -> Result<MacroText, AllocError>
    ensures value { IfOk result (λ t. t ≡ text.now) }
{
    Ok(MacroText {
        krate: text.krate,
        text: text.text.clone()?,
    })
}

fn copied_texts(alloc: Global, texts: &[MacroText]) -> Result<Vec<MacroText>, AllocError>
    ensures value { IfOk result (λ ts. ts.items ≡ texts.now) }
{
    let mut copies = Vec::new(alloc);
    for text in texts {
        copies.push(copied_text(text)?)?;
    }
    Ok(copies)
}

/// The same key; no text is copied.
pub fn copied_key(alloc: Global, key: &ExpansionKey) -> Result<ExpansionKey, AllocError>
    ensures value { IfOk result (λ k. expansion_value k ≡ expansion_value key.now) }
{
    Ok(ExpansionKey {
        caller: key.caller,
        called: copied_text(&key.called)?,
        call: key.call,
        input: key.input.clone()?,
        reached: copied_texts(alloc, key.reached.as_slice())?,
    })
}
