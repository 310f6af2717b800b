//! Expansions of macro calls: what they depend on, and what they give.
ghost use Rattle.std.specs.Prelude.{◌≡◌, []};
ghost use Rattle.hir_wire.specs.Values.{view, members_view, items_view};
ghost use Rattle.hir_tables.specs.SourcePlaces.{expansion_value};
ghost use Rattle.hir_messages.specs.Edits.{call_key_value, entry_view, inner_entry};
ghost use Rattle.hir_wire.specs.Expansions.{call_of_word, attribute_call, call_of_items, call_of, macro_text_in, key_in, entry_in, inner_in, unresolved};
ghost use Rattle.hir_wire.specs.Reading.{Reads};

use crate::edit::{CallKey, ExpansionEntry};
use crate::json::combinators::{both, list_or_empty, maybe, required};
use crate::json::from_json::FromJson;
use crate::read::path::read_u32;
use crate::read_error::ReadError;
use hir_base::ast_id::AttrId;
use hir_base::macro_kind::{CallStyle, ExpansionKey, MacroText};
use hir_base::mod_path::ModPath;
use hir_base::text::Text;
use crate::json::value::{Members, Value};
use std::alloc::Global;

fn call_of_word(word: &str) -> Option<CallStyle>
    ensures value { result ≡ call_of_word word.now }
{
    match word {
        "bang" => Some(CallStyle::Bang),
        "derive" => Some(CallStyle::Derive),
        _ => None,
    }
}

fn attribute_call(word: &Value<'_>, attr: &Value<'_>) -> Option<CallStyle>
    ensures value { result ≡ attribute_call (view word.now) (view attr.now) }
{
    if word.as_str()? != "attr" {
        return None;
    }
    Some(CallStyle::Attribute(AttrId(read_u32(attr)?)))
}

fn call_of_items(items: &[Value<'_>]) -> Option<CallStyle>
    ensures value { result ≡ call_of_items (items_view items.now) }
{
    match items {
        [word, attr] => attribute_call(word, attr),
        _ => None,
    }
}

fn call_of_value(value: &Value<'_>) -> Option<CallStyle>
    ensures value { result ≡ call_of (view value.now) }
{
    match value {
        Value::String(word) => call_of_word(*word),
        Value::Array(items) => call_of_items(items.as_slice()),
        _ => None,
    }
}

impl FromJson for CallStyle {
    ghost use Rattle.hir_base.specs.declared.macro_kind.CallStyle.{CallStyle};
    ghost use Rattle.hir_wire.specs.Expansions.{call_meant};

    ghost Seen = { CallStyle };

    ghost seen = { λ c. c };

    ghost meaning = { call_meant };

    fn read(_alloc: Global, value: &Value<'_>) -> Result<CallStyle, ReadError> {
        match call_of_value(value) {
            Some(call) => Ok(call),
            None => Err(ReadError::Command),
        }
    }
}

#[tactic(auto, unfolding(crate::specs::Expansions::macro_text_in))]
fn read_macro_text(alloc: Global, members: &Members<'_>) -> Result<MacroText, ReadError>
    ensures value { Reads (λ m. m) (macro_text_in (members_view members.now.items)) result }
{
    match both(
        required(alloc, members, "crate"),
        required(alloc, members, "text"),
    ) {
        Ok((krate, text)) => Ok(MacroText { krate, text }),
        Err(error) => Err(error),
    }
}

impl FromJson for MacroText {
    ghost use Rattle.hir_base.specs.declared.macro_kind.MacroText.{MacroText};
    ghost use Rattle.hir_wire.specs.Expansions.{macro_text_of};

    ghost Seen = { MacroText };

    ghost seen = { λ m. m };

    ghost meaning = { macro_text_of };

    fn read(alloc: Global, value: &Value<'_>) -> Result<MacroText, ReadError> {
        match value {
            Value::Object(members) => read_macro_text(alloc, members),
            _ => Err(ReadError::Command),
        }
    }
}

#[tactic(auto, unfolding(crate::specs::Expansions::key_in))]
fn read_key_members(alloc: Global, members: &Members<'_>) -> Result<ExpansionKey, ReadError>
    ensures value { Reads expansion_value (key_in (members_view members.now.items)) result }
{
    match both(
        both(
            both(
                required(alloc, members, "caller"),
                read_macro_text(alloc, members),
            ),
            both(
                required(alloc, members, "call"),
                required(alloc, members, "input"),
            ),
        ),
        list_or_empty(alloc, members, "reached"),
    ) {
        Ok((((caller, called), (call, input)), reached)) => Ok(ExpansionKey {
            caller,
            called,
            call,
            input,
            reached,
        }),
        Err(error) => Err(error),
    }
}

impl FromJson for ExpansionKey {
    ghost use Rattle.hir_tables.specs.SourcePlaces.{ExpansionValue, expansion_value};
    ghost use Rattle.hir_wire.specs.Expansions.{key_of};

    ghost Seen = { ExpansionValue };

    ghost seen = { expansion_value };

    ghost meaning = { key_of };

    fn read(alloc: Global, value: &Value<'_>) -> Result<ExpansionKey, ReadError> {
        match value {
            Value::Object(members) => read_key_members(alloc, members),
            _ => Err(ReadError::Command),
        }
    }
}

/// A key, if it names no macros that paths reach.
fn unresolved(key: ExpansionKey) -> Result<CallKey, ReadError>
    ensures value { Reads call_key_value (unresolved (expansion_value key)) result }
{
    let ExpansionKey {
        caller,
        called,
        call,
        input,
        reached,
    } = key;
    if !reached.is_empty() {
        return Err(ReadError::Command);
    }
    Ok(CallKey {
        caller,
        called,
        call,
        input,
    })
}

impl FromJson for CallKey {
    ghost use Rattle.hir_tables.specs.SourcePlaces.{ExpansionValue};
    ghost use Rattle.hir_messages.specs.Edits.{call_key_value};
    ghost use Rattle.hir_wire.specs.Expansions.{call_key_of};

    ghost Seen = { ExpansionValue };

    ghost seen = { call_key_value };

    ghost meaning = { call_key_of };

    fn read(alloc: Global, value: &Value<'_>) -> Result<CallKey, ReadError> {
        match ExpansionKey::read(alloc, value) {
            Ok(key) => unresolved(key),
            Err(error) => Err(error),
        }
    }
}

/// What an expansion gives: its syntax, and why it failed, if it did.
#[tactic(auto, unfolding(crate::specs::Expansions::entry_in))]
pub fn read_entry(alloc: Global, members: &Members<'_>) -> Result<ExpansionEntry, ReadError>
    ensures value { Reads entry_view (entry_in (members_view members.now.items)) result }
{
    match both(
        required(alloc, members, "unit"),
        maybe(alloc, members, "error"),
    ) {
        Ok((source, error)) => Ok(ExpansionEntry { source, error }),
        Err(error) => Err(error),
    }
}

/// The paths that a macro asks to have resolved first, and why its expansion failed, if it did.
#[tactic(auto, unfolding(crate::specs::Expansions::inner_in))]
pub fn read_inner(
    alloc: Global,
    members: &Members<'_>,
) -> Result<(Vec<ModPath>, Option<Text>), ReadError>
    ensures value { Reads (λ p. inner_entry p.0.items p.1) (inner_in (members_view members.now.items)) result }
{
    both(
        required(alloc, members, "inner"),
        maybe(alloc, members, "error"),
    )
}
