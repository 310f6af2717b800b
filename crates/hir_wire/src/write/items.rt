//! The items of traits and impls as JSON.
ghost use Rattle.std.specs.Prelude.{◌≡◌, IfOk, map};
ghost use Rattle.serde_json.specs.View.{view};
ghost use Rattle.hir_wire.specs.Replies.{assoc_item_data, called_data, items_data};

use crate::diagnostic::CalledItem;
use crate::items::{AssocItem, Items};
use crate::write::diagnostic::{called_value, diagnostics_list, source_item_value};
use serde_json::{Value, json};
use std::alloc::{AllocError, Global};

fn assoc_item_value(alloc: Global, item: &AssocItem) -> Result<Value, AllocError>
    ensures value { IfOk result (λ v. view v ≡ assoc_item_data item.now) }
{
    let def = source_item_value(alloc, &item.def)?;
    json!(in alloc; {"def": def, "name": item.name.as_str()})
}

fn assoc_items_list(alloc: Global, items: &[AssocItem]) -> Result<Vec<Value>, AllocError>
    ensures value { IfOk result (λ vs. map view vs.items ≡ map assoc_item_data items.now) }
{
    let mut values = Vec::new(alloc);
    for item in items {
        values.push(assoc_item_value(alloc, item)?)?;
    }
    Ok(values)
}

fn calls_list(alloc: Global, calls: &[CalledItem]) -> Result<Vec<Value>, AllocError>
    ensures value { IfOk result (λ vs. map view vs.items ≡ map called_data calls.now) }
{
    let mut values = Vec::new(alloc);
    for call in calls {
        values.push(called_value(alloc, call)?)?;
    }
    Ok(values)
}

/// What a trait or an impl holds.
pub fn items_value(alloc: Global, items: &Items) -> Result<Value, AllocError>
    ensures value { IfOk result (λ v. view v ≡ items_data items.now) }
{
    let calls = Value::Array(calls_list(alloc, items.calls.as_slice())?);
    let diagnostics = Value::Array(diagnostics_list(alloc, items.diagnostics.as_slice())?);
    let listed = Value::Array(assoc_items_list(alloc, items.items.as_slice())?);
    json!(in alloc; {"calls": calls, "diagnostics": diagnostics, "items": listed})
}
