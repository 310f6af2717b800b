//! Answers as JSON.
ghost use Rattle.std.specs.Prelude.{◌≡◌, IfOk};
ghost use Rattle.serde_json.specs.View.{view};
ghost use Rattle.hir_wire.specs.Replies.{import_data, visibility_data, item_data, answer_data, or_null, number_data};

use crate::answer::{Answer, AnswerItem, AnswerVisibility, Definition, ImportOrigin, ImportSource};
use crate::write::definition::{definition_value, id_value, source_value};
use serde_json::{Value, json};
use std::alloc::{AllocError, Global};

fn import_value(alloc: Global, import: &ImportSource) -> Result<Value, AllocError>
    ensures value { IfOk result (λ v. view v ≡ import_data import.now) }
{
    let id = id_value(alloc, import.id)?;
    let source = source_value(alloc, &import.source)?;
    match import.origin {
        ImportOrigin::Import(place) => {
            json!(in alloc; {"id": id, "in": source, "kind": "import", "place": place})
        }
        ImportOrigin::Glob(place) => {
            json!(in alloc; {"id": id, "in": source, "kind": "glob", "place": place})
        }
        ImportOrigin::ExternCrate => {
            json!(in alloc; {"id": id, "in": source, "kind": "extern crate"})
        }
    }
}

fn import_or_null(alloc: Global, import: &Option<ImportSource>) -> Result<Value, AllocError>
    ensures value { IfOk result (λ v. view v ≡ or_null import_data import.now) }
{
    match import {
        None => Ok(Value::Null),
        Some(import) => import_value(alloc, import),
    }
}

fn module_visibility(
    alloc: Global,
    explicit: bool,
    within: &Definition,
) -> Result<Value, AllocError>
    ensures value { IfOk result (λ v. view v
        ≡ visibility_data (AnswerVisibility.Module explicit within.now)) }
{
    let module = definition_value(alloc, within)?;
    json!(in alloc; {"explicit": explicit, "module": module})
}

fn visibility_value(alloc: Global, visibility: &AnswerVisibility) -> Result<Value, AllocError>
    ensures value { IfOk result (λ v. view v ≡ visibility_data visibility.now) }
{
    match visibility {
        AnswerVisibility::Public => Value::try_from_str(alloc, "pub"),
        AnswerVisibility::Crate(krate) => json!(in alloc; {"crate": krate.0}),
        AnswerVisibility::Module { explicit, module } => {
            module_visibility(alloc, *explicit, module)
        }
    }
}

fn item_value(alloc: Global, item: &AnswerItem) -> Result<Value, AllocError>
    ensures value { IfOk result (λ v. view v ≡ item_data item.now) }
{
    let def = definition_value(alloc, &item.def)?;
    let import = import_or_null(alloc, &item.import)?;
    let vis = visibility_value(alloc, &item.vis)?;
    json!(in alloc; {"def": def, "import": import, "vis": vis})
}

/// What a name stands for in one namespace, null for nothing.
pub fn item_or_null(alloc: Global, item: &Option<AnswerItem>) -> Result<Value, AllocError>
    ensures value { IfOk result (λ v. view v ≡ or_null item_data item.now) }
{
    match item {
        None => Ok(Value::Null),
        Some(item) => item_value(alloc, item),
    }
}

fn stop_value(stop: Option<usize>) -> Value
    ensures value { view result ≡ or_null number_data stop }
{
    match stop {
        None => Value::Null,
        Some(stop) => Value::from(stop),
    }
}

/// What a path names in each namespace, null for nothing.
pub fn answer_value(alloc: Global, answer: &Answer) -> Result<Value, AllocError>
    ensures value { IfOk result (λ v. view v ≡ answer_data answer.now) }
{
    let macros = item_or_null(alloc, &answer.macros)?;
    let stop = stop_value(answer.stop);
    let types = item_or_null(alloc, &answer.types)?;
    let values = item_or_null(alloc, &answer.values)?;
    json!(in alloc; {"macros": macros, "stop": stop, "types": types, "values": values})
}
