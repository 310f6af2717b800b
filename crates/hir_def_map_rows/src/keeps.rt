//! What a map keeps besides names, and how it is asked for.
use crate::asks::asker_at;
use crate::build::{function, item, makro, proc_macro};
use crate::shows::VisibilityText;
use crate::stage::{Draft, Stage};
use crate::words;
use crate::words::Fault;
use either::Either;
use hir_base::ast_id::{AstKind, FileId, MacroCallId, SyntaxId};
use hir_base::ids::ModuleId;
use hir_base::macro_kind::{MacroCallStyles, MacroId};
use hir_base::name::Name;
use hir_def_map::nameres::derive_helpers::DeriveHelper;
use hir_def_map::nameres::module_ids::ModuleIds;
use hir_def_map::{DefDiagnostic, DefMap, DefMaps, WorldPart};
use hir_item_tree::raw_visibility::RawVisibility;
use std::alloc::Global;
use std::fmt::Write;

fn derive(at: ModuleId, id: SyntaxId) -> MacroId {
    makro(at, MacroCallStyles::DERIVE, id)
}

fn add_helper(map: &mut DefMap, at: ModuleId, id: SyntaxId, name: Name) -> Result<(), Fault> {
    let helper = DeriveHelper {
        name,
        makro: derive(at, id),
        call: Some(Either::Left(MacroCallId(3))),
    };
    map.add_derive_helper(item(AstKind::MacroRules, id), helper)?;
    Ok(())
}

/// Gives the open map a macro, a procedural macro, a derive helper and a diagnostic of one node.
pub fn keep(alloc: Global, draft: &mut Draft, words: &[&str]) -> Result<(), Fault> {
    let [at, id, helper] = words else {
        return Err(Fault::Bad);
    };
    let at = words::module_id(at)?;
    let id = words::node_of(id)?;
    let node = item(AstKind::MacroRules, id);
    let map = &mut draft.map;
    map.add_macro_def(node, derive(at, id))?;
    map.export_proc_macro(function(at, id), proc_macro(at, id))?;
    map.add_diagnostic(DefDiagnostic::unresolved_extern_crate(at, node))?;
    add_helper(map, at, id, words::name_of(alloc, helper)?)
}

fn write_kept(
    alloc: Global,
    map: &DefMap,
    at: ModuleId,
    id: SyntaxId,
    out: &mut String,
) -> Result<(), Fault> {
    let node = item(AstKind::MacroRules, id);
    if map.macro_def_to_macro_id(node) == Some(derive(at, id)) {
        out.push_str(" a macro,")?;
    }
    if map.fn_as_proc_macro(function(at, id)) == Some(proc_macro(at, id)) {
        out.push_str(" a procedural macro,")?;
    }
    if map.proc_macro_as_fn(proc_macro(at, id)) == Some(function(at, id)) {
        out.push_str(" its function,")?;
    }
    let helpers = match map.derive_helpers_in_scope(node) {
        Some(helpers) => helpers.len(),
        None => 0,
    };
    let copy = map.diagnostics().clone(alloc)?;
    let diagnostics = copy.as_slice().len();
    write!(out, " {helpers} helpers, {diagnostics} diagnostics")?;
    Ok(())
}

/// What a map keeps of a node, and how many diagnostics in all.
pub fn kept(alloc: Global, stage: &Stage, words: &[&str], out: &mut String) -> Result<(), Fault> {
    let [at, id] = words else {
        return Err(Fault::Bad);
    };
    let asker = asker_at(stage, at)?;
    let id = words::node_of(id)?;
    out.push_str(" ->")?;
    write_kept(alloc, asker.map, asker.at, id, out)
}

/// Whether the finished map of the open one's id is equal to it, and so are the crates that its paths may begin with.
pub fn equal(alloc: Global, stage: &Stage, out: &mut String) -> Result<(), Fault> {
    let Some(draft) = &stage.draft else {
        return Err(Fault::Bad);
    };
    let id = draft.map.id();
    let is_map = stage.world.map(id) == Some(&draft.map);
    let copy = draft.local.clone(alloc)?;
    let is_local = stage.world.local(id) == Some(&copy);
    write!(out, " -> map {is_map}, crates {is_local}")?;
    Ok(())
}

fn modules_in<'a>(map: &'a DefMap, word: &str) -> Result<ModuleIds<'a>, Fault> {
    let Some((kind, of)) = word.split_once('=') else {
        return Err(Fault::Bad);
    };
    let number = words::number_of(of)?;
    match kind {
        "file" => Ok(map.modules_for_file(FileId(number))),
        "call" => Ok(map.inline_modules_for_macro_file(MacroCallId(number))),
        _ => Err(Fault::Bad),
    }
}

/// The modules that a file of their own or a macro call holds, by number.
pub fn held(stage: &Stage, words: &[&str], out: &mut String) -> Result<(), Fault> {
    let [at, by] = words else {
        return Err(Fault::Bad);
    };
    let asker = asker_at(stage, at)?;
    out.push_str(" ->")?;
    for id in modules_in(asker.map, by)? {
        write!(out, " {}", id.index)?;
    }
    Ok(())
}

fn written(alloc: Global, words: &[&str]) -> Result<Vec<RawVisibility>, Fault> {
    let mut raws = Vec::new(alloc);
    for word in words {
        if raws.push(words::written_visibility(word)?).is_err() {
            return Err(Fault::Memory);
        }
    }
    Ok(raws)
}

/// Who may see the fields that have these visibilities.
pub fn fields(alloc: Global, stage: &Stage, words: &[&str], out: &mut String) -> Result<(), Fault> {
    let [at, raws @ ..] = words else {
        return Err(Fault::Bad);
    };
    let asker = asker_at(stage, at)?;
    let raws = written(alloc, raws)?;
    let maps = DefMaps::new(WorldPart::all(asker.world), asker.map);
    let fields = maps.field_visibilities(alloc, asker.local, asker.at, raws.as_slice())?;
    out.push_str(" ->")?;
    for vis in &fields {
        write!(out, " {}", VisibilityText(*vis))?;
    }
    Ok(())
}
