//! What a crate's top says, where modules are written, what is in preludes and enums, and whether worlds agree.
use crate::asks::asker_at;
use crate::build::choice;
use crate::shows::{MapText, ModuleText, VisibilityText};
use crate::stage::{Draft, Stage};
use crate::words;
use crate::words::Fault;
use hir_base::ast_id::HirFileId;
use hir_base::ids::{MapId, ModuleId};
use hir_def_map::world::look_up::{block_def_map, crate_def_map};
use hir_def_map::{
    DefMap, DefMapCrateData, DefMaps, ModuleData, ModuleOrigin, ModuleSource, ModulesMap, WorldPart,
};
use hir_item_tree::raw_visibility::{RawVisibility, VisibilityExplicitness};
use hir_item_tree::shape::FieldsShape;
use std::alloc::Global;
use std::fmt::Write;

fn say_named(alloc: Global, top: &mut DefMapCrateData, key: &str, of: &str) -> Result<(), Fault> {
    match key {
        "limit" => top.set_recursion_limit(words::number_of(of)?),
        "feature" => top.add_feature(words::name_of(alloc, of)?)?,
        "tool" => top.register_tool(words::name_of(alloc, of)?)?,
        _ => return Err(Fault::Bad),
    }
    Ok(())
}

/// Has the top of the open map's crate say something.
pub fn say(alloc: Global, draft: &mut Draft, words: &[&str]) -> Result<(), Fault> {
    let [word] = words else {
        return Err(Fault::Bad);
    };
    let top = draft.map.crate_data_mut();
    if let Some((key, of)) = word.split_once('=') {
        return say_named(alloc, top, key, of);
    }
    match *word {
        "no_std" => top.set_no_std(true),
        "no_core" => top.set_no_core(true),
        "coherence" => top.set_rustc_coherence_is_core(true),
        _ => return Err(Fault::Bad),
    }
    Ok(())
}

/// What is said without names.
fn write_flags(map: &DefMap, out: &mut String) -> Result<(), Fault> {
    if map.is_no_std() {
        out.push_str(", no std")?;
    }
    if map.is_no_core() {
        out.push_str(", no core")?;
    }
    if map.is_rustc_coherence_is_core() {
        out.push_str(", coherence is core's")?;
    }
    Ok(())
}

fn write_names(map: &DefMap, out: &mut String) -> Result<(), Fault> {
    for name in map.features() {
        let name = name.as_str();
        write!(out, ", feature {name}")?;
    }
    for name in map.registered_tools() {
        let name = name.as_str();
        write!(out, ", tool {name}")?;
    }
    Ok(())
}

/// What the top of a map's crate says.
pub fn top(stage: &Stage, words: &[&str], out: &mut String) -> Result<(), Fault> {
    let [at] = words else {
        return Err(Fault::Bad);
    };
    let map = asker_at(stage, at)?.map;
    let limit = map.recursion_limit();
    write!(out, " -> limit {limit}")?;
    write_flags(map, out)?;
    write_names(map, out)
}

/// The crate of a map and its root, and the block and the root of the map.
pub fn roots(stage: &Stage, words: &[&str], out: &mut String) -> Result<(), Fault> {
    let [at] = words else {
        return Err(Fault::Bad);
    };
    let map = asker_at(stage, at)?.map;
    let krate = map.krate().0;
    write!(out, " -> crate {krate} {}", ModuleText(map.crate_root()))?;
    match map.block_id() {
        Some(block) => write!(out, ", block {}", block.0)?,
        None => out.push_str(", no block")?,
    }
    write!(out, " {}", ModuleText(map.root_module_id()))?;
    match map.parent() {
        Some(holder) => write!(out, ", held by {}", ModuleText(holder))?,
        None => (),
    }
    Ok(())
}

fn write_file(file: HirFileId, out: &mut String) -> Result<(), Fault> {
    match file {
        HirFileId::File(file) => write!(out, " file {}", file.file_id.0)?,
        HirFileId::Macro(call) => write!(out, " call {}", call.0)?,
    }
    Ok(())
}

fn write_origin(origin: ModuleOrigin, out: &mut String) -> Result<(), Fault> {
    match origin.declaration() {
        Some(item) => write!(out, " -> declared by {}", item.id.hash)?,
        None => out.push_str(" -> not declared")?,
    }
    if let Some(file) = origin.file_id() {
        write!(out, ", alone in file {}", file.file_id.0)?;
    }
    if origin.is_inline() {
        out.push_str(", in place")?;
    }
    Ok(())
}

/// What contents are written in, by its kind and, where it is no whole file, its node.
fn write_source(source: ModuleSource, out: &mut String) -> Result<(), Fault> {
    match (source, source.node()) {
        (ModuleSource::SourceFile(_), None) => out.push_str(" as a whole")?,
        (ModuleSource::Module(_), Some(node)) => write!(out, " in module {}", node.hash)?,
        (ModuleSource::BlockExpr(_), Some(node)) => write!(out, " in block {}", node.hash)?,
        _ => return Err(Fault::Bad),
    }
    Ok(())
}

/// What a module's contents are written in, and where that is.
fn write_contents(module: &ModuleData, out: &mut String) -> Result<(), Fault> {
    out.push_str(", contents in")?;
    write_file(module.definition_source_file_id(), out)?;
    let source = module.definition_source();
    if source.file_id != module.definition_source_file_id() {
        return Err(Fault::Bad);
    }
    write_source(source.value, out)
}

/// Where one of the modules of a map is written, and how many there are.
fn write_written(modules: &ModulesMap, at: ModuleId, out: &mut String) -> Result<(), Fault> {
    if !modules.contains(at) {
        return Err(Fault::Bad);
    }
    let module = &modules[at];
    write_origin(module.origin(), out)?;
    write_contents(module, out)?;
    if module.declaration_source() != module.origin().declaration() {
        return Err(Fault::Bad);
    }
    write!(out, "; of {} modules", modules.len())?;
    Ok(())
}

/// Where a module is written.
pub fn written(stage: &Stage, words: &[&str], out: &mut String) -> Result<(), Fault> {
    let [at] = words else {
        return Err(Fault::Bad);
    };
    let asker = asker_at(stage, at)?;
    write_written(asker.map.modules(), asker.at, out)
}

/// Gives a module of the open map a child by a further name.
pub fn child(alloc: Global, draft: &mut Draft, words: &[&str]) -> Result<(), Fault> {
    let [at, name, of] = words else {
        return Err(Fault::Bad);
    };
    let at = words::module_id(at)?;
    let name = words::name_of(alloc, name)?;
    let of = words::module_id(of)?;
    match draft.map.modules_mut().get_mut(at.index as usize) {
        Some(module) => module.add_child(name, of)?,
        None => return Err(Fault::Bad),
    }
    Ok(())
}

/// The modules in a module, by name.
pub fn children(stage: &Stage, words: &[&str], out: &mut String) -> Result<(), Fault> {
    let [at] = words else {
        return Err(Fault::Bad);
    };
    let asker = asker_at(stage, at)?;
    if !asker.map.contains(asker.at) {
        return Err(Fault::Bad);
    }
    out.push_str(" ->")?;
    for (name, id) in asker.map[asker.at].children() {
        let name = name.as_str();
        write!(out, " {name}={}", ModuleText(*id))?;
    }
    Ok(())
}

/// What each path of a map may begin with.
pub fn preludes(stage: &Stage, words: &[&str], out: &mut String) -> Result<(), Fault> {
    let [at] = words else {
        return Err(Fault::Bad);
    };
    let asker = asker_at(stage, at)?;
    out.push_str(" -> macros")?;
    for (name, _) in asker.map.macro_use_prelude() {
        let name = name.as_str();
        write!(out, " {name}")?;
    }
    if let Some((module, _)) = asker.map.prelude() {
        write!(out, ", prelude {}", ModuleText(module))?;
    }
    if let Some(local) = asker.local {
        out.push_str(", crates")?;
        for (name, _) in local.extern_prelude() {
            let name = name.as_str();
            write!(out, " {name}")?;
        }
    }
    Ok(())
}

fn shape_text(shape: FieldsShape) -> &'static str {
    match shape {
        FieldsShape::Record => "record",
        FieldsShape::Tuple => "tuple",
        FieldsShape::Unit => "unit",
    }
}

/// The variants of an enum, by name.
pub fn variants_of(stage: &Stage, words: &[&str], out: &mut String) -> Result<(), Fault> {
    let [at, id] = words else {
        return Err(Fault::Bad);
    };
    let asker = asker_at(stage, at)?;
    let id = choice(asker.at, words::node_of(id)?);
    let Some(variants) = asker.map.enum_variants(id) else {
        out.push_str(" -> none")?;
        return Ok(());
    };
    out.push_str(" ->")?;
    for (name, variant) in variants.iter() {
        let name = name.as_str();
        let shape = shape_text(variant.shape);
        write!(out, " {name} {shape}")?;
    }
    Ok(())
}

/// A visibility as it is written; `in:a::b` is that of a path.
fn raw_of(alloc: Global, word: &str) -> Result<RawVisibility, Fault> {
    match word.split_once(':') {
        Some(("in", path)) => Ok(RawVisibility::Module(
            words::path_of(alloc, path)?,
            VisibilityExplicitness::Explicit,
        )),
        _ => words::written_visibility(word),
    }
}

/// Who may see an item with a visibility that is written there: of a module, or of a trait or an impl.
pub fn means(alloc: Global, stage: &Stage, words: &[&str], out: &mut String) -> Result<(), Fault> {
    let [at, raw] = words else {
        return Err(Fault::Bad);
    };
    let asker = asker_at(stage, at)?;
    let raw = raw_of(alloc, raw)?;
    let maps = DefMaps::new(WorldPart::all(asker.world), asker.map);
    let of_item = maps.visibility_from_ast(asker.local, asker.at, &raw);
    let of_impl = maps.assoc_visibility(asker.local, asker.at, None, &raw);
    write!(
        out,
        " -> {}, in an impl {}",
        VisibilityText(of_item),
        VisibilityText(of_impl)
    )?;
    Ok(())
}

/// Who may see an item of a trait that has this visibility, whatever is written at the item.
pub fn in_trait(
    alloc: Global,
    stage: &Stage,
    words: &[&str],
    out: &mut String,
) -> Result<(), Fault> {
    let [at, of_trait, raw] = words else {
        return Err(Fault::Bad);
    };
    let asker = asker_at(stage, at)?;
    let of_trait = raw_of(alloc, of_trait)?;
    let raw = raw_of(alloc, raw)?;
    let maps = DefMaps::new(WorldPart::all(asker.world), asker.map);
    let vis = maps.assoc_visibility(asker.local, asker.at, Some(&of_trait), &raw);
    write!(out, " -> {}", VisibilityText(vis))?;
    Ok(())
}

/// Whether the map of a crate or of a block is found.
fn is_found(stage: &Stage, id: MapId) -> bool {
    match id.block {
        Some(_) => block_def_map(&stage.world, id).is_some(),
        None => crate_def_map(&stage.world, id.krate).is_some(),
    }
}

/// Which of these maps are found, and whether the world that was put aside has equal ones or none there.
pub fn agrees(alloc: Global, stage: &Stage, words: &[&str], out: &mut String) -> Result<(), Fault> {
    let mut ids = Vec::new(alloc);
    out.push_str(" ->")?;
    for word in words {
        let id = words::map_id(word)?;
        if is_found(stage, id) {
            write!(out, " {}", MapText(id))?;
        }
        if ids.push(id).is_err() {
            return Err(Fault::Memory);
        }
    }
    out.push_str(if stage.world.agrees(&stage.aside, ids.as_slice()) {
        ", agree"
    } else {
        ", differ"
    })?;
    Ok(())
}
