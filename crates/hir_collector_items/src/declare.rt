//! Items that bind their names, modules aside.
ghost use Rattle.std.specs.Prelude.{◌≡◌, ◌≤◌, true, [], map, OnOk};
ghost use Rattle.hir_collector_state.specs.HirItemTree.Collected.{is_enabled};
ghost use Rattle.hir_collector_state.specs.HirItemTree.KeptForest.{leaf, function, structure, union_structure, constant, static_item, trait_item, type_alias};
ghost use Rattle.hir_collector_state.specs.HirNameres.WorldParts.{part_of};
ghost use Rattle.hir_collector_state.specs.HirCollectorRules.Keys.{Environment};
ghost use Rattle.hir_collector_state.specs.HirCollectorRules.State.{core_in, counted};
ghost use Rattle.hir_collector_state.specs.HirCollectorRules.ItemIds.{module_id};
ghost use Rattle.hir_collector_state.specs.HirCollectorRules.Items.{constructor_of, declared_struct, meet_of, own_visibility, type_declaration, value_declaration};
ghost use Rattle.hir_collector_state.specs.HirImportRules.Visibilities.{visibility_in};
ghost use Rattle.hir_collector_state.specs.HirCollectorRules.TreeReads.{head_of};
ghost use Rattle.hir_collector_state.specs.HirCollectorRules.Steps.{visit, with_declaration};
ghost use Rattle.hir_collector_state.specs.HirCollectorRules.Moves.{Handles};
ghost use Rattle.hir_collector_state.specs.Waiting.{IsNoted};

use crate::exports::{declare_exporting, export_at};
use hir_base::ids::{
    AdtId, ConstId, FunctionId, ItemLoc, ModuleDefId, ModuleId, StaticId, StructId, TraitId,
    TypeAliasId, UnionId,
};
use hir_base::name::Name;
use hir_collector_state::declare::declare;
use hir_collector_state::def_collector::DefCollector;
use hir_collector_state::hir_collector_rules::declaration::Declaration;
use hir_collector_state::hir_collector_rules::site::{ItemHead, Site};
use hir_collector_state::hir_collector_rules::start::{STEP_LIMIT, StepError};
use hir_collector_state::hir_import_growth::visibilities::lesser;
use hir_collector_state::hir_nameres::world::part::WorldPart;
use hir_collector_state::hir_scope::per_ns::{Item, PerNs};
use hir_collector_state::hir_scope::visibility::Visibility;
use hir_item_tree::kinds::Struct;
use hir_item_tree::raw_visibility::RawVisibility;
use hir_item_tree::shape::FieldsShape;

/// Declares what an item's name stands for as a type.
fn declare_type(
    run: &mut DefCollector,
    world: WorldPart<'_>,
    site: &Site,
    head: ItemHead<'_>,
    name: &Name,
    def: ModuleDefId,
) -> Result<(), StepError>
    ensures ok { OnOk result (core_in run.new ≡ counted (with_declaration (core_in run.old) site.now.home
        (type_declaration name.now def (own_visibility (part_of world.entry) (core_in run.old).local (core_in run.old).map site.now (head_of head.entry))))) }
    ensures noted { OnOk result (IsNoted run.old run.new) }
    ensures many { result ≡ Err StepError.TooMany → STEP_LIMIT ≤ (core_in run.old).count }
{
    let vis = run.visibility(world, site, head);
    let declaration = Declaration {
        name: name.clone()?,
        def,
        items: PerNs::types(def, vis, None),
    };
    declare(run, site.home, declaration)?;
    Ok(())
}

/// Declares what an item's name stands for as a value.
fn declare_value(
    run: &mut DefCollector,
    world: WorldPart<'_>,
    site: &Site,
    head: ItemHead<'_>,
    name: &Name,
    def: ModuleDefId,
) -> Result<(), StepError>
    ensures ok { OnOk result (core_in run.new ≡ counted (with_declaration (core_in run.old) site.now.home
        (value_declaration name.now def (own_visibility (part_of world.entry) (core_in run.old).local (core_in run.old).map site.now (head_of head.entry))))) }
    ensures noted { OnOk result (IsNoted run.old run.new) }
    ensures many { result ≡ Err StepError.TooMany → STEP_LIMIT ≤ (core_in run.old).count }
{
    let vis = run.visibility(world, site, head);
    let declaration = Declaration {
        name: name.clone()?,
        def,
        items: PerNs::values(def, vis, None),
    };
    declare(run, site.home, declaration)?;
    Ok(())
}

/// Declares a function, and the macro that it exports, if it exports one.
pub fn declare_function(
    run: &mut DefCollector,
    world: WorldPart<'_>,
    site: &Site,
    head: ItemHead<'_>,
    name: &Name,
) -> Result<(), StepError>
    requires enabled { is_enabled (head_of head).attributes ≡ true }
    ensures ok { OnOk result ((env : Environment) → Handles env (part_of world.entry) (core_in run.old) (core_in run.new) (visit site.now (leaf (head_of head.entry) (function name.now))) []) }
    ensures noted { OnOk result (IsNoted run.old run.new) }
    ensures many { result ≡ Err StepError.TooMany → STEP_LIMIT ≤ (core_in run.old).count }
{
    let id = FunctionId {
        loc: ItemLoc {
            container: run.container(site),
            file_id: site.tree.file,
            block: site.tree.block,
            id: head.id,
        },
    };
    let exported = export_at(run, site, head, name)?;
    let Some(export) = exported else {
        declare_value(run, world, site, head, name, ModuleDefId::FunctionId(id))?;
        return Ok(());
    };
    let vis = run.visibility(world, site, head);
    declare_exporting(run, site, head, name, id, vis, export)?;
    Ok(())
}

/// Declares a constant that has a name.
pub fn declare_const(
    run: &mut DefCollector,
    world: WorldPart<'_>,
    site: &Site,
    head: ItemHead<'_>,
    name: &Name,
) -> Result<(), StepError>
    requires enabled { is_enabled (head_of head).attributes ≡ true }
    ensures ok { OnOk result ((env : Environment) → Handles env (part_of world.entry) (core_in run.old) (core_in run.new) (visit site.now (leaf (head_of head.entry) (constant (Some name.now)))) []) }
    ensures noted { OnOk result (IsNoted run.old run.new) }
    ensures many { result ≡ Err StepError.TooMany → STEP_LIMIT ≤ (core_in run.old).count }
{
    let def = ModuleDefId::ConstId(ConstId {
        loc: ItemLoc {
            container: run.container(site),
            file_id: site.tree.file,
            block: site.tree.block,
            id: head.id,
        },
    });
    declare_value(run, world, site, head, name, def)?;
    Ok(())
}

/// Declares a static.
pub fn declare_static(
    run: &mut DefCollector,
    world: WorldPart<'_>,
    site: &Site,
    head: ItemHead<'_>,
    name: &Name,
) -> Result<(), StepError>
    requires enabled { is_enabled (head_of head).attributes ≡ true }
    ensures ok { OnOk result ((env : Environment) → Handles env (part_of world.entry) (core_in run.old) (core_in run.new) (visit site.now (leaf (head_of head.entry) (static_item name.now))) []) }
    ensures noted { OnOk result (IsNoted run.old run.new) }
    ensures many { result ≡ Err StepError.TooMany → STEP_LIMIT ≤ (core_in run.old).count }
{
    let def = ModuleDefId::StaticId(StaticId {
        loc: ItemLoc {
            container: run.container(site),
            file_id: site.tree.file,
            block: site.tree.block,
            id: head.id,
        },
    });
    declare_value(run, world, site, head, name, def)?;
    Ok(())
}

/// Declares a type alias.
pub fn declare_type_alias(
    run: &mut DefCollector,
    world: WorldPart<'_>,
    site: &Site,
    head: ItemHead<'_>,
    name: &Name,
) -> Result<(), StepError>
    requires enabled { is_enabled (head_of head).attributes ≡ true }
    ensures ok { OnOk result ((env : Environment) → Handles env (part_of world.entry) (core_in run.old) (core_in run.new) (visit site.now (leaf (head_of head.entry) (type_alias name.now))) []) }
    ensures noted { OnOk result (IsNoted run.old run.new) }
    ensures many { result ≡ Err StepError.TooMany → STEP_LIMIT ≤ (core_in run.old).count }
{
    let def = ModuleDefId::TypeAliasId(TypeAliasId {
        loc: ItemLoc {
            container: run.container(site),
            file_id: site.tree.file,
            block: site.tree.block,
            id: head.id,
        },
    });
    declare_type(run, world, site, head, name, def)?;
    Ok(())
}

/// Declares a trait.
pub fn declare_trait(
    run: &mut DefCollector,
    world: WorldPart<'_>,
    site: &Site,
    head: ItemHead<'_>,
    name: &Name,
) -> Result<(), StepError>
    requires enabled { is_enabled (head_of head).attributes ≡ true }
    ensures ok { OnOk result ((env : Environment) → Handles env (part_of world.entry) (core_in run.old) (core_in run.new) (visit site.now (leaf (head_of head.entry) (trait_item name.now))) []) }
    ensures noted { OnOk result (IsNoted run.old run.new) }
    ensures many { result ≡ Err StepError.TooMany → STEP_LIMIT ≤ (core_in run.old).count }
{
    let def = ModuleDefId::TraitId(TraitId {
        loc: ItemLoc {
            container: run.module_id(site.home),
            file_id: site.tree.file,
            block: site.tree.block,
            id: head.id,
        },
    });
    declare_type(run, world, site, head, name, def)?;
    Ok(())
}

/// Declares a union.
pub fn declare_union(
    run: &mut DefCollector,
    world: WorldPart<'_>,
    site: &Site,
    head: ItemHead<'_>,
    name: &Name,
) -> Result<(), StepError>
    requires enabled { is_enabled (head_of head).attributes ≡ true }
    ensures ok { OnOk result ((env : Environment) (fields : _) → Handles env (part_of world.entry) (core_in run.old) (core_in run.new) (visit site.now (leaf (head_of head.entry) (union_structure name.now fields))) []) }
    ensures noted { OnOk result (IsNoted run.old run.new) }
    ensures many { result ≡ Err StepError.TooMany → STEP_LIMIT ≤ (core_in run.old).count }
{
    let def = ModuleDefId::AdtId(AdtId::UnionId(UnionId {
        loc: ItemLoc {
            container: run.module_id(site.home),
            file_id: site.tree.file,
            block: site.tree.block,
            id: head.id,
        },
    }));
    declare_type(run, world, site, head, name, def)?;
    Ok(())
}

/// The meet of visibilities, if none of them are unrelated.
fn meet(
    run: &DefCollector,
    world: WorldPart<'_>,
    at: ModuleId,
    own: Visibility,
    others: &[RawVisibility],
) -> Option<Visibility>
    ensures value { result ≡ meet_of (part_of world.entry) (core_in run.now).map own
        (map (visibility_in (part_of world.entry) (core_in run.now).local (core_in run.now).map at) others.now) }
{
    let mut least = own;
    for other in others {
        least = lesser(run.map(), world, least, run.visibility_in(world, at, other))?;
    }
    Some(least)
}

/// The visibility of a struct's constructor, if its shape has one.
fn constructor(
    run: &DefCollector,
    world: WorldPart<'_>,
    at: ModuleId,
    own: Visibility,
    shape: FieldsShape,
    fields: &[RawVisibility],
) -> Option<Visibility>
    ensures value { result ≡ constructor_of (part_of world.entry) (core_in run.now).map own shape
        (map (visibility_in (part_of world.entry) (core_in run.now).local (core_in run.now).map at) fields.now) }
{
    match shape {
        FieldsShape::Record => None,
        FieldsShape::Tuple => match meet(run, world, at, own, fields) {
            Some(least) => Some(least),
            None => Some(own),
        },
        FieldsShape::Unit => Some(own),
    }
}

/// What a struct's name stands for: a type, and a value where there is a constructor.
fn struct_items(def: ModuleDefId, own: Visibility, constructor: Option<Visibility>) -> PerNs
    ensures value { result ≡ declared_struct def own constructor }
{
    let types = Some(Item {
        def,
        vis: own,
        import: None,
    });
    let values = match constructor {
        Some(vis) => Some(Item {
            def,
            vis,
            import: None,
        }),
        None => None,
    };
    PerNs {
        types,
        values,
        macros: None,
    }
}

/// Declares a struct: a type, and by its shape a value.
pub fn declare_struct(
    run: &mut DefCollector,
    world: WorldPart<'_>,
    site: &Site,
    head: ItemHead<'_>,
    item: Struct<'_>,
) -> Result<(), StepError>
    requires enabled { is_enabled (head_of head).attributes ≡ true }
    ensures ok { OnOk result ((env : Environment) → Handles env (part_of world.entry) (core_in run.old) (core_in run.new) (visit site.now (leaf (head_of head.entry) (structure item.entry.name.now item.entry.shape item.entry.fields.now))) []) }
    ensures noted { OnOk result (IsNoted run.old run.new) }
    ensures many { result ≡ Err StepError.TooMany → STEP_LIMIT ≤ (core_in run.old).count }
{
    let at = run.module_id(site.home);
    let def = ModuleDefId::AdtId(AdtId::StructId(StructId {
        loc: ItemLoc {
            container: at,
            file_id: site.tree.file,
            block: site.tree.block,
            id: head.id,
        },
    }));
    let own = run.visibility(world, site, head);
    let constructor = constructor(run, world, at, own, item.shape, item.fields);
    let declaration = Declaration {
        name: item.name.clone()?,
        def,
        items: struct_items(def, own, constructor),
    };
    declare(run, site.home, declaration)?;
    Ok(())
}
