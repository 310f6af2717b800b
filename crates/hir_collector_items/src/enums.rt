//! Enums, whose variants are asked for.
ghost use Rattle.std.specs.Prelude.{◌≡◌, ◌≤◌, true, [], OnOk, IfOk, option_map};
ghost use Rattle.hir_collector_state.specs.HirItemTree.Collected.{is_enabled};
ghost use Rattle.hir_collector_state.specs.HirItemTree.KeptForest.{leaf, enumeration};
ghost use Rattle.hir_collector_state.specs.HirNameres.WorldParts.{part_of};
ghost use Rattle.hir_collector_state.specs.HirCollectorRules.State.{core_in};
ghost use Rattle.hir_collector_state.specs.HirCollectorRules.Calls.{IsMeantAt};
ghost use Rattle.hir_collector_state.specs.HirCollectorRules.Enums.{variant_of, variants_by_name, variants_of};
ghost use Rattle.hir_collector_state.specs.HirCollectorRules.TreeReads.{head_of};
ghost use Rattle.hir_collector_state.specs.HirCollectorRules.Steps.{visit};
ghost use Rattle.hir_collector_state.specs.HirCollectorRules.Moves.{Handles, OnceGrown};
ghost use Rattle.hir_collector_state.specs.Waiting.{IsNoted};

use hir_base::ids::{AdtId, EnumId, EnumVariantId, ItemLoc, ModuleDefId};
use hir_base::name::Name;
use hir_collector_state::declare::declare;
use hir_collector_state::def_collector::DefCollector;
use hir_collector_state::hir_collector_rules::declaration::Declaration;
use hir_collector_state::hir_collector_rules::site::{ItemHead, Site};
use hir_collector_state::hir_collector_rules::source_database::SourceDatabase;
use hir_collector_state::hir_collector_rules::start::{STEP_LIMIT, StepError};
use hir_collector_state::hir_collector_start::sources::source_at;
use hir_collector_state::hir_nameres::nameres::enum_variants::{EnumVariant, EnumVariants};
use hir_collector_state::hir_nameres::world::part::WorldPart;
use hir_collector_state::hir_scope::per_ns::PerNs;
use hir_item_tree::side_lists::VariantItem;
use hir_item_tree::tree_id::TreeKey;
use hir_tables::Tables;
use std::alloc::{AllocError, Global};

/// A variant of an enum.
fn variant_of(id: EnumId, item: &VariantItem) -> EnumVariant
    ensures value { result ≡ variant_of id item.now }
{
    EnumVariant {
        id: EnumVariantId {
            parent: id,
            id: item.id,
        },
        shape: item.shape,
    }
}

/// Variants by name; of two with one name the later.
fn by_name(alloc: Global, id: EnumId, items: &[VariantItem]) -> Result<EnumVariants, AllocError>
    ensures value { IfOk result (λ variants. variants ≡ variants_by_name id items.now) }
{
    let mut variants = EnumVariants::new(alloc);
    for item in items {
        variants.insert(item.name.clone()?, variant_of(id, item))?;
    }
    Ok(variants)
}

/// The variants of an enum by name; none of one that isn't there.
fn variants_of(
    alloc: Global,
    id: EnumId,
    found: Option<&[VariantItem]>,
) -> Result<EnumVariants, AllocError>
    ensures value { IfOk result (λ variants. variants ≡ variants_of id (option_map (λ vs. vs.now) found.entry)) }
{
    match found {
        Some(items) => by_name(alloc, id, items),
        None => Ok(EnumVariants::new(alloc)),
    }
}

/// Declares an enum, and keeps its variants, which it asks for.
///
/// After rust-analyzer's `EnumVariants`.
pub fn declare_enum<D: SourceDatabase>(
    run: &mut DefCollector,
    db: &mut D,
    world: WorldPart<'_>,
    locations: &Tables,
    site: &Site,
    head: ItemHead<'_>,
    name: &Name,
) -> Result<(), StepError>
    requires enabled { is_enabled (head_of head).attributes ≡ true }
    requires meant { IsMeantAt locations.now site.now }
    ensures same { D.workspace db.new ≡ D.workspace db.old }
    ensures ok { OnOk result (OnceGrown locations.now (D.workspace db.old)
        (λ env. Handles env (part_of world.entry) (core_in run.old) (core_in run.new) (visit site.now (leaf (head_of head.entry) (enumeration name.now))) [])) }
    ensures noted { OnOk result (IsNoted run.old run.new) }
    ensures many { result ≡ Err StepError.TooMany → STEP_LIMIT ≤ (core_in run.old).count }
{
    let id = EnumId {
        loc: ItemLoc {
            container: run.module_id(site.home),
            file_id: site.tree.file,
            block: site.tree.block,
            id: head.id,
        },
    };
    let vis = run.visibility(world, site, head);
    let key = TreeKey {
        krate: run.map().id().krate,
        id: site.tree,
    };
    let source = source_at(run.allocator(), db, locations, key)?;
    let variants = variants_of(run.allocator(), id, source.variants(head.id))?;
    run.add_enum(id, variants)?;
    let def = ModuleDefId::AdtId(AdtId::EnumId(id));
    let declaration = Declaration {
        name: name.clone()?,
        def,
        items: PerNs::types(def, vis, None),
    };
    declare(run, site.home, declaration)?;
    Ok(())
}
