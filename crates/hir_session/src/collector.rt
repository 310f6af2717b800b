//! The collector, as sessions run it.
use hir_def_collector::collector::collect_defs;
use hir_item_tree::tree_id::TreeId;
use hir_session_machine::hir_session_core::hir_session_invalidation::sources::{
    CollectDefs, Sources,
};
use hir_session_machine::hir_session_core::hir_session_state::hir_collector_rules::collected::Collected;
use hir_session_machine::hir_session_core::hir_session_state::hir_collector_rules::start::{
    CollectError, Start,
};
use hir_session_machine::hir_session_core::hir_session_state::hir_def_map::world::World;
use hir_tables::Tables;
use std::alloc::Global;

/// What a session runs the import rules by.
pub struct Collector;

impl CollectDefs for Collector {
    fn collect_defs(
        alloc: Global,
        sources: &mut Sources<'_>,
        tables: &mut Tables,
        world: &World,
        start: Start,
        tree: TreeId,
    ) -> Result<Collected, CollectError> {
        collect_defs(alloc, sources, world, tables, start, tree, None)
    }
}
