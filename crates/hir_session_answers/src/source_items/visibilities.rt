//! From where bindings are visible.
ghost use Rattle.std.specs.Prelude.{◌≡◌, IfOk};
ghost use Rattle.hir_session_state.specs.HirNameres.DefMaps.{maps_of};
ghost use Rattle.hir_session_answers.specs.SourceItems.{is_explicit, visibility_source};

use super::definitions::module_at;
use hir_item_tree::raw_visibility::VisibilityExplicitness;
use hir_session_state::hir_def_map::def_maps::DefMaps;
use hir_session_state::hir_messages::answer::AnswerVisibility;
use hir_session_state::hir_scope::visibility::Visibility;
use hir_tables::Tables;
use std::alloc::{AllocError, Global};

fn is_written(explicitness: VisibilityExplicitness) -> bool
    ensures value { result ≡ is_explicit explicitness }
{
    match explicitness {
        VisibilityExplicitness::Explicit => true,
        VisibilityExplicitness::Implicit => false,
    }
}

/// From where a binding is visible.
pub fn visibility_at(
    alloc: Global,
    tables: &Tables,
    maps: &DefMaps<'_>,
    visibility: Visibility,
) -> Result<Option<AnswerVisibility>, AllocError>
    ensures value { IfOk result (λ o. o ≡ visibility_source tables.now (maps_of maps.now) visibility) }
{
    match visibility {
        Visibility::Public => Ok(Some(AnswerVisibility::Public)),
        Visibility::PubCrate(krate) => Ok(Some(AnswerVisibility::Crate(krate))),
        Visibility::Module(m, written) => match module_at(alloc, tables, maps, m)? {
            Some(module) => Ok(Some(AnswerVisibility::Module {
                explicit: is_written(written),
                module,
            })),
            None => Ok(None),
        },
    }
}
