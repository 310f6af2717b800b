//! A module tree with a grandchild.
ghost use Rattle.std.specs.Prelude.{◌≡◌};
ghost use Rattle.std.proofs.Common.{ap};
ghost use Rattle.hir_ids.specs.declared.ids.MapId.{MapId};
ghost use Rattle.hir_scope_tests.specs.SmallTree.{parent_at, holder_at, above, holders, above_unfolds, holders_unfold, all_in_crate};

use hir_base::ids::{MapId, ModuleId};
use hir_scope::module_tree::ModuleTree;

/// A tree in which module 1 of a crate holds module 3 and all blocks, and each other module is a child of its root.
#[derive(Clone, Copy)]
pub struct SmallTree;

impl ModuleTree for SmallTree {
    ghost parent_of = { λ t m. parent_at m.map.krate m.map.block m.index };

    ghost holder_of = { λ t m. holder_at m.map.krate m.map.block };

    ghost above = { λ t. above };

    ghost holders = { λ t. holders };

    ghost above_step = { λ t m. above_unfolds m.map.krate m.map.block m.index };

    ghost holders_step = { λ t m. holders_unfold m.map.krate m.map.block };

    ghost same_holder = { λ t m n same. ap (λ (map : MapId). holder_at map.krate map.block) same };

    ghost one_crate = { λ t m. all_in_crate m.map.krate m.map.block m.index };

    fn parent(&self, of: ModuleId) -> Option<ModuleId> {
        let index = match of.index {
            0 => return None,
            3 => 1,
            _ => 0,
        };
        Some(ModuleId { map: of.map, index })
    }

    fn holder(&self, of: ModuleId) -> Option<ModuleId> {
        match of.map.block {
            Some(_) => Some(ModuleId {
                map: MapId {
                    krate: of.map.krate,
                    block: None,
                },
                index: 1,
            }),
            None => None,
        }
    }
}
