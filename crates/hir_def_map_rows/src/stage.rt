//! The maps of a case.
use hir_base::ids::{Crate, MapId, ModuleId};
use hir_def_map::{DefMap, LocalDefMap, World};
use hir_scope::glob_imports::PerNsGlobImports;
use std::alloc::Global;

/// A map that is being built, and the crates that its paths may begin with.
#[derive(Drop)]
pub struct Draft {
    pub map: DefMap,
    pub local: LocalDefMap,
    pub globs: PerNsGlobImports,
}

/// The finished maps, those of the world that was put aside, and the open one.
#[derive(Drop)]
pub struct Stage {
    pub world: World,
    pub aside: World,
    pub draft: Option<Draft>,
}

/// A module that asks, its map and the crates that its paths may begin with.
#[derive(Clone, Copy)]
pub struct Asker<'a> {
    pub world: &'a World,
    pub map: &'a DefMap,
    pub local: Option<&'a LocalDefMap>,
    pub at: ModuleId,
}

impl Stage {
    pub fn new(alloc: Global) -> Stage {
        Stage {
            world: World::new(alloc),
            aside: World::new(alloc),
            draft: None,
        }
    }

    /// The open map if it has this id, or else the finished one.
    fn map(&self, id: MapId) -> Option<&DefMap> {
        match &self.draft {
            Some(draft) if draft.map.id() == id => Some(&draft.map),
            _ => self.world.map(id),
        }
    }

    /// The crates that the paths of a crate may begin with.
    fn local(&self, krate: Crate) -> Option<&LocalDefMap> {
        let id = MapId::of_crate(krate);
        match &self.draft {
            Some(draft) if draft.map.id() == id => Some(&draft.local),
            _ => self.world.local(id),
        }
    }

    pub fn asker(&self, at: ModuleId) -> Option<Asker<'_>> {
        match self.map(at.map) {
            Some(map) => Some(Asker {
                world: &self.world,
                map,
                local: self.local(at.map.krate),
                at,
            }),
            None => None,
        }
    }
}
