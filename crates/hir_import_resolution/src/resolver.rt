//! Imports that are tried until they rest.
//!
//! Each import is tried at first. A try resolves its path, and registers the import at each slot that the path read; then it
//! binds what the path reaches, or records a glob. What is bound goes along globs at once, in a wave, and each slot that
//! changes queues what is registered there. So an import that isn't queued has read nothing that changed since, and to try
//! it again would do nothing: when the queue is empty, all imports rest.
ghost use Rattle.std.specs.Prelude.{◌≡◌, []};
ghost use Rattle.hir_nameres.specs.WorldParts.{part_of};
ghost use Rattle.hir_import_resolution.specs.Inner.State.{finished_by, queue_by, state_by, state_in};

pub(crate) mod bind;
mod lasting;
mod settle;
mod steps;
pub(crate) mod watch;

use crate::import_queue::ImportQueue;
use crate::imports::Imports;
use crate::rounds::Resting;
use crate::scopes::OpenScopes;
use hir_glob_imports::GlobImports;
use hir_import_rules::directive::ImportDirective;
use hir_import_rules::taken::Taken;
use hir_nameres::nameres::local_def_map::LocalDefMap;
use hir_nameres::nameres::path_resolution::slots::Slot;
use hir_nameres::world::part::WorldPart;
use hir_worklist::{Watchers, Worklist};
use std::alloc::Global;

/// The imports of a map, and what waits to be tried.
#[derive(Drop)]
pub struct Resolver<'a> {
    alloc: Global,
    /// What names stand for in the map that is built, and in finished maps.
    scopes: OpenScopes<'a>,
    local: LocalDefMap,
    imports: Vec<ImportDirective>,
    taken: Vec<Taken>,
    globs: GlobImports,
    count: u32,
    /// Whether finished maps don't refer to the map that is built.
    apart: bool,
    /// Whether what is found out lasts as the map grows.
    lasting: bool,
    /// The imports that are to be tried, by their places.
    worklist: Worklist,
    /// The imports by the slots that their last tries read.
    watchers: Watchers<Slot>,
    /// The slots that the last wave changed.
    changes: Vec<hir_glob_imports::Slot>,
    /// The slots that were changed since the imports were taken over, where what they read is watched.
    reported: Vec<Slot>,
}

impl<'a> Resolver<'a> {
    /// Imports, of which those are to be tried that are queued.
    pub fn new(
        alloc: Global,
        world: WorldPart<'a>,
        queue: ImportQueue,
        imports: Imports,
    ) -> Resolver<'a>
        ensures state { state_by result ≡ state_in imports }
        ensures globs { result.globs ≡ imports.globs }
        ensures finished { finished_by result ≡ part_of world.entry }
        ensures queue { queue_by result ≡ queue }
        ensures changes { result.changes.items ≡ [] }
        ensures reported { result.reported.items ≡ [] }
    {
        Resolver {
            alloc,
            scopes: OpenScopes {
                world,
                map: imports.map,
                globs: imports.from_glob_import,
            },
            local: imports.local,
            imports: imports.imports,
            taken: imports.taken,
            globs: imports.globs,
            count: imports.count,
            apart: queue.apart,
            lasting: queue.lasting,
            worklist: queue.worklist,
            watchers: queue.watchers,
            changes: Vec::new(alloc),
            reported: Vec::new(alloc),
        }
    }

    /// Where the imports stand, and the slots that the last wave changed. What is queued is given up.
    pub fn finish_wave(self) -> (Imports, Vec<hir_glob_imports::Slot>)
        ensures state { state_in result.0 ≡ state_by self.entry }
        ensures globs { result.0.globs ≡ self.entry.globs }
        ensures count { result.0.count ≡ self.entry.count }
        ensures changes { result.1 ≡ self.entry.changes }
    {
        let scopes = self.scopes;
        (
            Imports {
                map: scopes.map,
                local: self.local,
                from_glob_import: scopes.globs,
                imports: self.imports,
                taken: self.taken,
                globs: self.globs,
                count: self.count,
            },
            self.changes,
        )
    }

    /// Where the imports stand.
    pub fn finish(self) -> Resting
        ensures state { state_in result.imports ≡ state_by self.entry }
        ensures globs { result.imports.globs ≡ self.entry.globs }
        ensures queue { result.queue ≡ queue_by self.entry }
        ensures changed { result.changed ≡ self.entry.reported }
        ensures count { result.imports.count ≡ self.entry.count }
    {
        let scopes = self.scopes;
        Resting {
            imports: Imports {
                map: scopes.map,
                local: self.local,
                from_glob_import: scopes.globs,
                imports: self.imports,
                taken: self.taken,
                globs: self.globs,
                count: self.count,
            },
            queue: ImportQueue {
                apart: self.apart,
                lasting: self.lasting,
                worklist: self.worklist,
                watchers: self.watchers,
            },
            changed: self.reported,
        }
    }
}
