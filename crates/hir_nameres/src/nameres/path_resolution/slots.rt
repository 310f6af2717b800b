//! Which slots a path reads.
//!
//! While a map is built, what a path means can change only where it looked: in a module of the map at a name, or in the
//! preludes at a name. As long as those slots hold what they held, it means the same and reads the same slots. Whoever has
//! looked up a path in vain need not look it up again before one of them changes.
ghost use Rattle.std.specs.Prelude.{◌≡◌, List, IfOk, option_copied};
ghost use Rattle.std.specs.Iterator.{YieldsFirstBy, item_count};
ghost use Rattle.hir_nameres.specs.DefMaps.{maps_of};
ghost use Rattle.hir_def_map_rules.specs.Overlay.{map_in};
ghost use Rattle.hir_def_map_rules.specs.Scoping.Asking.{local_of};
ghost use Rattle.hir_nameres.specs.Scoping.Query.{asking_of};
ghost use Rattle.hir_nameres.specs.Scoping.Slots.{before, further_slots, kept_in, module_among, prelude_module_of, slot_of, slots_from_crates, slots_from_module, slots_from_root, slots_of, with_prelude_slot, with_slot};
ghost use Rattle.hir_nameres.specs.declared.nameres.path_resolution.slots.Slot.{Slot};

use crate::def_maps::DefMaps;
use crate::nameres::path_resolution::first_segment::shadow_before;
use crate::nameres::path_resolution::query::Query;
use crate::nameres::path_resolution::start::is_import;
use crate::nameres::path_resolution::{BuiltinShadowMode, MacroSubNs, ResolveMode};
use crate::nameres::reads::crate_root;
use hir_base::ids::{ModuleDefId, ModuleId};
use hir_base::mod_path::{ModPath, PathKind};
use hir_base::name::Name;
use hir_def_map_rules::hir_scope::per_ns::TypesItem;
use hir_def_map_rules::local_def_map::LocalDefMap;
use std::alloc::AllocError;
use std::marker::Model;

/// Where a path looks for a name in the map that is built.
#[derive(Debug, PartialEq, Eq, PartialOrd, Ord, Drop)]
pub enum Slot {
    /// In a module, by its number: what the name stands for there, and the macro of the name in textual scope.
    Module(u32, Name),
    /// Among the crates that paths may begin with, and in the `macro_use` prelude.
    Preludes(Name),
}

/// A slot whose name is lent.
#[derive(Clone, Copy)]
pub enum SlotRef<'a> {
    Module(u32, &'a Name),
    Preludes(&'a Name),
}

impl SlotRef<'_> {
    /// The slot, with a name of its own; no text is copied.
    pub fn to_slot(&self) -> Result<Slot, AllocError>
        ensures value { IfOk result (λ slot. slot ≡ slot_of self.now) }
    {
        match *self {
            SlotRef::Module(at, name) => Ok(Slot::Module(at, name.clone()?)),
            SlotRef::Preludes(name) => Ok(Slot::Preludes(name.clone()?)),
        }
    }
}

/// The slots that a path reads, one after another; it takes no memory.
#[derive(Drop)]
pub struct PathSlots<'a> {
    maps: DefMaps<'a>,
    /// The module that asks.
    from: ModuleId,
    /// The slots of the first segment: in a module, in the prelude module, and in the preludes.
    scope: Option<SlotRef<'a>>,
    prelude: Option<SlotRef<'a>>,
    crates: Option<SlotRef<'a>>,
    /// The module of the map in which the next segment is looked up.
    at: Option<ModuleId>,
    /// The segments that are left.
    left: &'a [Name],
}

impl<'a> Model for PathSlots<'a> {
    ghost use Rattle.std.specs.Prelude.{List};
    ghost use Rattle.hir_nameres.specs.declared.nameres.path_resolution.slots.Slot.{Slot};
    ghost use Rattle.hir_nameres.specs.DefMaps.{maps_of};
    ghost use Rattle.hir_nameres.specs.Scoping.Slots.{before, further_slots};

    ghost Value = { List Slot };

    ghost view = { λ walk. before walk.scope (before walk.prelude (before walk.crates
        (further_slots (maps_of walk.maps) walk.maps.own.now.id walk.from walk.left.now walk.at))) };
}

impl<'a> DefMaps<'a> {
    /// A module, where it lies in the map that is built.
    fn kept_in_own(&self, module: ModuleId) -> Option<ModuleId>
        ensures value { result ≡ kept_in self.now.own.now.id «module» }
    {
        if module.map == self.own.id() {
            Some(module)
        } else {
            None
        }
    }

    /// The module of the map that is built that a type is, if it is one.
    fn module_among(&self, types: Option<TypesItem>) -> Option<ModuleId>
        ensures value { result ≡ module_among self.now.own.now.id types }
    {
        match types?.def {
            ModuleDefId::ModuleId(module) => self.kept_in_own(module),
            _ => None,
        }
    }

    /// The slot of a name in a module, where that lies in the map that is built.
    fn slot_in(&self, module: ModuleId, name: &'a Name) -> Option<SlotRef<'a>>
        ensures value { (slots : List Slot) → before result slots ≡ with_slot self.now.own.now.id «module» name.now slots }
    {
        if module.map == self.own.id() {
            Some(SlotRef::Module(module.index, name))
        } else {
            None
        }
    }

    /// The slot of a name in the prelude module of a module's map.
    fn slot_in_prelude(&self, from: ModuleId, name: &'a Name) -> Option<SlotRef<'a>>
        ensures value { (slots : List Slot) → before result slots
            ≡ with_prelude_slot self.now.own.now.id (prelude_module_of (map_in (maps_of self.now) from.map)) name.now slots }
    {
        match self.prelude(from.map) {
            Some((module, _)) => self.slot_in(module, name),
            None => None,
        }
    }

    /// The slots of segments that are looked up from a module of the map on, if there is one.
    fn further_slots(
        &self,
        from: ModuleId,
        segments: &'a [Name],
        at: Option<ModuleId>,
    ) -> PathSlots<'a>
        ensures value { result ≡ further_slots (maps_of self.now) self.now.own.now.id from segments.now at }
    {
        PathSlots {
            maps: *self,
            from,
            scope: None,
            prelude: None,
            crates: None,
            at,
            left: segments,
        }
    }

    /// The slots that a path reads which is asked from a module.
    ///
    /// Without a local map the extern prelude is empty.
    pub fn path_slots(
        &self,
        local: Option<&'a LocalDefMap>,
        mode: ResolveMode,
        at: ModuleId,
        path: &'a ModPath,
        shadow: BuiltinShadowMode,
        sub_ns: Option<MacroSubNs>,
    ) -> PathSlots<'a>
        ensures value { result ≡ slots_of (maps_of self.now)
            (record { local = local_of (option_copied local.entry); mode = mode; shadow = shadow; sub_ns = sub_ns })
            self.now.own.now.id at path.now.kind path.now.segments }
    {
        let query = Query {
            maps: *self,
            local,
            mode,
            shadow,
            sub_ns,
        };
        query.slots(at, path.kind(), path.segments())
    }
}

impl<'a> Query<'a> {
    /// A first segment in the root of the crate or among the crates, and the others.
    fn slots_from_root(&self, from: ModuleId, first: &'a Name, others: &'a [Name]) -> PathSlots<'a>
        ensures value { result ≡ slots_from_root (maps_of self.now.maps) (asking_of self.now) self.now.maps.own.now.id from first.now others.now }
    {
        let maps = self.maps;
        let names = self.name_in_crate_root_or_extern_prelude(from, first);
        PathSlots {
            maps,
            from,
            scope: maps.slot_in(crate_root(from.map.krate), first),
            prelude: None,
            crates: Some(SlotRef::Preludes(first)),
            at: maps.module_among(names.types),
            left: others,
        }
    }

    /// A first segment in the module and in the preludes, and the others.
    fn slots_from_module(
        &self,
        from: ModuleId,
        first: &'a Name,
        others: &'a [Name],
    ) -> PathSlots<'a>
        ensures value { result ≡ slots_from_module (maps_of self.now.maps) (asking_of self.now) self.now.maps.own.now.id from first.now others.now }
    {
        let maps = self.maps;
        let names = self.name_in_module(shadow_before(others, self.shadow), from, first);
        PathSlots {
            maps,
            from,
            scope: maps.slot_in(from, first),
            prelude: maps.slot_in_prelude(from, first),
            crates: Some(SlotRef::Preludes(first)),
            at: maps.module_among(names.types),
            left: others,
        }
    }

    /// A first segment among the crates alone, and the others.
    fn slots_from_crates(
        &self,
        from: ModuleId,
        first: &'a Name,
        others: &'a [Name],
    ) -> PathSlots<'a>
        ensures value { result ≡ slots_from_crates (maps_of self.now.maps) (asking_of self.now) self.now.maps.own.now.id from first.now others.now }
    {
        let maps = self.maps;
        let names = self.extern_name(first);
        PathSlots {
            maps,
            from,
            scope: None,
            prelude: None,
            crates: Some(SlotRef::Preludes(first)),
            at: maps.module_among(names.types),
            left: others,
        }
    }

    /// The slots that a path reads, its root and its segments apart.
    pub fn slots(&self, from: ModuleId, kind: PathKind, segments: &'a [Name]) -> PathSlots<'a>
        ensures value { result ≡ slots_of (maps_of self.now.maps) (asking_of self.now) self.now.maps.own.now.id from kind segments.now }
    {
        let maps = self.maps;
        match kind {
            PathKind::Crate => {
                let root = maps.kept_in_own(crate_root(from.map.krate));
                maps.further_slots(from, segments, root)
            }
            PathKind::DollarCrate(krate) => {
                let root = maps.kept_in_own(crate_root(krate));
                maps.further_slots(from, segments, root)
            }
            PathKind::Super(levels) => {
                let at = match maps.climb(levels, maps.nearest_non_block_module(from)) {
                    Some(module) => maps.kept_in_own(module),
                    None => None,
                };
                maps.further_slots(from, segments, at)
            }
            PathKind::Plain => match segments {
                [] => maps.further_slots(from, segments, None),
                [first, others @ ..] => {
                    if maps.is_in_edition_2015(from.map) && is_import(self.mode) {
                        self.slots_from_root(from, first, others)
                    } else {
                        self.slots_from_module(from, first, others)
                    }
                }
            },
            PathKind::Abs => match segments {
                [] => maps.further_slots(from, segments, None),
                [first, others @ ..] => {
                    if maps.is_in_edition_2015(from.map) {
                        self.slots_from_root(from, first, others)
                    } else {
                        self.slots_from_crates(from, first, others)
                    }
                }
            },
        }
    }
}

impl<'a> Iterator for PathSlots<'a> {
    type Item = SlotRef<'a>;

    ghost next_gives = { YieldsFirstBy slot_of (λ (left : List _). left) };

    ghost remaining = { item_count (λ (left : List _). left) };

    fn next(&mut self) -> Option<SlotRef<'a>> {
        if let Some(slot) = self.scope {
            self.scope = None;
            return Some(slot);
        }
        if let Some(slot) = self.prelude {
            self.prelude = None;
            return Some(slot);
        }
        if let Some(slot) = self.crates {
            self.crates = None;
            return Some(slot);
        }
        let [segment, others @ ..] = self.left else {
            return None;
        };
        let at = self.at?;
        let types = self.maps.seen_type(self.from, at, segment);
        self.at = self.maps.module_among(types);
        self.left = others;
        Some(SlotRef::Module(at.index, segment))
    }
}
