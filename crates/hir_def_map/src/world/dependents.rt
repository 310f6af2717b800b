//! Which finished maps name a map.
ghost use Rattle.std.specs.Prelude.{◌≡◌, ◌∷◌, [], IfSome, IfNone, OnOk, OnErr, true, false};
ghost use Rattle.hir_nameres.specs.HirIds.declared.ids.MapId.{MapId};
ghost use Rattle.hir_def_map.specs.Inner.Dependents.{is_dependent, Enters, IsSame, IsSameBut, Leaves};

use hir_base::ids::MapId;
use std::alloc::{AllocError, Global};
use std::collections::{BTreeMap, BTreeSet};

/// By the id of a map that is named, the ids of those that name it.
#[derive(Drop)]
pub struct Dependents {
    ids: BTreeMap<MapId, BTreeSet<MapId>>,
    alloc: Global,
}

impl Dependents {
    /// None.
    pub(crate) fn new(alloc: Global) -> Dependents
        ensures none { (on id : MapId) → is_dependent result on id ≡ false }
    {
        Dependents {
            ids: BTreeMap::new(alloc),
            alloc,
        }
    }

    fn add_first(&mut self, on: MapId, id: MapId) -> Result<(), AllocError>
        requires absent { (k : MapId) → is_dependent self.old on k ≡ false }
        ensures ok { OnOk result (Enters self.old self.new (on ∷ []) id) }
        ensures err { OnErr result (IsSame self.old self.new) }
    {
        let mut ids = BTreeSet::new(self.alloc);
        ids.insert(id)?;
        self.ids.insert(on, ids)?;
        Ok(())
    }

    fn add(&mut self, on: MapId, id: MapId) -> Result<(), AllocError>
        ensures ok { OnOk result (Enters self.old self.new (on ∷ []) id) }
        ensures err { OnErr result (IsSame self.old self.new) }
    {
        match self.ids.get_mut(&on) {
            Some(ids) => {
                ids.insert(id)?;
                Ok(())
            }
            None => self.add_first(on, id),
        }
    }

    fn remove(&mut self, on: MapId, id: MapId)
        ensures left { Leaves self.old self.new (on ∷ []) id }
    {
        let Some(ids) = self.ids.get_mut(&on) else {
            return;
        };
        ids.remove(&id);
        if ids.is_empty() {
            self.ids.remove(&on);
        }
    }

    fn enter_each(&mut self, named: &BTreeSet<MapId>, id: MapId) -> Result<(), AllocError>
        ensures ok { OnOk result (Enters self.old self.new named.now.keys id) }
        ensures others { IsSameBut self.old self.new named.now.keys id }
    {
        let mut left = named.iter();
        'next: while let Some(on) = left.next() {
            self.add(*on, id)?;
        }
        Ok(())
    }

    /// Takes a map out of the dependents of those that it names.
    pub(crate) fn leave(&mut self, named: &BTreeSet<MapId>, id: MapId)
        ensures left { Leaves self.old self.new named.now.keys id }
    {
        let mut left = named.iter();
        'next: while let Some(on) = left.next() {
            self.remove(*on, id);
        }
    }

    /// Enters a map, which depends on none yet, among the dependents of those that it names.
    pub(crate) fn enter(&mut self, named: &BTreeSet<MapId>, id: MapId) -> Result<(), AllocError>
        requires fresh { (on : MapId) → is_dependent self.old on id ≡ false }
        ensures ok { OnOk result (Enters self.old self.new named.now.keys id) }
        ensures err { OnErr result (IsSame self.old self.new) }
    {
        match self.enter_each(named, id) {
            Ok(()) => Ok(()),
            Err(refused) => {
                self.leave(named, id);
                Err(refused)
            }
        }
    }

    /// A map that depends on another one, where there is any.
    pub(crate) fn first(&self, on: MapId) -> Option<MapId>
        ensures some { IfSome result (λ id. is_dependent self.now on id ≡ true) }
        ensures none { IfNone result ((id : MapId) → is_dependent self.now on id ≡ false) }
    {
        match self.ids.get(&on) {
            Some(ids) => ids.first().copied(),
            None => None,
        }
    }
}
