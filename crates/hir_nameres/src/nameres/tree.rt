//! Modules by their ids, what lies above them, and enums with their variants.
ghost use Rattle.std.specs.Prelude.{◌≡◌};
ghost use Rattle.hir_def_map_rules.specs.Ancestors.{leads_to_root, own_frame, parent_number, step_in};
ghost use Rattle.hir_def_map_rules.specs.References.{each_leads_to_root, has_its_variants, has_its_parents, is_parent_in};

use crate::nameres::DefMap;
use hir_base::ids::{MapId, ModuleId};

/// Whether a parent, if there is one, lies in the map of this id.
fn is_parent_in(id: MapId, parent: Option<ModuleId>) -> bool
    ensures value { result ≡ is_parent_in id parent }
{
    match parent {
        Some(parent) => parent.map == id,
        None => true,
    }
}

impl DefMap {
    /// The number of a module's parent, where that is a module of the map.
    fn parent_number(&self, at: u32) -> Option<u32>
        ensures value { result ≡ parent_number (own_frame self.now) at }
    {
        match self.parent_of(at) {
            Some(parent) if parent.map == self.id() => Some(parent.index),
            _ => None,
        }
    }

    /// Whether parents lead from a module to a root.
    fn leads_to_root(&self, at: u32) -> bool
        ensures value { result ≡ leads_to_root (own_frame self.now) at }
    {
        let mut now = at;
        let mut left = self.module_count();
        'up: while left > 0 {
            match self.parent_number(now) {
                Some(parent) => now = parent,
                None => return true,
            }
            left -= 1;
        }
        self.parent_number(now).is_none()
    }

    /// One step up in the map.
    pub fn step_up(&self, at: u32) -> Option<u32>
        ensures value { result ≡ step_in (own_frame self.now) at }
    {
        let parent = self.parent_number(at)?;
        if parent < at || self.leads_to_root(at) {
            Some(parent)
        } else {
            None
        }
    }

    /// Whether parents lead from each module to a root.
    pub fn each_leads_to_root(&self) -> bool
        ensures value { result ≡ each_leads_to_root self.now }
    {
        let mut left = self.module_count();
        'each: while left > 0 {
            left -= 1;
            if !self.leads_to_root(left) {
                return false;
            }
        }
        true
    }

    /// Whether each parent lies in the map itself.
    pub fn has_its_parents(&self) -> bool
        ensures value { result ≡ has_its_parents self.now }
    {
        let id = self.id();
        let mut left = self.modules().as_slice();
        'each: while let [module, others @ ..] = left {
            if !is_parent_in(id, module.parent()) {
                return false;
            }
            left = others;
        }
        true
    }
}

impl DefMap {
    /// Whether each enum has its own variants.
    pub fn has_its_variants(&self) -> bool
        ensures value { result ≡ has_its_variants self.now }
    {
        let mut left = self.enums.iter();
        'each: while let Some((id, variants)) = left.next() {
            if !variants.are_of(*id) {
                return false;
            }
        }
        true
    }
}
