//! Edges by the module at one of their ends.
ghost use Rattle.std.specs.Prelude.{◌≡◌, ℕ, [], OnOk, Contains};
ghost use Rattle.hir_glob_imports.specs.Inner.{edges_at};

use std::alloc::{AllocError, Global};
use std::collections::BTreeMap;

/// By the number of a module, the numbers of edges.
#[derive(Drop)]
pub(crate) struct EdgesByModule {
    lists: BTreeMap<u32, Vec<usize>>,
    alloc: Global,
}

impl EdgesByModule {
    pub(crate) fn new(alloc: Global) -> EdgesByModule {
        EdgesByModule {
            lists: BTreeMap::new(alloc),
            alloc,
        }
    }

    /// The edges of a module, in the order in which they were added.
    pub(crate) fn at(&self, at: u32) -> &[usize]
        ensures value { result.now ≡ edges_at self.now at }
    {
        match self.lists.get(&at) {
            Some(list) => list.as_slice(),
            None => &[],
        }
    }

    pub(crate) fn add(&mut self, at: u32, edge: usize) -> Result<(), AllocError>
        ensures added { OnOk result (Contains (edges_at self.new at) edge) }
        ensures kept { (of other : ℕ) → Contains (edges_at self.old of) other → Contains (edges_at self.new of) other }
    {
        match self.lists.get_mut(&at) {
            Some(list) => {
                list.push(edge)?;
                Ok(())
            }
            None => self.add_first(at, edge),
        }
    }

    fn add_first(&mut self, at: u32, edge: usize) -> Result<(), AllocError>
        requires absent { edges_at self.old at ≡ [] }
        ensures added { OnOk result (Contains (edges_at self.new at) edge) }
        ensures kept { (of other : ℕ) → Contains (edges_at self.old of) other → Contains (edges_at self.new of) other }
    {
        let mut list = Vec::new(self.alloc);
        list.push(edge)?;
        self.lists.insert(at, list)?;
        Ok(())
    }
}
