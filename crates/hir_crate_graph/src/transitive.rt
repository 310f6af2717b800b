//! The transitive dependencies of each crate.
ghost use Rattle.std.specs.Prelude.{◌≡◌, ℕ, ◌<◌, ◌^◌, [], List, length, map, take, true, OnOk, OnErr, IfOk, option_map, slice_get};
ghost use Rattle.hir_ids.specs.Refusal.{Gives};
ghost use Rattle.hir_ids.specs.declared.ids.Crate.{Crate};
ghost use Rattle.hir_crate_graph.specs.declared.transitive.CrateGraphError.TheVariants.{Memory};
ghost use Rattle.hir_crate_graph.specs.CrateSet.{Gains, IsAscending};
ghost use Rattle.hir_crate_graph.specs.Dependencies.{has_late, AgreeBelow, AreTransitive};
ghost use Rattle.hir_crate_graph.specs.Graph.{IsMemory, Adds, comes_by, IsUnionOf, transitive_of, verdict_of_push};

use crate::crate_set::CrateSet;
use hir_ids::ids::Crate;
use std::alloc::{AllocError, AllocFailed, Global};
use std::marker::Model;
use std::rc::Rc;
use thiserror::Error;

/// Why a crate isn't taken, in the order in which it is looked for.
#[derive(Clone, Copy, Debug, PartialEq, Eq, Error)]
pub enum CrateGraphError {
    /// This crate has a dependency that doesn't come before it.
    #[error("a dependency of {0:?} doesn't come before it")]
    DependencyOrder(Crate),
    #[error("out of memory")]
    Memory,
}

impl From<AllocError> for CrateGraphError {
    ghost from_gives = { λ _ e. e ≡ Memory };

    fn from(_: AllocError) -> Self {
        CrateGraphError::Memory
    }
}

impl<T: Drop> From<AllocFailed<T>> for CrateGraphError {
    ghost from_gives = { λ _ e. e ≡ Memory };

    fn from(_: AllocFailed<T>) -> Self {
        CrateGraphError::Memory
    }
}

/// Whether a dependency doesn't come before the crate of this number.
fn has_late(k: usize, dependencies: &[Crate]) -> bool
    ensures value { result ≡ has_late k dependencies.now }
    ensures fits { result ≡ true → k < 2 ^ 32 }
{
    for krate in dependencies {
        if k <= krate.0 as usize {
            return true;
        }
    }
    false
}

/// The transitive dependencies of each crate by number.
#[derive(Drop)]
pub struct TransitiveDependencies {
    sets: Vec<Rc<CrateSet>>,
}

impl Model for TransitiveDependencies {
    ghost use Rattle.std.specs.Prelude.{List, map};
    ghost use Rattle.hir_ids.specs.declared.ids.Crate.{Crate};

    ghost Value = { List (List Crate) };

    ghost view = { λ t. map (λ set. set.value) t.sets.items };
}

impl TransitiveDependencies {
    /// Those of no crates.
    pub fn new(alloc: Global) -> TransitiveDependencies
        ensures value { result ≡ [] }
    {
        TransitiveDependencies {
            sets: Vec::new(alloc),
        }
    }

    /// Those of crates with these direct dependencies, by number.
    pub fn of(
        alloc: Global,
        direct: &[Vec<Crate>],
    ) -> Result<TransitiveDependencies, CrateGraphError>
        ensures answer { Gives IsMemory result (transitive_of (map (λ crates. crates.items) direct.now)) }
    {
        let mut transitive = TransitiveDependencies::new(alloc);
        for crates in direct {
            if let Err(error) = transitive.push(crates.as_slice()) {
                return Err(error);
            }
        }
        Ok(transitive)
    }

    /// Takes the next crate, with its direct dependencies.
    pub fn push(&mut self, dependencies: &[Crate]) -> Result<(), CrateGraphError>
        ensures answer { Gives IsMemory result (verdict_of_push self.old dependencies.now) }
        ensures added { OnOk result (Adds self.old self.new dependencies.now) }
        ensures transitive { (direct : ℕ → List Crate) → AreTransitive direct self.old → direct (length self.old) ≡ dependencies.now
            → OnOk result (AreTransitive direct self.new) }
        ensures err { OnErr result (self.new ≡ self.old) }
    {
        let count = self.sets.len();
        if has_late(count, dependencies) {
            return Err(CrateGraphError::DependencyOrder(Crate(count as u32)));
        }
        let alloc = *self.sets.allocator();
        let set = self.union_of(alloc, dependencies)?;
        self.sets.push(Rc::new(alloc, set)?)?;
        Ok(())
    }

    /// Adds a crate, and those on which it depends.
    fn add(&self, set: &mut CrateSet, krate: Crate) -> Result<(), AllocError>
        ensures ok { OnOk result (Gains set.old set.new (comes_by self.now krate)) }
        ensures ascending { IsAscending set.new }
    {
        set.insert(krate)?;
        match self.sets.get(krate.0 as usize) {
            Some(others) => set.union_with(others),
            None => Ok(()),
        }
    }

    /// These crates, and those on which they depend.
    fn union_of(&self, alloc: Global, dependencies: &[Crate]) -> Result<CrateSet, AllocError>
        ensures ok { IfOk result (IsUnionOf self.now dependencies.now) }
    {
        let mut set = CrateSet::new(alloc);
        for krate in dependencies {
            self.add(&mut set, *krate)?;
        }
        Ok(set)
    }

    /// The transitive dependencies of a crate, which all who ask for them share.
    pub fn get(&self, krate: Crate) -> Option<&Rc<CrateSet>>
        ensures value { option_map (λ set. set.now.value) result ≡ slice_get self.now krate.0 }
    {
        self.sets.get(krate.0 as usize)
    }

    /// Those of so many crates, the first ones, which share their sets with these. They are those of other crates too that depend
    /// on the same.
    pub fn prefix(&self, len: usize) -> Result<TransitiveDependencies, AllocError>
        ensures value { IfOk result (λ t. t ≡ take len self.now) }
        ensures transitive { (direct other : ℕ → List Crate) → AreTransitive direct self.now → AgreeBelow len direct other
            → IfOk result (λ t. AreTransitive other t) }
    {
        let mut sets = self.sets.clone()?;
        sets.truncate(len);
        Ok(TransitiveDependencies { sets })
    }

    /// How many crates there are.
    pub fn len(&self) -> usize
        ensures value { result ≡ length self.now }
    {
        self.sets.len()
    }
}
