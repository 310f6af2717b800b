//! Edges that are to be looked at.
ghost use Rattle.std.specs.Prelude.{◌≡◌, ◌<◌, ℕ, true, None, Some, IfOk, IsSome, OnOk, Contains, slice_get};
ghost use Rattle.hir_glob_imports.specs.declared.edge.Brought.{Brought};
ghost use Rattle.hir_glob_imports.specs.declared.edge.Edge.{Edge};
ghost use Rattle.hir_glob_imports.specs.declared.edge.Key.{Key};
ghost use Rattle.hir_glob_imports.specs.declared.edge.Slot.{Slot};
ghost use Rattle.hir_glob_imports.specs.declared.edge.Target.TheVariants.{Own};
ghost use Rattle.hir_glob_imports.specs.Inner.{edges_at, Spreads};
ghost use Rattle.hir_glob_imports.specs.Keys.{is_unnamed};
ghost use Rattle.hir_glob_imports.specs.Rules.{with_brought};
ghost use Rattle.hir_glob_imports.specs.View.{View};
ghost use Rattle.hir_glob_imports.specs.Waves.{brought_of, IsExplicit, IsKept, Stands};

use crate::brought::forget_brought;
use crate::edge::{Edge, Key, Slot};
use crate::glob_imports::GlobImports;
use crate::index::EdgesByModule;
use crate::link::add_keys;
use crate::names::Names;
use std::alloc::{AllocError, Global};

/// The edges into a module, where they have to be looked at.
fn edges_into(into: &EdgesByModule, at: u32, wanted: bool) -> &[usize]
    ensures value { wanted ≡ true → result.now ≡ edges_at into.now at }
{
    if wanted { into.at(at) } else { &[] }
}

/// Edges are to be looked at at a key, the first of them first.
fn add_each(pending: &mut Vec<(usize, Key)>, edges: &[usize], key: &Key) -> Result<(), AllocError>
    ensures kept { OnOk result ((j : ℕ) (other : Key)
        → Contains pending.old.items (j, other) → Contains pending.new.items (j, other)) }
    ensures each { OnOk result ((j : ℕ) → Contains edges.now j → Contains pending.new.items (j, key.now)) }
{
    let mut left = edges.len();
    'next: while left > 0 {
        left -= 1;
        pending.push((edges[left], key.clone()?))?;
    }
    Ok(())
}

/// The keys at which the source of the edge of a number has something.
fn keys_along<N: Names>(
    alloc: Global,
    names: &N,
    edges: &[Edge],
    j: usize,
) -> Result<Vec<Key>, AllocError>
    ensures each { IfOk result (λ keys. (e : Edge) (key : Key) → slice_get edges.now j ≡ Some e
        → IsSome ((N.table.view names.now).bound e.source key) → Contains keys.items key) }
{
    match edges.get(j) {
        Some(edge) => names.keys(alloc, edge.source),
        None => Ok(Vec::new(alloc)),
    }
}

/// Edges are to be looked at at each key at which their source has something, the first of them first.
fn open_each<N: Names>(
    pending: &mut Vec<(usize, Key)>,
    alloc: Global,
    names: &N,
    edges: &[Edge],
) -> Result<(), AllocError>
    ensures each { OnOk result ((j : ℕ) (e : Edge) (key : Key) → slice_get edges.now j ≡ Some e
        → IsSome ((N.table.view names.now).bound e.source key) → Contains pending.new.items (j, key)) }
{
    let mut j = edges.len();
    'next: while j > 0 {
        j -= 1;
        let keys = keys_along(alloc, names, edges, j)?;
        add_keys(pending, j, keys)?;
    }
    Ok(())
}

impl GlobImports {
    /// The edges around a slot are to be looked at in it: those out of its module, and where it moved those into it.
    pub(crate) fn spread(&mut self, slot: &Slot, moved: bool) -> Result<(), AllocError>
        ensures spreads { OnOk result (Spreads slot.now moved self.old self.new) }
    {
        let into = edges_into(&self.into, slot.at, moved);
        add_each(&mut self.pending, into, &slot.key)?;
        add_each(&mut self.pending, self.out_of.at(slot.at), &slot.key)
    }

    /// A slot was bound explicitly, or a trait without a name came or is seen by more: no glob has brought what stands
    /// there, and the edges around it have to be looked at.
    pub fn changed(&mut self, slot: &Slot) -> Result<(), AllocError>
        ensures edges { OnOk result (self.new.edges ≡ self.old.edges) }
        ensures brought { OnOk result (brought_of self.new ≡ with_brought (brought_of self.old) slot.now None) }
        ensures kept { OnOk result ((v w : View) → IsKept v self.old → IsExplicit slot.now v w → IsKept w self.new) }
    {
        forget_brought(&mut self.brought, slot);
        self.spread(slot, slot.key.is_unnamed())
    }

    /// The map and what its globs reach have grown in any way: each edge is to be looked at at each key at which its source
    /// has something.
    pub fn reopen<N: Names>(&mut self, alloc: Global, names: &N) -> Result<(), AllocError>
        requires there { (j : ℕ) (e : Edge) → slice_get self.old.edges j ≡ Some e → (N.table.view names.now).has e.importer ≡ true }
        requires stands { (s : Slot) (by : Brought) → brought_of self.old s ≡ Some by → Stands (N.table.view names.now) s by }
        ensures edges { OnOk result (self.new.edges ≡ self.old.edges) }
        ensures brought { OnOk result (self.new.brought ≡ self.old.brought) }
        ensures kept { OnOk result (IsKept (N.table.view names.now) self.new) }
    {
        self.pending.clear();
        open_each(&mut self.pending, alloc, names, self.edges.as_slice())
    }
}
