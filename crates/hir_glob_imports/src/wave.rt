//! How changes of names go along glob imports.
ghost use Rattle.std.specs.Prelude.{◌≡◌, ◌+◌, ◌≤◌, ◌++◌, [], ◌∷◌, true, false, Some, OnOk, IfOk, Contains, slice_get};
ghost use Rattle.hir_glob_imports.specs.Inner.{IsKeptBeside, IsKeptBut, Looks};
ghost use Rattle.hir_glob_imports.specs.declared.edge.Slot.{Slot};
ghost use Rattle.hir_glob_imports.specs.Keys.{slot_at};
ghost use Rattle.hir_glob_imports.specs.Rules.{StepsIn, IsSpent};
ghost use Rattle.hir_glob_imports.specs.Waves.{brought_of, state_of, IsKept, IsWaved};

use crate::edge::{Edge, Key, Slot};
use crate::glob_imports::GlobImports;
use crate::names::Names;
use crate::step::{GlobError, MAX_STEPS};
use std::alloc::AllocError;

fn report(changes: &mut Vec<Slot>, slot: Slot) -> Result<(), AllocError>
    ensures ok { OnOk result (changes.new.items ≡ changes.old.items ++ slot ∷ []) }
{
    changes.push(slot)?;
    Ok(())
}

impl GlobImports {
    /// Looks at an edge at a key that was taken out; whether a step was taken, whose slot `changes` gains.
    fn look_along<N: Names>(
        &mut self,
        names: &mut N,
        count: &mut u32,
        changes: &mut Vec<Slot>,
        j: usize,
        edge: Edge,
        key: Key,
    ) -> Result<bool, GlobError>
        requires recorded { slice_get self.old.edges j ≡ Some edge }
        requires small { count.old ≤ MAX_STEPS }
        ensures looks { IfOk result (λ took. Looks N.table took names.old self.old count.old changes.old.items
            names.new self.new count.new changes.new.items) }
        ensures kept { OnOk result (IsKeptBut (N.table.view names.old) self.old j (slot_at edge.importer key)
            → IsKept (N.table.view names.new) self.new) }
        ensures pending { IfOk result (λ took. took ≡ false → self.new.pending ≡ self.old.pending) }
        ensures small { count.new ≤ MAX_STEPS }
        ensures many { result ≡ Err GlobError.TooMany → IsSpent N.table (state_of names.old self.old count.old) }
    {
        let slot = Slot {
            at: edge.importer,
            key,
        };
        if self.take(names, count, j, edge, &slot)? {
            report(changes, slot)?;
            Ok(true)
        } else {
            Ok(false)
        }
    }

    /// Looks at a pair that was taken out; whether a step was taken, whose slot `changes` gains.
    fn look<N: Names>(
        &mut self,
        names: &mut N,
        count: &mut u32,
        changes: &mut Vec<Slot>,
        j: usize,
        key: Key,
    ) -> Result<bool, GlobError>
        requires small { count.old ≤ MAX_STEPS }
        ensures looks { IfOk result (λ took. Looks N.table took names.old self.old count.old changes.old.items
            names.new self.new count.new changes.new.items) }
        ensures kept { OnOk result (IsKeptBeside (N.table.view names.old) self.old j key → IsKept (N.table.view names.new) self.new) }
        ensures pending { IfOk result (λ took. took ≡ false → self.new.pending ≡ self.old.pending) }
        ensures small { count.new ≤ MAX_STEPS }
        ensures many { result ≡ Err GlobError.TooMany → IsSpent N.table (state_of names.old self.old count.old) }
    {
        match self.edge(j) {
            Some(edge) => self.look_along(names, count, changes, j, edge, key),
            None => Ok(false),
        }
    }

    /// Looks at what is pending until a step is taken; whether one was.
    fn advance<N: Names>(
        &mut self,
        names: &mut N,
        count: &mut u32,
        changes: &mut Vec<Slot>,
    ) -> Result<bool, GlobError>
        requires small { count.old ≤ MAX_STEPS }
        ensures looks { IfOk result (λ took. Looks N.table took names.old self.old count.old changes.old.items
            names.new self.new count.new changes.new.items) }
        ensures kept { OnOk result (IsKept (N.table.view names.old) self.old → IsKept (N.table.view names.new) self.new) }
        ensures rests { IfOk result (λ took. took ≡ false → self.new.pending ≡ []) }
        ensures small { count.new ≤ MAX_STEPS }
        ensures many { result ≡ Err GlobError.TooMany → IsSpent N.table (state_of names.old self.old count.old) }
    {
        'pending: while let Some((j, key)) = self.pending.pop() {
            if self.look(names, count, changes, j, key)? {
                return Ok(true);
            }
        }
        Ok(false)
    }

    /// Copies, follows and raises along edges until nothing is pending.
    ///
    /// Each step is tested when it is taken, so they may be taken also where the map has changed in ways of which nothing is
    /// noted. `count` is how many steps the run took, and `changes` gains each slot that changes.
    pub fn wave<N: Names>(
        &mut self,
        names: &mut N,
        count: &mut u32,
        changes: &mut Vec<Slot>,
    ) -> Result<(), GlobError>
        requires small { count.old ≤ MAX_STEPS }
        // each step changes a slot of the list
        ensures steps { OnOk result (StepsIn N.table changes.new.items
            (state_of names.old self.old count.old) (state_of names.new self.new count.new)) }
        ensures listed { OnOk result ((slot : Slot) → Contains changes.old.items slot → Contains changes.new.items slot) }
        ensures kept { OnOk result (IsKept (N.table.view names.old) self.old → IsKept (N.table.view names.new) self.new) }
        ensures rests { OnOk result (self.new.pending ≡ []) }
        ensures waved { OnOk result (IsKept (N.table.view names.old) self.old
            → IsWaved (N.table.view names.new) self.new.edges (brought_of self.new)) }
        ensures small { count.new ≤ MAX_STEPS }
        ensures many { result ≡ Err GlobError.TooMany → IsSpent N.table (state_of names.old self.old count.old) }
    {
        'steps: while self.advance(names, count, changes)? {}
        Ok(())
    }
}
