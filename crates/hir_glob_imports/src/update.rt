//! What is to be done along an edge at a key.
ghost use Rattle.std.specs.Prelude.{◌≡◌};
ghost use Rattle.hir_glob_imports.specs.Moves.{raise_to, raise_of, update_of_brought, shown};
ghost use Rattle.hir_glob_imports.specs.Waves.{brought_of, update_in};

use crate::edge::{Bound, Brought, Edge, Key, Slot, Target, Update};
use crate::glob_imports::GlobImports;
use crate::names::Names;
use hir_scope::visibility::Visibility;

/// The greater visibility, where it is another one.
fn raise_to(vis: Visibility, greater: Option<Visibility>) -> Update
    ensures value { result ≡ raise_to vis greater }
{
    match greater {
        Some(wide) => {
            if wide == vis {
                Update::Nothing
            } else {
                Update::Raise(wide)
            }
        }
        None => Update::Nothing,
    }
}

/// What is to be done where something stands that may be raised.
fn raise_of<N: Names>(names: &N, edge: Edge, shown: Bound, stands: Bound) -> Update
    ensures value { result ≡ raise_of (N.table.view names.now) edge shown stands }
{
    if stands.def != shown.def {
        return Update::Nothing;
    }
    let vis = names.lesser(edge.vis, shown.vis);
    raise_to(stands.vis, names.greater(stands.vis, vis))
}

/// What is to be done where a name stands.
fn update_of_brought<N: Names>(
    names: &N,
    j: usize,
    edge: Edge,
    shown: Bound,
    stands: Bound,
    by: Option<Brought>,
) -> Update
    ensures value { result ≡ update_of_brought (N.table.view names.now) j edge shown stands by }
{
    let Some(last) = by else {
        return Update::Nothing;
    };
    if last.edge != j {
        return raise_of(names, edge, shown, stands);
    }
    if last.seen == shown && last.edge_vis == edge.vis {
        Update::Nothing
    } else {
        Update::Follow(shown)
    }
}

/// What the source of an edge shows its importer at a key.
fn shown<N: Names>(names: &N, edge: Edge, key: &Key) -> Option<Bound>
    ensures value { result ≡ shown (N.table.view names.now) edge key.now }
{
    match names.bound(edge.source, key) {
        Some(bound) => {
            if names.sees(edge.importer, bound.vis) {
                Some(bound)
            } else {
                None
            }
        }
        None => None,
    }
}

impl GlobImports {
    /// What is to be done along an edge at the key of a slot of its importer.
    pub(crate) fn update_in<N: Names>(&self, names: &N, j: usize, edge: Edge, slot: &Slot) -> Update
        ensures value { result ≡ update_in (N.table.view names.now) (brought_of self.now) j edge slot.now }
    {
        let Some(shown) = shown(names, edge, &slot.key) else {
            return Update::Nothing;
        };
        let Some(stands) = names.bound(Target::Own(slot.at), &slot.key) else {
            return Update::Copy(shown);
        };
        if slot.key.is_unnamed() {
            raise_of(names, edge, shown, stands)
        } else {
            update_of_brought(names, j, edge, shown, stands, self.brought(slot))
        }
    }
}
