//! Places of modules and blocks in a workspace.
ghost use Rattle.std.specs.Prelude.{refl, ◌≡◌, [], ◌++◌, IfOk};
ghost use Rattle.std.specs.Cmp.Lexicographic.{pointwise, lists_equiv, lists_total, lists_ties, slice_cmp};
ghost use Rattle.std.specs.Ordering.{on, eq_of_both, then_cmp, as_partial_cmp};
ghost use Rattle.std.specs.Cmp.{partial_equiv_from_equiv, and_equiv, on_equiv, on_total, then_total, both_tied, po};
ghost use Rattle.std.specs.Hash as fed;
ghost use Rattle.std.specs.Hash.{and-Alike, on_Alike, items_Alike};

use crate::ast_id::SyntaxId;
use crate::ids::Crate;
use crate::name::Name;
use std::alloc::{AllocError, Global};
use std::cmp::Ordering;
use std::hash::{Hash, Hasher};
use std::marker::Model;

/// One step down from a module or block.
#[derive(Debug, Drop, PartialEq, Eq, PartialOrd, Ord, Hash)]
pub enum PlaceElement {
    /// The child module of this name.
    Module(Name),
    /// The block expression with this id.
    Block(SyntaxId),
}

impl PlaceElement {
    /// The same step; no text is copied.
    pub fn clone(&self) -> Result<PlaceElement, AllocError>
        ensures value { IfOk result (λ e. e ≡ self.now) }
    {
        match self {
            PlaceElement::Module(name) => Ok(PlaceElement::Module(name.clone()?)),
            PlaceElement::Block(id) => Ok(PlaceElement::Block(*id)),
        }
    }
}

/// A crate, and the modules and blocks that lead down from its root. It names a module; one that ends in a block
/// names that block's root.
#[derive(Drop)]
pub struct Place {
    krate: Crate,
    elements: Vec<PlaceElement>,
}

impl Model for Place {
    ghost use Rattle.hir_base.specs.Place.{PlaceValue};

    ghost Value = { PlaceValue };

    ghost view = { λ p. record { krate = p.krate; elements = p.elements.items } };
}

impl Place {
    /// The place that these steps lead to from the crate's root.
    pub fn new(krate: Crate, elements: Vec<PlaceElement>) -> Place
        ensures value { result ≡ record { krate = krate; elements = elements.items } }
    {
        Place { krate, elements }
    }

    /// The root module of a crate.
    pub fn root(alloc: Global, krate: Crate) -> Place
        ensures value { result ≡ record { krate = krate; elements = [] } }
    {
        Place::new(krate, Vec::new(alloc))
    }

    /// The crate.
    pub fn krate(&self) -> Crate
        ensures value { result ≡ self.now.krate }
    {
        self.krate
    }

    /// The steps from the crate's root.
    pub fn elements(&self) -> &[PlaceElement]
        ensures value { result.now ≡ self.now.elements }
    {
        self.elements.as_slice()
    }

    /// The same place; no text is copied.
    pub fn clone(&self) -> Result<Place, AllocError>
        ensures value { IfOk result (λ p. p ≡ self.now) }
    {
        let mut elements = Vec::new(*self.elements.allocator());
        for element in self.elements.as_slice() {
            elements.push(element.clone()?)?;
        }
        Ok(Place {
            krate: self.krate,
            elements,
        })
    }
}

impl PartialEq for Place {
    ghost use Rattle.hir_ids.specs.contracts.ids.CrateEq.TheImpl.Laws.{laws-law as crate_laws};
    ghost use Rattle.hir_base.specs.contracts.place.PlaceElementEq.TheImpl.Laws.{laws-law as element_laws};

    ghost eq = { eq_of_both (on (λ p. p.krate) (⟦<Crate as PartialEq>⟧.eq)) (on (λ p. p.elements) (pointwise (⟦<PlaceElement as PartialEq>⟧.eq))) };

    ghost laws = { partial_equiv_from_equiv (and_equiv (on_equiv (λ p. p.krate) crate_laws) (on_equiv (λ p. p.elements) (lists_equiv element_laws))) };

    fn eq(&self, other: &Place) -> bool {
        self.krate == other.krate && self.elements == other.elements
    }
}

impl Eq for Place {
    ghost use Rattle.hir_ids.specs.contracts.ids.CrateEq.TheImpl.Laws.{laws-law as crate_laws};
    ghost use Rattle.hir_base.specs.contracts.place.PlaceElementEq.TheImpl.Laws.{laws-law as element_laws};

    ghost laws = { and_equiv (on_equiv (λ p. p.krate) crate_laws) (on_equiv (λ p. p.elements) (lists_equiv element_laws)) };
}

impl Ord for Place {
    ghost use Rattle.hir_ids.specs.contracts.ids.CrateOrd.TheImpl.Laws.{total-law as crate_total, matches_eq-law as crate_ties};
    ghost use Rattle.hir_base.specs.contracts.place.PlaceElementOrd.TheImpl.Laws.{total-law as element_total, matches_eq-law as element_ties};

    ghost cmp = { then_cmp (on (λ p. p.krate) (⟦<Crate as Ord>⟧.cmp)) (on (λ p. p.elements) (slice_cmp (⟦<PlaceElement as Ord>⟧.cmp))) };

    ghost total = { then_total (on_total (λ p. p.krate) crate_total) (on_total (λ p. p.elements) (lists_total element_total)) };

    ghost matches_partial_cmp = { λ p q. refl };

    ghost matches_eq = { λ p q. both_tied _ _ _ _ (crate_ties p.krate q.krate) (lists_ties _ element_ties p.elements q.elements) };

    fn cmp(&self, other: &Place) -> Ordering {
        self.krate
            .cmp(&other.krate)
            .then(self.elements.cmp(&other.elements))
    }
}

impl PartialOrd for Place {
    ghost use Rattle.hir_ids.specs.contracts.ids.CrateOrd.TheImpl.Laws.{total-law as crate_total, matches_eq-law as crate_ties};
    ghost use Rattle.hir_base.specs.contracts.place.PlaceElementOrd.TheImpl.Laws.{total-law as element_total, matches_eq-law as element_ties};

    ghost partial_cmp = { as_partial_cmp (then_cmp (on (λ p. p.krate) (⟦<Crate as Ord>⟧.cmp)) (on (λ p. p.elements) (slice_cmp (⟦<PlaceElement as Ord>⟧.cmp)))) };

    ghost laws = { po (then_total (on_total (λ p. p.krate) crate_total) (on_total (λ p. p.elements) (lists_total element_total)))
        (λ p q. both_tied _ _ _ _ (crate_ties p.krate q.krate) (lists_ties _ element_ties p.elements q.elements)) };

    fn partial_cmp(&self, other: &Place) -> Option<Ordering> {
        Some(self.cmp(other))
    }
}

impl Hash for Place {
    ghost use Rattle.hir_ids.specs.contracts.ids.CrateHash.TheImpl.Laws.{respects_eq-law as crate_alike};
    ghost use Rattle.hir_base.specs.contracts.place.PlaceElementHash.TheImpl.Laws.{respects_eq-law as element_alike};

    ghost hash_input = { λ p. ⟦<Crate as Hash>⟧.hash_input p.krate ++ fed.slice (⟦<PlaceElement as Hash>⟧.hash_input) p.elements };

    ghost respects_eq = { (and-Alike (on_Alike (λ p. p.krate) (record { fed = crate_alike })) (on_Alike (λ p. p.elements) (items_Alike (record { fed = element_alike })))).fed };

    fn hash<H: Hasher>(&self, state: &mut H) {
        self.krate.hash(state);
        self.elements.hash(state);
    }
}

/// A block expression, by the module or block that holds it and its id there. It is the value of a `BlockId`.
#[derive(Drop, PartialEq, Eq, PartialOrd, Ord, Hash)]
pub struct BlockPlace {
    pub holder: Place,
    pub id: SyntaxId,
}
