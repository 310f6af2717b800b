//! The impls of a scope.
ghost use Rattle.std.specs.Prelude.{◌≡◌, Option, List, None, Some, OnSome, IfSome};
ghost use Rattle.std.specs.Iterator.{YieldsFirst, item_count};
ghost use Rattle.hir_scope.specs.declared.item_scope.iter.impls.ImplKind.TheVariants.{Any, OfTrait, Inherent};
ghost use Rattle.hir_scope.specs.Scope.Reads.{is_of_kind, impls_of_kind};

use crate::item_scope::ItemScope;
use hir_ids::ids::ImplId;
use std::marker::Model;

/// Which impls a walk gives.
#[derive(Clone, Copy)]
pub(crate) enum ImplKind {
    Any,
    OfTrait,
    Inherent,
}

impl ImplKind {
    fn has(self, is_of_trait: bool) -> bool
        ensures value { result ≡ is_of_kind self is_of_trait }
    {
        match self {
            ImplKind::Any => true,
            ImplKind::OfTrait => is_of_trait,
            ImplKind::Inherent => !is_of_trait,
        }
    }
}

/// Impls in the order in which they were met; see `ItemScope::impls`.
#[derive(Drop)]
pub struct Impls<'a> {
    left: &'a [(ImplId, bool)],
    kind: ImplKind,
}

impl<'a> Model for Impls<'a> {
    ghost use Rattle.std.specs.Prelude.{List};
    ghost use Rattle.hir_ids.specs.declared.ids.ImplId.{ImplId};
    ghost use Rattle.hir_scope.specs.Scope.Reads.{impls_of_kind};

    ghost Value = { List ImplId };

    ghost view = { λ walk. impls_of_kind walk.kind walk.left.now };
}

impl ItemScope {
    pub fn impls(&self) -> Impls<'_>
        ensures value { result ≡ impls_of_kind Any self.now.impls }
    {
        Impls {
            left: self.impls.as_slice(),
            kind: ImplKind::Any,
        }
    }

    pub fn trait_impls(&self) -> Impls<'_>
        ensures value { result ≡ impls_of_kind OfTrait self.now.impls }
    {
        Impls {
            left: self.impls.as_slice(),
            kind: ImplKind::OfTrait,
        }
    }

    pub fn inherent_impls(&self) -> Impls<'_>
        ensures value { result ≡ impls_of_kind Inherent self.now.impls }
    {
        Impls {
            left: self.impls.as_slice(),
            kind: ImplKind::Inherent,
        }
    }
}

impl<'a> Iterator for Impls<'a> {
    type Item = ImplId;

    ghost next_gives = { YieldsFirst (λ (left : List _). left) };

    ghost remaining = { item_count (λ (left : List _). left) };

    fn next(&mut self) -> Option<ImplId> {
        'next: while let [(id, is_of_trait), others @ ..] = self.left {
            self.left = others;
            if self.kind.has(*is_of_trait) {
                return Some(*id);
            }
        }
        None
    }
}
