//! Who may see an item, after rust-analyzer's `visibility.rs`.
ghost use Rattle.std.specs.Prelude.{◌≡◌, ◌↔◌, IsTrue, IfSome, Option};
ghost use Rattle.std.specs.Option.{unwrap_or};
ghost use Rattle.std.specs.Fn.{FnOnceReturnsAt};
ghost use Rattle.hir_per_ns.specs.declared.visibility.Visibility.{Visibility};
ghost use Rattle.hir_per_ns.specs.declared.visibility.Visibility.TheVariants.{Module, Public};
ghost use Rattle.hir_per_ns.specs.ModuleTree.{is_at_or_above};
ghost use Rattle.hir_per_ns.specs.Visibility.{stands_for, is_visible, greater_of, lesser_of, either_written, upper_of, lower_of, IsUnion, IsMeet};

use crate::module_tree::ModuleTree;
use hir_ids::explicitness::VisibilityExplicitness;
use hir_ids::ids::{Crate, MapId, ModuleId};

/// The modules that may see an item.
#[derive(Clone, Copy, Debug, PartialEq, Eq, Hash)]
pub enum Visibility {
    /// The module and all below it.
    Module(ModuleId, VisibilityExplicitness),
    PubCrate(Crate),
    Public,
}

impl Visibility {
    /// What a visibility means that is written somewhere; one whose path doesn't lead to a module counts as public.
    ///
    /// The look-up is a function from `&RawVisibility`. It is asked once, for what is written, whose type is left open here.
    pub fn resolve<Raw, F: FnOnce(&Raw) -> Option<Visibility> + Drop>(
        lookup: F,
        raw: &Raw,
    ) -> Visibility
        requires { F.IsAlwaysCallable lookup }
        ensures value { (found : Option Visibility) × FnOnceReturnsAt F.FnOnce lookup raw.now found
            × (result ≡ unwrap_or found Public) }
    {
        let found = lookup(raw);
        match found {
            Some(vis) => vis,
            None => Visibility::Public,
        }
    }

    pub fn is_public(&self) -> bool
        ensures value { IsTrue result ↔ (self.now ≡ Public) }
    {
        matches!(self, Visibility::Public)
    }

    /// Whether every crate that depends on this one may see.
    pub fn is_visible_from_other_crate(self) -> bool
        ensures value { IsTrue result ↔ (self ≡ Public) }
    {
        self.is_public()
    }

    /// Whether the module may see.
    pub fn is_visible_from<T: ModuleTree>(self, tree: &T, from: ModuleId) -> bool
        ensures visible { result ≡ is_visible (T.above tree.now) (T.holders tree.now) self from }
    {
        match self {
            Visibility::Public => true,
            Visibility::PubCrate(krate) => from.map.krate == krate,
            Visibility::Module(module, _) => {
                from.map.krate == module.map.krate
                    && lies_at_or_above(tree, stand_in(tree, module, from), from)
            }
        }
    }

    /// `is_visible_from`, for a module of the map that is being built.
    pub fn is_visible_from_def_map<T: ModuleTree>(self, tree: &T, from: ModuleId) -> bool
        ensures visible { result ≡ is_visible (T.above tree.now) (T.holders tree.now) self from }
    {
        self.is_visible_from(tree, from)
    }

    /// The one of two visibilities that has all that the other has, if one does.
    ///
    /// Two modules are compared where both lie in the map.
    pub fn max<T: ModuleTree>(self, tree: &T, other: Visibility, map: MapId) -> Option<Visibility>
        ensures value { result ≡ greater_of (T.above tree.now) map self other }
        ensures union { IfSome result (λ w. IsUnion (is_visible (T.above tree.now) (T.holders tree.now)) w self other) }
    {
        match (self, other) {
            (_, Visibility::Public) | (Visibility::Public, _) => Some(Visibility::Public),
            (Visibility::PubCrate(one), Visibility::PubCrate(two)) => {
                if one == two {
                    Some(Visibility::PubCrate(one))
                } else {
                    None
                }
            }
            (Visibility::Module(module, _), Visibility::PubCrate(krate))
            | (Visibility::PubCrate(krate), Visibility::Module(module, _)) => {
                if module.map.krate == krate {
                    Some(Visibility::PubCrate(krate))
                } else {
                    None
                }
            }
            (Visibility::Module(one, one_written), Visibility::Module(two, two_written)) => {
                upper_module(tree, one, one_written, two, two_written, map)
            }
        }
    }

    /// The one of two visibilities that the other has all of, if one is.
    ///
    /// Two modules are compared where both lie in the map.
    pub fn min<T: ModuleTree>(self, tree: &T, other: Visibility, map: MapId) -> Option<Visibility>
        ensures value { result ≡ lesser_of (T.above tree.now) map self other }
        ensures meet { IfSome result (λ w. IsMeet (is_visible (T.above tree.now) (T.holders tree.now)) w self other) }
    {
        match (self, other) {
            (vis, Visibility::Public) | (Visibility::Public, vis) => Some(vis),
            (Visibility::PubCrate(one), Visibility::PubCrate(two)) => {
                if one == two {
                    Some(Visibility::PubCrate(one))
                } else {
                    None
                }
            }
            (Visibility::Module(module, written), Visibility::PubCrate(krate))
            | (Visibility::PubCrate(krate), Visibility::Module(module, written)) => {
                if module.map.krate == krate {
                    Some(Visibility::Module(module, written))
                } else {
                    None
                }
            }
            (Visibility::Module(one, one_written), Visibility::Module(two, two_written)) => {
                lower_module(tree, one, one_written, two, two_written, map)
            }
        }
    }
}

/// The module that `of` stands for where it is looked at from `from`.
fn stand_in<T: ModuleTree>(tree: &T, of: ModuleId, from: ModuleId) -> ModuleId
    ensures value { result ≡ stands_for from of (T.holders tree.now of) }
{
    let mut at = of;
    'out: while at.map.block.is_some() && at.map.block != from.map.block {
        match tree.holder(at) {
            Some(holder) => at = holder,
            None => break,
        }
    }
    at
}

/// Whether `high` is `low` or lies above it.
fn lies_at_or_above<T: ModuleTree>(tree: &T, high: ModuleId, low: ModuleId) -> bool
    ensures value { result ≡ is_at_or_above (T.above tree.now) high low }
{
    let mut at = low;
    'up: loop {
        if at == high {
            return true;
        }
        match tree.parent(at) {
            Some(parent) => at = parent,
            None => match tree.holder(at) {
                Some(holder) => at = holder,
                None => return false,
            },
        }
    }
}

fn either_written(
    one: VisibilityExplicitness,
    two: VisibilityExplicitness,
) -> VisibilityExplicitness
    ensures value { result ≡ either_written one two }
{
    match one {
        VisibilityExplicitness::Explicit => one,
        VisibilityExplicitness::Implicit => two,
    }
}

fn upper_module<T: ModuleTree>(
    tree: &T,
    one: ModuleId,
    one_written: VisibilityExplicitness,
    two: ModuleId,
    two_written: VisibilityExplicitness,
    map: MapId,
) -> Option<Visibility>
    ensures value { result ≡ upper_of (T.above tree.now) map one one_written two two_written }
    ensures union { IfSome result (λ w. IsUnion (is_visible (T.above tree.now) (T.holders tree.now))
        w (Module one one_written) (Module two two_written)) }
{
    if one == two {
        return Some(Visibility::Module(one, either_written(one_written, two_written)));
    }
    if one.map != map || two.map != map {
        return None;
    }
    if lies_at_or_above(tree, two, one) {
        return Some(Visibility::Module(two, two_written));
    }
    if lies_at_or_above(tree, one, two) {
        return Some(Visibility::Module(one, one_written));
    }
    None
}

fn lower_module<T: ModuleTree>(
    tree: &T,
    one: ModuleId,
    one_written: VisibilityExplicitness,
    two: ModuleId,
    two_written: VisibilityExplicitness,
    map: MapId,
) -> Option<Visibility>
    ensures value { result ≡ lower_of (T.above tree.now) map one one_written two two_written }
    ensures meet { IfSome result (λ w. IsMeet (is_visible (T.above tree.now) (T.holders tree.now))
        w (Module one one_written) (Module two two_written)) }
{
    if one == two {
        return Some(Visibility::Module(one, either_written(one_written, two_written)));
    }
    if one.map != map || two.map != map {
        return None;
    }
    if lies_at_or_above(tree, two, one) {
        return Some(Visibility::Module(one, one_written));
    }
    if lies_at_or_above(tree, one, two) {
        return Some(Visibility::Module(two, two_written));
    }
    None
}
