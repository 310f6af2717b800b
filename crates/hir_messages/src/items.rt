//! The items of a trait or an impl, as a caller names things.
ghost use Rattle.std.specs.Prelude.{◌≡◌};

use crate::answer::SourceItem;
use crate::diagnostic::{CalledItem, Diagnostics};
use hir_base::name::Name;
use std::marker::Model;

/// An item of a trait or an impl, by its name there.
#[derive(Drop)]
pub struct AssocItem {
    pub name: Name,
    pub def: SourceItem,
}

/// Items of a trait or an impl, one after another.
#[derive(Drop)]
pub struct AssocItems {
    inner: Vec<AssocItem>,
}

impl Model for AssocItems {
    ghost use Rattle.std.specs.Prelude.{List};
    ghost use Rattle.hir_messages.specs.declared.items.AssocItem.{AssocItem};

    ghost Value = { List AssocItem };

    ghost view = { λ a. a.inner.items };
}

impl AssocItems {
    pub fn new(inner: Vec<AssocItem>) -> AssocItems
        ensures value { result ≡ inner.items }
    {
        AssocItems { inner }
    }

    pub fn as_slice(&self) -> &[AssocItem]
        ensures value { result.now ≡ self.now }
    {
        self.inner.as_slice()
    }
}

/// Macro calls, one after another.
#[derive(Drop)]
pub struct CalledItems {
    inner: Vec<CalledItem>,
}

impl Model for CalledItems {
    ghost use Rattle.std.specs.Prelude.{List};
    ghost use Rattle.hir_messages.specs.declared.diagnostic.CalledItem.{CalledItem};

    ghost Value = { List CalledItem };

    ghost view = { λ c. c.inner.items };
}

impl CalledItems {
    pub fn new(inner: Vec<CalledItem>) -> CalledItems
        ensures value { result ≡ inner.items }
    {
        CalledItems { inner }
    }

    pub fn as_slice(&self) -> &[CalledItem]
        ensures value { result.now ≡ self.now }
    {
        self.inner.as_slice()
    }
}

/// What a trait or an impl holds, with what the macro calls in it expand to.
#[derive(Drop)]
pub struct Items {
    /// In the order of the source, those of an expansion in the place of its call.
    pub items: AssocItems,
    /// The calls whose paths resolve to macros, each before those in its expansion.
    pub calls: CalledItems,
    pub diagnostics: Diagnostics,
}
