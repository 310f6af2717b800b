//! What the names of a module stand for, as a caller names things.
ghost use Rattle.std.specs.Prelude.{◌≡◌};

use crate::answer::AnswerItem;
use hir_base::name::Name;
use std::marker::Model;

/// What a name stands for in each namespace. A trait that is imported without a name has none.
#[derive(Drop)]
pub struct BoundName {
    pub name: Option<Name>,
    pub types: Option<AnswerItem>,
    pub values: Option<AnswerItem>,
    pub macros: Option<AnswerItem>,
}

/// The names of a module, and then the traits without one.
#[derive(Drop)]
pub struct BoundNames {
    inner: Vec<BoundName>,
}

impl Model for BoundNames {
    ghost use Rattle.std.specs.Prelude.{List};
    ghost use Rattle.hir_messages.specs.declared.names.BoundName.{BoundName};

    ghost Value = { List BoundName };

    ghost view = { λ n. n.inner.items };
}

impl BoundNames {
    pub fn new(inner: Vec<BoundName>) -> BoundNames
        ensures value { result ≡ inner.items }
    {
        BoundNames { inner }
    }

    pub fn as_slice(&self) -> &[BoundName]
        ensures value { result.now ≡ self.now }
    {
        self.inner.as_slice()
    }
}
