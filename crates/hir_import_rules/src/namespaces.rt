//! Sets of namespaces.
ghost use Rattle.std.specs.Prelude.{◌≡◌};
ghost use Rattle.hir_import_rules.specs.Directives.{both_of, goes_beyond, is_empty, namespaces_of, no_namespaces};

use hir_nameres::hir_scope::per_ns::PerNs;

/// A set of namespaces.
#[derive(Clone, Copy, Debug, PartialEq, Eq)]
pub struct Namespaces {
    pub types: bool,
    pub values: bool,
    pub macros: bool,
}

impl Namespaces {
    /// None.
    pub fn none() -> Namespaces
        ensures value { result ≡ no_namespaces }
    {
        Namespaces {
            types: false,
            values: false,
            macros: false,
        }
    }

    /// Those in which something is bound.
    pub fn of(items: PerNs) -> Namespaces
        ensures value { result ≡ namespaces_of items }
    {
        Namespaces {
            types: items.types.is_some(),
            values: items.values.is_some(),
            macros: items.macros.is_some(),
        }
    }

    /// Those of both sets.
    pub fn or(self, other: Namespaces) -> Namespaces
        ensures value { result ≡ both_of self other }
    {
        Namespaces {
            types: self.types || other.types,
            values: self.values || other.values,
            macros: self.macros || other.macros,
        }
    }

    /// Whether there is none.
    pub fn is_empty(self) -> bool
        ensures value { result ≡ is_empty self }
    {
        !(self.types || self.values || self.macros)
    }

    /// Whether one of these isn't among the others.
    pub fn goes_beyond(self, other: Namespaces) -> bool
        ensures value { result ≡ goes_beyond self other }
    {
        self.types && !other.types || self.values && !other.values || self.macros && !other.macros
    }
}
