//! The names that globs brought, after rust-analyzer's `PerNsGlobImports`.
ghost use Rattle.std.specs.Prelude.{◌≡◌, []};
ghost use Rattle.std.specs.Cmp.{IsTotalOrder};
ghost use Rattle.std.specs.List.Sorted.{IsStrictlySortedBy};
ghost use Rattle.hir_scope.specs.Globs.{place_cmp, has_place};

use hir_ids::ids::ModuleId;
use hir_ids::name::Name;
use hir_scope_table::globs::Globs;
use std::alloc::Global;
use std::marker::Model;

/// The names of modules that stand for what a glob brought, by namespace.
#[derive(Drop)]
pub struct PerNsGlobImports {
    pub(crate) types: Globs,
    pub(crate) values: Globs,
    pub(crate) macros: Globs,
}

impl Model for PerNsGlobImports {
    ghost use Rattle.hir_scope.specs.Globs.{GlobNames};

    ghost Value = { GlobNames };

    ghost view = { λ g. record { types = g.types; values = g.values; macros = g.macros } };
}

impl PerNsGlobImports {
    pub fn new(alloc: Global) -> PerNsGlobImports
        ensures value { result ≡ record { types = []; values = []; macros = [] } }
    {
        PerNsGlobImports {
            types: Globs::new(alloc),
            values: Globs::new(alloc),
            macros: Globs::new(alloc),
        }
    }

    /// Whether a glob brought what the name stands for in the module's types.
    pub fn contains_type(&self, place: &(ModuleId, Name)) -> bool
        ensures value { result ≡ has_place self.now.types place.now }
    {
        self.types.contains(place)
    }

    /// Whether a glob brought what the name stands for in the module's values.
    pub fn contains_value(&self, place: &(ModuleId, Name)) -> bool
        ensures value { result ≡ has_place self.now.values place.now }
    {
        self.values.contains(place)
    }

    /// Whether a glob brought what the name stands for in the module's macros.
    pub fn contains_macro(&self, place: &(ModuleId, Name)) -> bool
        ensures value { result ≡ has_place self.now.macros place.now }
    {
        self.macros.contains(place)
    }

    // Each name of a module is there once, since the sets are in order.
    pub(crate) fn is_ordered(&self)
        ensures total { IsTotalOrder place_cmp }
        ensures types { IsStrictlySortedBy place_cmp self.now.types }
        ensures values { IsStrictlySortedBy place_cmp self.now.values }
        ensures macros { IsStrictlySortedBy place_cmp self.now.macros }
    {
        self.types.is_ordered();
        self.values.is_ordered();
        self.macros.is_ordered();
    }
}
