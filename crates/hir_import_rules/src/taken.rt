//! What the takings of an import reached.
ghost use Rattle.std.specs.Prelude.{◌≡◌, OnOk, Contains, ◌↔◌, IsTrue};
ghost use Rattle.hir_import_rules.specs.Directives.{is_untaken, nothing_taken, taken_after, taken_for};

use crate::namespaces::Namespaces;
use hir_glob_imports::Target;
use hir_nameres::nameres::path_resolution::ResolvePathResult;
use std::alloc::{AllocError, Global};
use std::marker::Model;

/// What the takings of an import reached.
#[derive(Drop)]
pub struct Taken {
    /// The namespaces in which they reached something.
    namespaces: Namespaces,
    /// Whether one of them was answered through another crate.
    crossed: bool,
    /// Of a glob, what it was taken for, in order.
    targets: Vec<Target>,
}

impl Model for Taken {
    ghost use Rattle.hir_import_rules.specs.Directives.{TakenValue};

    ghost Value = { TakenValue };

    ghost view = { λ t. record { namespaces = t.namespaces; crossed = t.crossed; targets = t.targets.items } };
}

impl Taken {
    /// No taking.
    pub fn nothing(alloc: Global) -> Taken
        ensures value { result ≡ nothing_taken }
    {
        Taken {
            namespaces: Namespaces::none(),
            crossed: false,
            targets: Vec::new(alloc),
        }
    }

    /// The namespaces in which they reached something.
    pub fn namespaces(&self) -> Namespaces
        ensures value { result ≡ self.now.namespaces }
    {
        self.namespaces
    }

    /// Whether no taking reached anything.
    pub fn is_untaken(&self) -> bool
        ensures value { result ≡ is_untaken self.now }
    {
        self.namespaces.is_empty() && self.targets.is_empty()
    }

    /// Whether a glob was taken for this.
    pub fn is_for(&self, target: Target) -> bool
        ensures value { IsTrue result ↔ Contains self.now.targets target }
    {
        self.targets.contains(&target)
    }

    /// Notes a taking with this answer.
    pub fn add(&mut self, answer: ResolvePathResult)
        ensures value { self.new ≡ taken_after self.old answer }
    {
        self.namespaces = self.namespaces.or(Namespaces::of(answer.resolved_def));
        self.crossed = self.crossed || answer.prefix_info.differing_crate;
    }

    /// Notes a taking for this.
    pub fn add_target(&mut self, target: Target) -> Result<(), AllocError>
        ensures ok { OnOk result (self.new ≡ taken_for self.old target) }
    {
        self.targets.push(target)?;
        Ok(())
    }
}
