//! Paths that an eager macro asks to have resolved first.
ghost use Rattle.std.specs.Prelude.{◌≡◌, [], IfOk};
ghost use Rattle.hir_collector_rules.specs.InnerPaths.{shared_paths};

use hir_base::mod_path::ModPath;
use std::alloc::{AllocError, Global};
use std::marker::Model;
use std::rc::Rc;

/// Paths in the input of a call that are resolved before it is expanded; clones are the same list.
#[derive(Drop)]
pub struct InnerPaths {
    paths: Option<Rc<Vec<ModPath>>>,
}

impl Model for InnerPaths {
    ghost use Rattle.std.specs.Prelude.{List};
    ghost use Rattle.hir_nameres.specs.HirBase.ModPath.{Path};
    ghost use Rattle.hir_collector_rules.specs.InnerPaths.{shared_paths};

    ghost Value = { List Path };

    ghost view = { λ i. shared_paths i.paths };
}

impl InnerPaths {
    /// These paths.
    pub fn new(alloc: Global, paths: Vec<ModPath>) -> Result<InnerPaths, AllocError>
        ensures value { IfOk result (λ inner. inner ≡ paths.items) }
    {
        if paths.is_empty() {
            return Ok(InnerPaths::none());
        }
        Ok(InnerPaths {
            paths: Some(Rc::new(alloc, paths)?),
        })
    }

    /// No paths.
    pub fn none() -> InnerPaths
        ensures value { result ≡ [] }
    {
        InnerPaths { paths: None }
    }

    /// The paths, in their order.
    pub fn as_slice(&self) -> &[ModPath]
        ensures value { result.now ≡ self.now }
    {
        match &self.paths {
            Some(paths) => paths.as_slice(),
            None => &[],
        }
    }

    /// The same paths again.
    pub fn clone(&self) -> Result<InnerPaths, AllocError>
        ensures value { IfOk result (λ inner. inner ≡ self.now) }
    {
        match &self.paths {
            Some(paths) => Ok(InnerPaths {
                paths: Some(paths.clone()?),
            }),
            None => Ok(InnerPaths { paths: None }),
        }
    }
}
