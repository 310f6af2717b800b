//! Paths of imports, which share what stands before them.
//!
//! The paths of a list's leaves begin alike, up to some thousand names where lists stand in lists. So what stands before a
//! list is kept once, and a leaf keeps its own part alone.
ghost use Rattle.std.specs.Prelude.{◌≡◌, ◌==◌, ◌++◌, length, slice_get, IfOk, IfSome, OnOk};
ghost use Rattle.std.specs.Option.{option_copied};
ghost use Rattle.hir_use_tree.specs.SharedPath.{names_before, last_name};

use crate::joined_path::push_names;
use hir_base::mod_path::{ModPath, PathKind};
use hir_base::name::Name;
use smallvec::SmallVec;
use std::alloc::{AllocError, Global};
use std::marker::Model;
use std::rc::Rc;

/// What stands before a list: the path of the list behind what stands before that.
#[derive(Drop)]
pub struct Prefix {
    before: Option<Rc<Prefix>>,
    /// How the whole begins, and the names of this part: at least one behind another part.
    own: ModPath,
}

impl Model for Prefix {
    ghost use Rattle.std.specs.Prelude.{◌++◌, length};
    ghost use Rattle.hir_base.specs.ModPath.{Path};

    ghost Value = { Path };

    ghost use Rattle.hir_use_tree.specs.SharedPath.{names_before, GoesOn};

    ghost view = { λ p. record { kind = p.own.kind; segments = names_before p.before ++ p.own.segments } };

    ghost invariant = { λ p. GoesOn p.before p.own.segments };

    ghost size = { λ path. length path.segments };

    ghost use Rattle.std.proofs.Common.{arith, length-append};

    ghost size_decreases = { λ p h. Prim.grind (arith, length-append) };
}

/// A path behind what stands before it, if something does.
#[derive(Drop)]
pub struct SharedPath {
    before: Option<Rc<Prefix>>,
    /// How the whole begins, and the names of this part.
    own: ModPath,
}

impl Model for SharedPath {
    ghost use Rattle.std.specs.Prelude.{◌++◌};
    ghost use Rattle.hir_base.specs.ModPath.{Path};

    ghost Value = { Path };

    ghost use Rattle.hir_use_tree.specs.SharedPath.{names_before, BeginsAs};

    ghost view = { λ p. record { kind = p.own.kind; segments = names_before p.before ++ p.own.segments } };

    ghost invariant = { λ p. BeginsAs p.before p.own.kind };
}

impl SharedPath {
    /// A path with nothing before it.
    pub fn alone(path: ModPath) -> SharedPath
        ensures value { result ≡ path }
    {
        SharedPath {
            before: None,
            own: path,
        }
    }

    /// How the path begins.
    pub fn kind(&self) -> PathKind
        ensures value { result ≡ self.now.kind }
    {
        self.own.kind()
    }

    /// The path whole, where nothing stands before it.
    pub fn as_path(&self) -> Option<&ModPath>
        ensures value { IfSome result (λ path. path.now ≡ self.now) }
    {
        match self.before {
            None => Some(&self.own),
            Some(_) => None,
        }
    }

    /// The path whole, as a copy.
    pub fn to_path(&self, alloc: Global) -> Result<ModPath, AllocError>
        ensures value { IfOk result (λ path. path ≡ self.now) }
    {
        let mut segments = SmallVec::new(alloc);
        if let Some(before) = &self.before {
            push_prefix(&mut segments, before)?;
        }
        push_names(&mut segments, self.own.segments())?;
        Ok(ModPath::from_segments(self.own.kind(), segments))
    }

    /// Whether there is one name alone.
    pub fn has_one_name(&self) -> bool
        ensures value { result ≡ (length self.now.segments == 1) }
    {
        let own = self.own.segments().len();
        match &self.before {
            Some(before) if own == 0 => before.has_one_name(),
            Some(before) => own == 1 && before.is_empty(),
            None => own == 1,
        }
    }

    /// The first name, if there is one.
    pub fn first(&self) -> Option<&Name>
        ensures value { option_copied result ≡ slice_get self.now.segments 0 }
    {
        match first_before(&self.before) {
            Some(name) => Some(name),
            None => self.own.segments().first(),
        }
    }

    /// The last name, if there is one.
    pub fn last(&self) -> Option<&Name>
        ensures value { option_copied result ≡ last_name self.now.segments }
    {
        match (self.own.segments().last(), &self.before) {
            (Some(name), _) => Some(name),
            (None, Some(before)) => before.last(),
            (None, None) => None,
        }
    }
}

impl Prefix {
    /// What stands before a list with this path.
    pub fn new(alloc: Global, path: SharedPath) -> Result<Rc<Prefix>, AllocError>
        ensures value { IfOk result (λ prefix. prefix.value ≡ path) }
    {
        let SharedPath { before, own } = path;
        match before {
            Some(before) if own.segments().is_empty() => Ok(before),
            before => Ok(Rc::new(alloc, Prefix { before, own })?),
        }
    }

    /// How the path begins.
    pub(crate) fn kind(&self) -> PathKind
        ensures value { result ≡ self.now.kind }
    {
        self.own.kind()
    }

    /// Whether there is no name.
    pub(crate) fn is_empty(&self) -> bool
        ensures value { result ≡ (length self.now.segments == 0) }
    {
        self.before.is_none() && self.own.segments().is_empty()
    }

    /// Whether there is one name alone.
    fn has_one_name(&self) -> bool
        ensures value { result ≡ (length self.now.segments == 1) }
    {
        let own = self.own.segments().len();
        match &self.before {
            Some(before) => own == 1 && before.is_empty(),
            None => own == 1,
        }
    }

    /// The last name, if there is one.
    fn last(&self) -> Option<&Name>
        ensures value { option_copied result ≡ last_name self.now.segments }
    {
        self.own.segments().last()
    }
}

/// Names behind a prefix, which is shared.
pub(crate) fn behind(
    alloc: Global,
    prefix: &Rc<Prefix>,
    names: &[Name],
) -> Result<SharedPath, AllocError>
    ensures value { IfOk result (λ path. path ≡ record { kind = prefix.now.value.kind; segments = prefix.now.value.segments ++ names.now }) }
{
    let mut own = SmallVec::new(alloc);
    push_names(&mut own, names)?;
    Ok(SharedPath {
        before: Some(prefix.clone()?),
        own: ModPath::from_segments(prefix.kind(), own),
    })
}

/// The first name of what stands before, if there is one.
fn first_before(before: &Option<Rc<Prefix>>) -> Option<&Name>
    ensures value { option_copied result ≡ slice_get (names_before before.now) 0 }
{
    let Some(prefix) = before else {
        return None;
    };
    let prefix: &Prefix = &**prefix;
    match &prefix.before {
        None => prefix.own.segments().first(),
        before => match first_before(before) {
            Some(name) => Some(name),
            None => prefix.own.segments().first(),
        },
    }
}

/// Adds all names of a prefix.
fn push_prefix(out: &mut SmallVec<Name, 1>, prefix: &Prefix) -> Result<(), AllocError>
    ensures ok { OnOk result (out.new.items ≡ out.old.items ++ prefix.now.segments) }
{
    if let Some(before) = &prefix.before {
        push_prefix(out, before)?;
    }
    push_names(out, prefix.own.segments())
}
