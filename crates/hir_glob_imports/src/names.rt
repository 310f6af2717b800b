//! The names of modules, as globs read and write them.
ghost use Rattle.std.specs.Prelude.{◌≡◌, Some, IsSome, IfOk, OnOk, OnErr, Contains};
ghost use Rattle.hir_glob_imports.specs.declared.edge.Key.{Key};
ghost use Rattle.hir_glob_imports.specs.View.{NameTable, IsNameTable, bound_in};

use crate::edge::{Bound, Key, Slot, Target};
use hir_scope::imports::GlobId;
use hir_scope::visibility::Visibility;
use std::alloc::{AllocError, Global};

/// What the names of modules stand for: of a map that is being built, where globs bind them, and of what its globs
/// reach elsewhere.
pub trait Names {
    // how names are seen, and what each write leaves
    ghost table: { NameTable Self };

    /// What stands at a key of a target.
    fn bound(&self, of: Target, key: &Key) -> Option<Bound>
        ensures value { result ≡ (table.view self.now).bound of key.now };

    /// Whether a module of the map, by number, may see.
    fn sees(&self, at: u32, vis: Visibility) -> bool
        ensures value { result ≡ (table.view self.now).sees at vis };

    /// The lesser of a glob's visibility and of that of what its source has, and the glob's where they are unrelated.
    fn lesser(&self, glob: Visibility, source: Visibility) -> Visibility
        ensures value { result ≡ (table.view self.now).lesser glob source };

    /// The greater of two visibilities, where one is.
    fn greater(&self, one: Visibility, other: Visibility) -> Option<Visibility>
        ensures value { result ≡ (table.view self.now).greater one other };

    /// The keys at which a target has something, in the order in which a glob copies them.
    fn keys(&self, alloc: Global, of: Target) -> Result<Vec<Key>, AllocError>
        ensures each { IfOk result (λ keys. (key : Key) → IsSome ((table.view self.now).bound of key)
            → Contains keys.items key) };

    /// Binds a vacant slot to what a target has at its key.
    fn copy(
        &mut self,
        slot: &Slot,
        of: Target,
        shown: Bound,
        vis: Visibility,
        by: GlobId,
    ) -> Result<(), AllocError>
        requires { (table.view self.old).bound of slot.now.key ≡ Some shown }
        ensures ok { OnOk result (self.new ≡ table.copied self.old slot.now of vis by) };

    /// Gives a slot the definition that a target has at its key, and a visibility.
    fn follow(
        &mut self,
        slot: &Slot,
        of: Target,
        shown: Bound,
        vis: Visibility,
    ) -> Result<(), AllocError>
        requires { (table.view self.old).bound of slot.now.key ≡ Some shown }
        ensures ok { OnOk result (self.new ≡ table.followed self.old slot.now of vis) };

    /// Gives a slot another visibility.
    fn raise(&mut self, slot: &Slot, vis: Visibility) -> Result<(), AllocError>
        ensures ok { OnOk result (self.new ≡ table.raised self.old slot.now vis) };

    ghost writes: { IsNameTable table };
}
