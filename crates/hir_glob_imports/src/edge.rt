//! Globs that were recorded, and what they brought.
ghost use Rattle.std.specs.Prelude.{◌≡◌, IfOk};
ghost use Rattle.std.specs.Option.{option_copied};
ghost use Rattle.hir_glob_imports.specs.Keys.{is_unnamed, name_of};

use hir_base::ids::{EnumId, ModuleId, TraitId};
use hir_base::name::Name;
use hir_scope::imports::GlobId;
use hir_scope::item_in_ns::ItemInNs;
use hir_scope::visibility::Visibility;
use std::alloc::AllocError;

/// What the path of a glob reached.
#[derive(Clone, Copy, PartialEq, Eq)]
pub enum Target {
    /// A module of the map that is being built, by number.
    Own(u32),
    /// A module of another map.
    Module(ModuleId),
    Enum(EnumId),
}

/// A glob that was recorded: it brings what its source shows to the module in which it stands.
#[derive(Clone, Copy, PartialEq, Eq)]
pub struct Edge {
    pub source: Target,
    /// A module of the map that is being built, by number.
    pub importer: u32,
    pub id: GlobId,
    pub vis: Visibility,
}

/// What a glob brings: a name in one namespace, or a trait that is imported without a name.
#[derive(PartialEq, Eq, PartialOrd, Ord, Drop)]
pub enum Key {
    Types(Name),
    Values(Name),
    Macros(Name),
    Unnamed(TraitId),
}

impl Key {
    pub fn clone(&self) -> Result<Key, AllocError>
        ensures value { IfOk result (λ key. key ≡ self.now) }
    {
        match self {
            Key::Types(name) => Ok(Key::Types(name.clone()?)),
            Key::Values(name) => Ok(Key::Values(name.clone()?)),
            Key::Macros(name) => Ok(Key::Macros(name.clone()?)),
            Key::Unnamed(id) => Ok(Key::Unnamed(*id)),
        }
    }

    /// The name; a trait that is imported without one has none.
    pub fn name(&self) -> Option<&Name>
        ensures value { option_copied result ≡ name_of self.now }
    {
        match self {
            Key::Types(name) | Key::Values(name) | Key::Macros(name) => Some(name),
            Key::Unnamed(_) => None,
        }
    }

    pub fn is_unnamed(&self) -> bool
        ensures value { result ≡ is_unnamed self.now }
    {
        matches!(self, Key::Unnamed(_))
    }
}

/// A place of the map that is being built: a module, by number, and what may stand there.
#[derive(PartialEq, Eq, PartialOrd, Ord, Drop)]
pub struct Slot {
    pub at: u32,
    pub key: Key,
}

impl Slot {
    pub fn clone(&self) -> Result<Slot, AllocError>
        ensures value { IfOk result (λ slot. slot ≡ self.now) }
    {
        Ok(Slot {
            at: self.at,
            key: self.key.clone()?,
        })
    }
}

/// What stands at a key.
#[derive(Clone, Copy, PartialEq, Eq)]
pub struct Bound {
    pub def: ItemInNs,
    pub vis: Visibility,
}

/// The edge that bound a slot, by number, and what it saw when it last copied or followed.
#[derive(Clone, Copy, PartialEq, Eq)]
pub struct Brought {
    pub edge: usize,
    /// What its source had.
    pub seen: Bound,
    /// Its own visibility.
    pub edge_vis: Visibility,
}

/// What is to be done along an edge at a key.
#[derive(Clone, Copy, PartialEq, Eq)]
pub enum Update {
    Nothing,
    /// The importer has nothing there, and takes what the source shows.
    Copy(Bound),
    /// The edge brought what the importer has, and the source or the edge changed since.
    Follow(Bound),
    /// The importer has the definition by another edge, and under this one with more who may see it.
    Raise(Visibility),
}
