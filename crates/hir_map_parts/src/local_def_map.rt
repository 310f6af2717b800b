//! The crates that a crate's paths may begin with.
ghost use Rattle.std.specs.Prelude.{◌≡◌, [], fold, IfOk, OnOk, OnErr};
ghost use Rattle.hir_map_parts.specs.Equality.{same_extern};
ghost use Rattle.hir_map_parts.specs.Inner.LocalHash.{fed_entry};
ghost use Rattle.hir_map_parts.specs.State.{at_name, with_extern};

use hir_base::ids::{ExternCrateId, ModuleId};
use hir_base::name::Name;
use indexmap::IndexMap;
use std::alloc::{AllocError, Global};
use std::hash::{Hash, Hasher};
use std::marker::Model;

/// The extern prelude of a crate, which only the crate itself asks, after rust-analyzer's `LocalDefMap`.
///
/// Its names stand in the order in which they were added, and equal ones have them in one order.
pub struct LocalDefMap {
    extern_prelude: IndexMap<Name, (ModuleId, Option<ExternCrateId>)>,
}

impl Drop for LocalDefMap {
    fn drop(self) {
        let LocalDefMap { extern_prelude: _ } = self;
    }
}

impl Model for LocalDefMap {
    ghost use Rattle.hir_map_parts.specs.State.{Local};

    ghost Value = { Local };

    ghost view = { λ l. l.extern_prelude.entries };
}

impl LocalDefMap {
    /// No crates.
    pub fn empty(alloc: Global) -> LocalDefMap
        ensures value { result ≡ [] }
    {
        LocalDefMap {
            extern_prelude: IndexMap::new(alloc),
        }
    }

    /// An equal extern prelude; no text is copied.
    pub fn clone(&self, alloc: Global) -> Result<LocalDefMap, AllocError>
        ensures value { IfOk result (λ l. l ≡ self.now) }
    {
        Ok(LocalDefMap {
            extern_prelude: copied(alloc, &self.extern_prelude)?,
        })
    }

    /// The root of the crate of a name, and the `extern crate` that names it, if one does.
    #[tactic(auto, using(crate::proofs::Externs::found_by_name))]
    pub fn extern_crate(&self, name: &Name) -> Option<(ModuleId, Option<ExternCrateId>)>
        ensures value { result ≡ at_name self.now name.now }
    {
        self.extern_prelude.get(name).copied()
    }

    /// The roots of crates with their names, in the order in which these were added, and the `extern crate` that names
    /// each, if one does.
    pub fn extern_prelude(&self) -> indexmap::map::Iter<'_, Name, (ModuleId, Option<ExternCrateId>)>
        ensures value { result ≡ self.now }
    {
        self.extern_prelude.iter()
    }

    /// Gives a crate's root a name: a new one comes behind the others, one that is there stays in its place.
    pub fn add_extern(
        &mut self,
        name: Name,
        module: ModuleId,
        extern_crate: Option<ExternCrateId>,
    ) -> Result<(), AllocError>
        ensures ok { OnOk result (self.new ≡ with_extern self.old name («module», extern_crate)) }
        ensures err { OnErr result (self.new ≡ self.old) }
    {
        self.extern_prelude.insert(name, (module, extern_crate))?;
        Ok(())
    }
}

fn copied(
    alloc: Global,
    entries: &IndexMap<Name, (ModuleId, Option<ExternCrateId>)>,
) -> Result<IndexMap<Name, (ModuleId, Option<ExternCrateId>)>, AllocError>
    ensures value { IfOk result (λ copy. copy.entries ≡ entries.now.entries) }
{
    let mut copy = IndexMap::new(alloc);
    let mut left = entries.iter();
    'next: while let Some((name, entry)) = left.next() {
        copy.insert(name.clone()?, *entry)?;
    }
    Ok(copy)
}

/// Whether two names stand for the same crate, named by the same `extern crate`.
fn is_same_entry(
    name: &Name,
    entry: (ModuleId, Option<ExternCrateId>),
    another: &Name,
    other: (ModuleId, Option<ExternCrateId>),
) -> bool
    ensures value { result ≡ same_extern (name.now, entry) (another.now, other) }
{
    name == another && entry.0 == other.0 && entry.1 == other.1
}

/// Feeds one of the crates to a hasher.
fn feed<H: Hasher>(name: &Name, entry: (ModuleId, Option<ExternCrateId>), state: &mut H)
    ensures fed { state.new ≡ fold H.write state.old (fed_entry (name.now, entry)) }
{
    name.hash(state);
    entry.hash(state);
}

impl PartialEq for LocalDefMap {
    ghost use Rattle.std.specs.Cmp.{partial_equiv_from_equiv};
    ghost use Rattle.hir_map_parts.specs.Equality.{same_local, same_local_equiv};

    ghost eq = { same_local };

    ghost laws = { partial_equiv_from_equiv same_local_equiv };

    fn eq(&self, other: &LocalDefMap) -> bool {
        let mut left = self.extern_prelude.iter();
        let mut others = other.extern_prelude.iter();
        'next: while let Some((name, entry)) = left.next() {
            match others.next() {
                Some((another, other)) => {
                    if !is_same_entry(name, *entry, another, *other) {
                        return false;
                    }
                }
                None => return false,
            }
        }
        others.next().is_none()
    }
}

impl Eq for LocalDefMap {
    ghost use Rattle.hir_map_parts.specs.Equality.{same_local_equiv};

    ghost laws = { same_local_equiv };
}

/// Equal values hash alike, as `respects_eq` says.
impl Hash for LocalDefMap {
    ghost use Rattle.hir_map_parts.specs.Inner.LocalHash.{fed_local, local_alike};

    ghost hash_input = { fed_local };

    ghost respects_eq = { local_alike.fed };

    fn hash<H: Hasher>(&self, state: &mut H) {
        state.write_usize(self.extern_prelude.len());
        let mut left = self.extern_prelude.iter();
        'next: while let Some((name, entry)) = left.next() {
            feed(name, *entry, state);
        }
    }
}
