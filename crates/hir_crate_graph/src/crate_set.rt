//! Sets of crates.
ghost use Rattle.std.specs.Prelude.{◌≡◌, ◌↔◌, ◌≤◌, ◌^◌, [], length, IsTrue, OnOk, OnErr, IfOk};
ghost use Rattle.hir_crate_graph.specs.CrateSet.{same_crate, has_crate, Gains, IsAscending};

use crate::crates::Crates;
use crate::words::{has_bit, lengthen, set_all, set_bit};
use hir_ids::ids::Crate;
use std::alloc::{AllocError, Global};
use std::marker::Model;

/// A set of crates: a row of bits, one for each number up to the greatest crate's.
#[derive(Drop)]
pub struct CrateSet {
    words: Vec<u64>,
}

impl Model for CrateSet {
    ghost use Rattle.std.specs.Prelude.{List, ◌≤◌, vec_len};
    ghost use Rattle.hir_ids.specs.declared.ids.Crate.{Crate};
    ghost use Rattle.hir_crate_graph.specs.Bits.{members};

    ghost Value = { List Crate };

    ghost view = { λ s. members s.words.items };

    ghost invariant = { λ s. vec_len s.words ≤ 67108864 };
}

impl CrateSet {
    /// A set without crates.
    pub fn new(alloc: Global) -> CrateSet
        ensures value { result ≡ [] }
    {
        CrateSet {
            words: Vec::new(alloc),
        }
    }

    /// Whether a crate is in the set.
    pub fn contains(&self, krate: Crate) -> bool
        ensures value { result ≡ has_crate self.now krate }
    {
        has_bit(self.words.as_slice(), krate.0 as usize)
    }

    /// Adds a crate.
    pub fn insert(&mut self, krate: Crate) -> Result<(), AllocError>
        ensures ok { OnOk result (Gains self.old self.new (λ c. same_crate c krate)) }
        ensures ascending { IsAscending self.new }
        ensures err { OnErr result (self.new ≡ self.old) }
    {
        let place = krate.0 as usize;
        lengthen(&mut self.words, place / 64 + 1)?;
        set_bit(self.words.as_mut_slice(), place);
        Ok(())
    }

    /// Adds the crates of another set.
    pub fn union_with(&mut self, other: &CrateSet) -> Result<(), AllocError>
        ensures ok { OnOk result (Gains self.old self.new (has_crate other.now)) }
        ensures ascending { IsAscending self.new }
        ensures err { OnErr result (self.new ≡ self.old) }
    {
        lengthen(&mut self.words, other.words.len())?;
        set_all(self.words.as_mut_slice(), other.words.as_slice());
        Ok(())
    }

    /// The crates in ascending order, which can be taken from the back too.
    pub fn iter(&self) -> Crates<'_>
        ensures value { result ≡ self.now }
        ensures ascending { IsAscending self.now }
        ensures few { length self.now ≤ 2 ^ 32 }
    {
        Crates::new(self.words.as_slice())
    }

    /// How many crates are in the set. It goes over them.
    pub fn len(&self) -> usize
        ensures value { result ≡ length self.now }
    {
        self.iter().count()
    }

    /// Whether no crate is in the set.
    pub fn is_empty(&self) -> bool
        ensures value { IsTrue result ↔ (self.now ≡ []) }
    {
        self.iter().next().is_none()
    }

    /// The same set.
    pub fn clone(&self) -> Result<CrateSet, AllocError>
        ensures value { IfOk result (λ set. set ≡ self.now) }
    {
        Ok(CrateSet {
            words: self.words.clone()?,
        })
    }
}

/// Whether two sets have the same crates.
impl PartialEq for CrateSet {
    ghost use Rattle.std.specs.Cmp.{partial_equiv_from_equiv};
    ghost use Rattle.hir_crate_graph.specs.CrateSet.{same_crates, same_crates_equiv};

    ghost eq = { same_crates };

    ghost laws = { partial_equiv_from_equiv same_crates_equiv };

    fn eq(&self, other: &CrateSet) -> bool {
        let mut left = self.iter();
        let mut others = other.iter();
        'next: while let Some(krate) = left.next() {
            match others.next() {
                Some(another) => {
                    if krate != another {
                        return false;
                    }
                }
                None => return false,
            }
        }
        others.next().is_none()
    }
}

impl Eq for CrateSet {
    ghost use Rattle.hir_crate_graph.specs.CrateSet.{same_crates_equiv};

    ghost laws = { same_crates_equiv };
}
