//! The crates of a set, one after another.
ghost use Rattle.std.specs.Prelude.{◌≡◌, ◌≤◌, List, length};
ghost use Rattle.std.specs.Iterator.{YieldsFirst, YieldsLast, item_count};
ghost use Rattle.hir_crate_graph.specs.Bits.{members};

use crate::words::{first_from, last_below};
use hir_ids::ids::Crate;
use std::marker::Model;

/// The crates of a set in ascending order.
#[derive(Drop)]
pub struct Crates<'a> {
    words: &'a [u64],
    /// The places that are left: from this one on,
    from: usize,
    /// and below this one.
    to: usize,
}

impl<'a> Model for Crates<'a> {
    ghost use Rattle.std.specs.Prelude.{List, length, ◌≤◌, ◌*◌, ◌-◌};
    ghost use Rattle.hir_ids.specs.declared.ids.Crate.{Crate};
    ghost use Rattle.hir_crate_graph.specs.Bits.{has_bit};
    ghost use Rattle.hir_crate_graph.specs.CrateSet.{crates_from};

    ghost Value = { List Crate };

    ghost view = { λ walk. crates_from (has_bit walk.words.now) walk.from (walk.to - walk.from) };

    ghost invariant = { λ walk. (walk.from ≤ walk.to) × (walk.to ≤ 64 * length walk.words.now) × (length walk.words.now ≤ 67108864) };
}

impl<'a> Crates<'a> {
    pub(crate) fn new(words: &'a [u64]) -> Crates<'a>
        requires few { length words.now ≤ 67108864 }
        ensures value { result ≡ members words.entry.now }
    {
        Crates {
            words,
            from: 0,
            to: 64 * words.len(),
        }
    }
}

impl<'a> Iterator for Crates<'a> {
    type Item = Crate;

    ghost next_gives = { YieldsFirst (λ (left : List _). left) };

    ghost remaining = { item_count (λ (left : List _). left) };

    fn next(&mut self) -> Option<Crate> {
        match first_from(self.words, self.from, self.to) {
            Some(found) => {
                self.from = found + 1;
                Some(Crate(found as u32))
            }
            None => {
                self.from = self.to;
                None
            }
        }
    }
}

impl<'a> DoubleEndedIterator for Crates<'a> {
    ghost next_back_gives = { YieldsLast (λ (left : List _). left) };

    fn next_back(&mut self) -> Option<Crate> {
        match last_below(self.words, self.from, self.to) {
            Some(found) => {
                self.to = found;
                Some(Crate(found as u32))
            }
            None => {
                self.to = self.from;
                None
            }
        }
    }
}
