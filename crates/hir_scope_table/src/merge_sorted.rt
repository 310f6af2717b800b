//! Two ascending walks as one.
ghost use Rattle.std.specs.Prelude.{◌≡◌, Option, List, None};
ghost use Rattle.std.specs.Option.{option_copied};
ghost use Rattle.std.specs.Iterator.{YieldsFirstRef};
ghost use Rattle.hir_scope_table.specs.Inner.Picked.{with_head, pick};
ghost use Rattle.hir_scope_table.specs.Merge.{merge};

use std::cmp::Ordering;

/// A walk over items in ascending order, each once.
pub trait SortedWalk<'a, K> {
    // the items that are left
    ghost left: { Self → List K };

    fn advance(&mut self) -> Option<&'a K>
        ensures first { YieldsFirstRef left self.old result self.new };
}

/// The items of two ascending walks in ascending order, each once.
#[derive(Drop)]
pub struct MergeSorted<'a, K, A, B> {
    first: A,
    second: B,
    // the next item of each walk, where it was taken out
    first_head: Option<&'a K>,
    second_head: Option<&'a K>,
}

impl<'a, K: Ord, A: SortedWalk<'a, K>, B: SortedWalk<'a, K>> MergeSorted<'a, K, A, B> {
    pub fn new(first: A, second: B) -> MergeSorted<'a, K, A, B>
        ensures value { ⟦<MergeSorted<'a, K, A, B> as SortedWalk<'a, K>>⟧.left result ≡ merge K.cmp (A.left first) (B.left second) }
    {
        MergeSorted {
            first,
            second,
            first_head: None,
            second_head: None,
        }
    }
}

/// Of the heads of two walks the one that comes first, and the heads that are left.
struct Picked<'a, K> {
    given: Option<&'a K>,
    first: Option<&'a K>,
    second: Option<&'a K>,
}

fn pick<'a, K: Ord>(first: Option<&'a K>, second: Option<&'a K>) -> Picked<'a, K>
    ensures given { option_copied result.given ≡ (pick K.cmp (option_copied first.entry) (option_copied second.entry)).given }
    ensures first { option_copied result.first ≡ (pick K.cmp (option_copied first.entry) (option_copied second.entry)).first }
    ensures second { option_copied result.second ≡ (pick K.cmp (option_copied first.entry) (option_copied second.entry)).second }
{
    let (given, first, second) = match (first, second) {
        (None, second) => (second, None, None),
        (Some(one), None) => (Some(one), None, None),
        (Some(one), Some(other)) => match one.cmp(other) {
            Ordering::Less => (Some(one), None, Some(other)),
            Ordering::Equal => (Some(one), None, None),
            Ordering::Greater => (Some(other), Some(one), None),
        },
    };
    Picked {
        given,
        first,
        second,
    }
}

impl<'a, K: Ord, A: SortedWalk<'a, K>, B: SortedWalk<'a, K>> SortedWalk<'a, K>
    for MergeSorted<'a, K, A, B> {
    ghost left = { λ walk. merge K.cmp (with_head (option_copied walk.first_head) (A.left walk.first))
        (with_head (option_copied walk.second_head) (B.left walk.second)) };

    #[tactic(auto, using(crate::proofs::Picks::picks))]
    fn advance(&mut self) -> Option<&'a K> {
        if self.first_head.is_none() {
            self.first_head = self.first.advance();
        }
        if self.second_head.is_none() {
            self.second_head = self.second.advance();
        }
        let Picked {
            given,
            first,
            second,
        } = pick(self.first_head, self.second_head);
        self.first_head = first;
        self.second_head = second;
        given
    }
}
