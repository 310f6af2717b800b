//! Who watches what.
ghost use Rattle.std.specs.Prelude.{◌≡◌, ℕ, false, OnOk, OnErr};
ghost use Rattle.hir_worklist.specs.Queue.{is_among};
ghost use Rattle.hir_worklist.specs.Moves.{Wakes, WakesSome};
ghost use Rattle.hir_worklist.specs.Waking.{IsSamePass, KeepsQueued, WakesEach};
ghost use Rattle.hir_worklist.specs.Watching.{is_watching, Forgets, IsSame, Watches};

use crate::worklist::Worklist;
use std::alloc::{AllocError, Global};
use std::collections::BTreeMap;

/// By slot, the positions of the things that watch it: those that read it when they were tried last, and that were not
/// woken since.
#[derive(Drop)]
pub struct Watchers<K: Ord> {
    positions: BTreeMap<K, Vec<usize>>,
}

/// Wakes the things at some positions.
fn wake_each(positions: &[usize], worklist: &mut Worklist) -> Result<(), AllocError>
    ensures ok { OnOk result (Wakes worklist.old worklist.new (λ p. is_among p positions.now)) }
    ensures err { OnErr result (WakesSome worklist.old worklist.new (λ p. is_among p positions.now)) }
{
    for position in positions {
        worklist.wake(*position)?;
    }
    Ok(())
}

impl<K: Ord + Drop> Watchers<K> {
    /// None.
    pub fn new(alloc: Global) -> Watchers<K>
        ensures none { (slot : K) (p : ℕ) → is_watching K.cmp result slot p ≡ false }
    {
        Watchers {
            positions: BTreeMap::new(alloc),
        }
    }

    /// Has the thing at a position watch a slot.
    pub fn watch(&mut self, position: usize, slot: K) -> Result<(), AllocError>
        ensures ok { OnOk result (Watches K.cmp self.old self.new slot position) }
        ensures err { OnErr result (IsSame K.cmp self.old self.new) }
    {
        let positions = self.positions.entry(slot)?.or_default();
        positions.push(position)?;
        Ok(())
    }

    /// Wakes all that watch a slot. They have to watch it anew when they are tried.
    ///
    /// Out of memory, some may have been woken, and all watch it still.
    pub fn wake_all(&mut self, slot: &K, worklist: &mut Worklist) -> Result<(), AllocError>
        ensures ok { OnOk result (Wakes worklist.old worklist.new (is_watching K.cmp self.old slot.now)) }
        ensures err { OnErr result (WakesSome worklist.old worklist.new (is_watching K.cmp self.old slot.now)) }
        ensures forgets { OnOk result (Forgets K.cmp self.old self.new slot.now) }
        ensures same { OnErr result (IsSame K.cmp self.old self.new) }
    {
        if let Some(positions) = self.positions.get(slot) {
            wake_each(positions.as_slice(), worklist)?;
            self.positions.remove(slot);
        }
        Ok(())
    }

    /// Wakes all that watch slots, one slot after another.
    pub fn wake_each(&mut self, slots: &[K], worklist: &mut Worklist) -> Result<(), AllocError>
        ensures woken { OnOk result (WakesEach K.cmp worklist.new self.new worklist.old self.old slots.now) }
        ensures pass { OnOk result (IsSamePass worklist.old worklist.new) }
        ensures queued { OnOk result (KeepsQueued worklist.old worklist.new) }
    {
        for slot in slots {
            self.wake_all(slot, worklist)?;
        }
        Ok(())
    }
}
