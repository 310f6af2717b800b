//! Which imports are to be tried.
ghost use Rattle.std.specs.Prelude.{◌≡◌, ◌≤◌, false, OnOk};
ghost use Rattle.hir_worklist.specs.Moves.{empty_queue};
ghost use Rattle.hir_worklist.specs.Queue.{count_of};
ghost use Rattle.hir_worklist.specs.Waking.{IsLonger};
ghost use Rattle.hir_import_resolution.specs.Inner.Queue.{IsWoken};
ghost use Rattle.hir_import_resolution.specs.Rounds.{is_lasting};

use hir_nameres::nameres::path_resolution::slots::Slot;
use hir_worklist::{Watchers, Worklist};
use std::alloc::{AllocError, Global};

/// Which imports of a map are to be tried, by their places, and what the others read when they were tried.
#[derive(Drop)]
pub struct ImportQueue {
    /// Whether finished maps don't refer to the map that is built.
    pub(crate) apart: bool,
    /// Whether what was found out of imports and globs lasts as the map grows.
    pub(crate) lasting: bool,
    /// The imports that are to be tried.
    pub(crate) worklist: Worklist,
    /// The imports by the slots that their last tries read.
    pub(crate) watchers: Watchers<Slot>,
}

impl ImportQueue {
    /// No imports; nothing that is found out of them lasts.
    pub fn none(alloc: Global) -> ImportQueue
        ensures value { is_lasting result ≡ false }
    {
        ImportQueue::new(alloc, false, false)
    }

    /// Whether what was found out of imports and globs lasts as the map grows, so that `resume_imports` may take them up.
    ///
    /// It doesn't in a block's map, nor where finished maps may refer to the map, where a path stops at an enum that has no
    /// variants yet or leads to a module that isn't there, where a glob leads out of such an enum, or where a visibility names
    /// such a module. No contract promises that it does elsewhere.
    pub fn lasts(&self) -> bool
        ensures value { result ≡ is_lasting self.now }
    {
        self.lasting
    }

    /// No imports.
    pub(crate) fn new(alloc: Global, apart: bool, lasting: bool) -> ImportQueue
        ensures apart { result.apart ≡ apart }
        ensures lasting { result.lasting ≡ lasting }
        ensures none { result.worklist ≡ empty_queue }
    {
        ImportQueue {
            apart,
            lasting,
            worklist: Worklist::new(alloc),
            watchers: Watchers::new(alloc),
        }
    }

    /// Queues the imports that came besides, so that there are so many.
    pub(crate) fn append(&mut self, count: usize) -> Result<(), AllocError>
        ensures longer { OnOk result (IsLonger self.old.worklist self.new.worklist) }
        ensures count { OnOk result (count_of self.old.worklist ≤ count → count_of self.new.worklist ≡ count) }
        ensures rest { self.new ≡ record self.old { worklist = self.new.worklist } }
    {
        self.worklist.append_to(count)
    }

    /// Queues the imports that read one of the slots; all where they watch nothing.
    pub(crate) fn wake(&mut self, slots: &[Slot]) -> Result<(), AllocError>
        ensures woken { OnOk result (IsWoken self.old.apart slots.now self.old.worklist self.old.watchers self.new.worklist self.new.watchers) }
        ensures apart { self.new.apart ≡ self.old.apart }
        ensures lasting { self.new.lasting ≡ self.old.lasting }
    {
        if self.apart {
            self.watchers.wake_each(slots, &mut self.worklist)
        } else {
            self.worklist.wake_all()
        }
    }
}
