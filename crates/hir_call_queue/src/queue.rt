//! Which calls are to be tried.
ghost use Rattle.std.specs.Prelude.{◌≡◌, ◌≤◌, true, false, [], IfNone, IfOk, IfSome, OnOk, Some};
ghost use Rattle.std.specs.List.{All};
ghost use Rattle.hir_nameres.specs.Scoping.Slots.{slot_of};
ghost use Rattle.hir_worklist.specs.Moves.{Takes, closed, empty_queue, opened};
ghost use Rattle.hir_worklist.specs.Queue.{count_of};
ghost use Rattle.hir_worklist.specs.Settling.{WatchesEach};
ghost use Rattle.hir_worklist.specs.Waking.{IsLonger};
ghost use Rattle.hir_import_resolution.specs.Inner.Queue.{KeepsWatched, slot_cmp};
ghost use Rattle.hir_import_rules.specs.Changed.{IsThere};
ghost use Rattle.hir_call_queue.specs.Waking.{IsWatching, IsWoken, KeepsItems, is_apart, watches_item, with_worklist, worklist_of};

use hir_base::ast_id::AstId;
use hir_import_growth::Changed;
use hir_nameres::nameres::path_resolution::slots::{PathSlots, Slot, SlotRef};
use hir_worklist::{Watchers, Worklist};
use std::alloc::{AllocError, Global};

/// Which calls of a map are to be tried, by their places, and what the others read when they were tried.
#[derive(Drop)]
pub struct CallQueue {
    alloc: Global,
    /// Whether finished maps don't refer to the map that is built.
    apart: bool,
    /// The calls that are to be tried.
    worklist: Worklist,
    /// The calls by the slots that their last tries read.
    watchers: Watchers<Slot>,
    /// The attributes that were tried, by the items that they stand on.
    attributes: Watchers<AstId>,
}

/// Whether a slot is of a module that is there, or of the preludes.
fn is_there(slot: SlotRef<'_>, modules: u32) -> bool
    ensures there { result ≡ true → IsThere modules (slot_of slot.entry) }
{
    match slot {
        SlotRef::Module(at, _) => at < modules,
        SlotRef::Preludes(_) => true,
    }
}

/// Has a call watch slots, as far as their modules are there: whether all are.
fn watch_each(
    watchers: &mut Watchers<Slot>,
    i: usize,
    slots: PathSlots<'_>,
    modules: u32,
) -> Result<bool, AllocError>
    ensures each { IfOk result (λ there. there ≡ true → WatchesEach slot_cmp watchers.new i slots.entry × All (IsThere modules) slots.entry) }
    ensures others { OnOk result (KeepsWatched watchers.old watchers.new) }
{
    for slot in slots {
        if !is_there(slot, modules) {
            return Ok(false);
        }
        watchers.watch(i, slot.to_slot()?)?;
    }
    Ok(true)
}

/// Has an attribute watch the item that it stands on, if it is one.
fn watch_item(
    attributes: &mut Watchers<AstId>,
    i: usize,
    item: Option<AstId>,
) -> Result<(), AllocError>
    ensures watching { OnOk result ((on : AstId) → item ≡ Some on → watches_item attributes.new on i ≡ true) }
    ensures others { OnOk result (KeepsItems attributes.old attributes.new) }
{
    let Some(on) = item else {
        return Ok(());
    };
    attributes.watch(i, on)?;
    Ok(())
}

impl CallQueue {
    /// No calls.
    pub fn new(alloc: Global, apart: bool) -> CallQueue
        ensures apart { is_apart result ≡ apart }
        ensures none { worklist_of result ≡ empty_queue }
    {
        CallQueue {
            alloc,
            apart,
            worklist: Worklist::new(alloc),
            watchers: Watchers::new(alloc),
            attributes: Watchers::new(alloc),
        }
    }

    /// Queues the calls that came besides, so that there are so many.
    pub fn append(&mut self, count: usize) -> Result<(), AllocError>
        ensures longer { OnOk result (IsLonger (worklist_of self.old) (worklist_of self.new)) }
        ensures count { OnOk result (count_of (worklist_of self.old) ≤ count → count_of (worklist_of self.new) ≡ count) }
        ensures rest { self.new ≡ with_worklist self.old (worklist_of self.new) }
    {
        self.worklist.append_to(count)
    }

    /// Begins a pass over what is queued.
    pub fn open(&mut self)
        requires over { (worklist_of self.old).current ≡ [] }
        ensures value { self.new ≡ with_worklist self.old (opened (worklist_of self.old)) }
    {
        self.worklist.open();
    }

    /// Takes the next call that is left of the pass. Where none is, the pass is over.
    pub fn take(&mut self) -> Option<usize>
        ensures some { IfSome result (Takes (worklist_of self.old) (worklist_of self.new)) }
        ensures over { IfNone result ((worklist_of self.old).current ≡ []) }
        ensures none { IfNone result (worklist_of self.new ≡ closed (worklist_of self.old)) }
        ensures rest { self.new ≡ with_worklist self.old (worklist_of self.new) }
    {
        self.worklist.take()
    }

    /// Queues the calls that have read what may have changed, where not all may have, and the attributes of items on which
    /// helpers came into scope.
    fn wake_watching(&mut self, changed: &Changed) -> Result<(), AllocError>
        requires apart { is_apart self.old ≡ true }
        requires some { changed.now.all ≡ false }
        ensures woken { OnOk result (IsWoken changed.now self.old self.new) }
    {
        self.watchers
            .wake_each(changed.slots(), &mut self.worklist)?;
        self.attributes
            .wake_each(changed.items(), &mut self.worklist)?;
        Ok(())
    }

    /// Queues the calls that have read what may have changed, and the attributes of items on which helpers came into scope;
    /// all where they watch nothing.
    pub fn wake(&mut self, changed: &Changed) -> Result<(), AllocError>
        ensures woken { OnOk result (IsWoken changed.now self.old self.new) }
    {
        if self.apart && !changed.is_everything() {
            return self.wake_watching(changed);
        }
        self.watchers = Watchers::new(self.alloc);
        self.attributes = Watchers::new(self.alloc);
        self.worklist.wake_all()?;
        Ok(())
    }

    /// Has the call at the place, which was tried in vain, watch the slots that its path has read. Where one is of a module
    /// that isn't there, the call is queued instead. An attribute watches besides the item that it stands on.
    pub fn watch(
        &mut self,
        i: usize,
        slots: PathSlots<'_>,
        modules: u32,
        item: Option<AstId>,
    ) -> Result<(), AllocError>
        ensures watching { OnOk result (IsWatching modules slots.entry item i self.old self.new) }
    {
        if !self.apart {
            return Ok(());
        }
        watch_item(&mut self.attributes, i, item)?;
        let there = watch_each(&mut self.watchers, i, slots, modules)?;
        if there {
            return Ok(());
        }
        self.worklist.wake(i)?;
        Ok(())
    }
}
