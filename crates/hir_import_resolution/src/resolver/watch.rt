//! Which slots an import reads, and what is tried again when one changes.
ghost use Rattle.std.specs.Prelude.{◌≡◌, ◌++◌, [], true, IfOk, OnOk, length, option_copied};
ghost use Rattle.std.specs.List.{All};
ghost use Rattle.hir_worklist.specs.Settling.{WatchesEach};
ghost use Rattle.hir_import_resolution.specs.Inner.Queue.{IsWoken, KeepsWatched, WakesEach, reads_at, slot_cmp};
ghost use Rattle.hir_worklist.specs.Waking.{IsSamePass};
ghost use Rattle.hir_import_resolution.specs.Inner.State.{finished_by, path_slots, slots_named, state_by};
ghost use Rattle.hir_import_rules.specs.Lasting.{IsThere};

use crate::lasting::is_there;
use crate::resolver::Resolver;
use hir_base::name::Name;
use hir_import_rules::directive::ImportSource;
use hir_nameres::nameres::path_resolution::slots::{PathSlots, Slot};
use hir_nameres::nameres::path_resolution::{BuiltinShadowMode, ResolveMode};
use hir_worklist::{Watchers, Worklist};
use std::alloc::AllocError;

/// Has an import watch slots; whether all are of modules that are there.
fn watch_each(
    watchers: &mut Watchers<Slot>,
    i: usize,
    slots: PathSlots<'_>,
    modules: u32,
) -> Result<bool, AllocError>
    ensures each { OnOk result (WatchesEach slot_cmp watchers.new i slots.entry) }
    ensures there { IfOk result (λ there. there ≡ true → All (IsThere modules) slots.entry) }
    ensures others { OnOk result (KeepsWatched watchers.old watchers.new) }
{
    let mut there = true;
    for slot in slots {
        there = there && is_there(slot, modules);
        watchers.watch(i, slot.to_slot()?)?;
    }
    Ok(there)
}

/// Queues what watches the slot of a name in a module, if there is a name, and reports the slot.
fn wake_named(
    watchers: &mut Watchers<Slot>,
    worklist: &mut Worklist,
    reported: &mut Vec<Slot>,
    at: u32,
    name: Option<&Name>,
) -> Result<(), AllocError>
    ensures woken { OnOk result (WakesEach worklist.new watchers.new worklist.old watchers.old (slots_named at (option_copied name.entry))) }
    ensures pass { OnOk result (IsSamePass worklist.old worklist.new) }
    ensures reported { OnOk result (reported.new.items ≡ reported.old.items ++ slots_named at (option_copied name.entry)) }
{
    let Some(name) = name else {
        return Ok(());
    };
    let slot = Slot::Module(at, name.clone()?);
    watchers.wake_all(&slot, worklist)?;
    reported.push(slot)?;
    Ok(())
}

/// Queues what watches the slots of names, and reports those.
fn wake_each(
    watchers: &mut Watchers<Slot>,
    worklist: &mut Worklist,
    reported: &mut Vec<Slot>,
    slots: &[hir_glob_imports::Slot],
) -> Result<(), AllocError>
    ensures woken { OnOk result (WakesEach worklist.new watchers.new worklist.old watchers.old (path_slots slots.now)) }
    ensures pass { OnOk result (IsSamePass worklist.old worklist.new) }
    ensures reported { OnOk result (reported.new.items ≡ reported.old.items ++ path_slots slots.now) }
{
    for slot in slots {
        wake_named(watchers, worklist, reported, slot.at, slot.key.name())?;
    }
    Ok(())
}

impl Resolver<'_> {
    /// Has the import at the place watch each slot that its path reads now. Where one is of a module that isn't there, nothing
    /// lasts.
    pub(crate) fn watch(&mut self, i: usize) -> Result<(), AllocError>
        ensures rest { self.new ≡ record self.old { watchers = self.new.watchers; lasting = self.new.lasting } }
        ensures lasted { self.new.lasting ≡ true → self.old.lasting ≡ true }
        ensures there { OnOk result (self.new.lasting ≡ true → All (IsThere (length self.old.scopes.map.modules)) (reads_at self.old.apart (finished_by self.old) (state_by self.old) i)) }
        ensures each { OnOk result (WatchesEach slot_cmp self.new.watchers i (reads_at self.old.apart (finished_by self.old) (state_by self.old) i)) }
        ensures others { OnOk result (KeepsWatched self.old.watchers self.new.watchers) }
    {
        if !self.apart {
            return Ok(());
        }
        let Some(import) = self.imports.get(i) else {
            return Ok(());
        };
        let ImportSource::Use { .. } = import.source else {
            return Ok(());
        };
        let path = import.path.to_path(self.alloc)?;
        let slots = self.scopes.maps().path_slots(
            Some(&self.local),
            ResolveMode::Import,
            self.scopes.module_id(import.home),
            &path,
            BuiltinShadowMode::Module,
            None,
        );
        let there = watch_each(
            &mut self.watchers,
            i,
            slots,
            self.scopes.map().module_count(),
        )?;
        self.lasting = self.lasting && there;
        Ok(())
    }

    /// Queues what watches the slot of a name in a module, if there is a name, and reports the slot; queues all imports where
    /// they watch nothing.
    pub(crate) fn wake(&mut self, at: u32, name: Option<&Name>) -> Result<(), AllocError>
        ensures rest { self.new ≡ record self.old { worklist = self.new.worklist; watchers = self.new.watchers; reported = self.new.reported } }
        ensures reported { OnOk result (self.old.apart ≡ true → self.new.reported.items ≡ self.old.reported.items ++ slots_named at (option_copied name.entry)) }
        ensures woken { OnOk result (IsWoken self.old.apart (slots_named at (option_copied name.entry)) self.old.worklist self.old.watchers self.new.worklist self.new.watchers) }
    {
        if self.apart {
            wake_named(
                &mut self.watchers,
                &mut self.worklist,
                &mut self.reported,
                at,
                name,
            )
        } else {
            self.worklist.wake_all()
        }
    }

    /// Queues what watches the slots that a wave has changed, and reports those; queues all imports where they watch nothing.
    pub(crate) fn wake_changes(&mut self) -> Result<(), AllocError>
        ensures rest { OnOk result (self.new ≡ record self.old { worklist = self.new.worklist; watchers = self.new.watchers; changes = self.new.changes; reported = self.new.reported }) }
        ensures reported { OnOk result (self.old.apart ≡ true → self.new.reported.items ≡ self.old.reported.items ++ path_slots self.old.changes.items) }
        ensures woken { OnOk result (IsWoken self.old.apart (path_slots self.old.changes.items) self.old.worklist self.old.watchers self.new.worklist self.new.watchers) }
        ensures changes { OnOk result (self.new.changes.items ≡ []) }
    {
        if self.apart {
            wake_each(
                &mut self.watchers,
                &mut self.worklist,
                &mut self.reported,
                self.changes.as_slice(),
            )?;
        } else {
            self.worklist.wake_all()?;
        }
        self.changes.clear();
        Ok(())
    }
}
