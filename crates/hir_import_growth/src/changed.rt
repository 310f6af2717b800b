//! Which slots may have changed, and on which items helpers came into scope.
ghost use Rattle.std.specs.Prelude.{◌≡◌, ◌∷◌, [], OnOk};
ghost use Rattle.hir_import_rules.specs.Changed.{everything, joined, nothing, with_item, with_preludes, with_slot, with_slots};

use hir_base::ast_id::AstId;
use hir_base::name::Name;
use hir_nameres::nameres::path_resolution::slots::Slot;
use std::alloc::{AllocError, Global};
use std::marker::Model;

/// The slots of paths that may stand for something else than they did, and the items on which helpers of derives came into
/// scope.
#[derive(Drop)]
pub struct Changed {
    all: bool,
    slots: Vec<Slot>,
    items: Vec<AstId>,
}

impl Model for Changed {
    ghost use Rattle.hir_import_rules.specs.Changed.{ChangedValue};

    ghost Value = { ChangedValue };

    ghost view = { λ c. record { all = c.all; slots = c.slots.items; items = c.items.items } };
}

impl Changed {
    /// Any slot.
    pub fn everything(alloc: Global) -> Changed
        ensures value { result ≡ everything }
    {
        Changed {
            all: true,
            slots: Vec::new(alloc),
            items: Vec::new(alloc),
        }
    }

    /// Whether any slot may stand for something else.
    pub fn is_everything(&self) -> bool
        ensures value { result ≡ self.now.all }
    {
        self.all
    }

    /// The slots that may, unless any slot may.
    pub fn slots(&self) -> &[Slot]
        ensures value { result.now ≡ self.now.slots }
    {
        self.slots.as_slice()
    }

    /// The items on which helpers came into scope, unless any slot may stand for something else.
    pub fn items(&self) -> &[AstId]
        ensures value { result.now ≡ self.now.items }
    {
        self.items.as_slice()
    }

    /// Adds the slot of a name in a module.
    pub fn add(&mut self, at: u32, name: &Name) -> Result<(), AllocError>
        ensures ok { OnOk result (self.new ≡ with_slot at name.now self.old) }
    {
        if self.all {
            return Ok(());
        }
        self.slots.push(Slot::Module(at, name.clone()?))?;
        Ok(())
    }

    /// Adds the slot of a name in the preludes.
    pub fn add_prelude(&mut self, name: &Name) -> Result<(), AllocError>
        ensures ok { OnOk result (self.new ≡ with_preludes name.now self.old) }
    {
        if !self.all {
            self.slots.push(Slot::Preludes(name.clone()?))?;
        }
        Ok(())
    }

    /// Adds an item on which a helper came into scope.
    pub fn add_item(&mut self, item: AstId) -> Result<(), AllocError>
        ensures ok { OnOk result (self.new ≡ with_item item self.old) }
    {
        if self.is_everything() {
            return Ok(());
        }
        self.items.push(item)?;
        Ok(())
    }

    /// Adds a slot.
    fn add_slot(&mut self, slot: &Slot) -> Result<(), AllocError>
        ensures ok { OnOk result (self.new ≡ with_slots (slot.now ∷ []) self.old) }
    {
        match slot {
            Slot::Module(at, name) => self.add(*at, name),
            Slot::Preludes(name) => self.add_prelude(name),
        }
    }

    /// Adds slots.
    pub fn add_each(&mut self, slots: &[Slot]) -> Result<(), AllocError>
        ensures ok { OnOk result (self.new ≡ with_slots slots.now self.old) }
    {
        let mut left = slots;
        'next: while let [slot, others @ ..] = left {
            self.add_slot(slot)?;
            left = others;
        }
        Ok(())
    }

    /// Adds the slots of another, all where any may have changed there.
    pub fn append(&mut self, other: &Changed) -> Result<(), AllocError>
        ensures ok { OnOk result (self.new ≡ joined self.old other.now) }
    {
        if other.all {
            self.add_everything();
            return Ok(());
        }
        self.add_each(other.slots())
    }

    /// Adds all slots.
    pub fn add_everything(&mut self)
        ensures value { self.new ≡ everything }
    {
        self.all = true;
        self.slots.clear();
        self.items.clear();
    }

    /// Leaves none.
    pub fn clear(&mut self)
        ensures value { self.new ≡ nothing }
    {
        self.all = false;
        self.slots.clear();
        self.items.clear();
    }
}
