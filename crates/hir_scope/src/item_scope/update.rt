//! Updates and removals of bindings, after rust-analyzer's `ItemScope`.
ghost use Rattle.std.specs.Prelude.{◌≡◌, ◌≢◌, ℕ, List, None, is_some, option_map, cond, IsTrue};
ghost use Rattle.hir_scope.specs.Bindings.{with_item_visibility, with_item_definition};
ghost use Rattle.hir_scope.specs.Entries.{item_at};
ghost use Rattle.hir_scope.specs.Scope.Updates.{with_visibility, with_definition, is_definition, without_definition};

use crate::item_scope::ItemScope;
use crate::per_ns::Item;
use crate::visibility::Visibility;
use hir_ids::ids::ModuleDefId;
use hir_ids::macro_kind::MacroId;
use hir_ids::name::Name;

/// An item with another visibility.
fn with_visibility<Def: Copy, Import: Copy>(
    item: Item<Def, Import>,
    vis: Visibility,
) -> Item<Def, Import>
    ensures value { result ≡ with_item_visibility vis item }
{
    Item {
        def: item.def,
        vis,
        import: item.import,
    }
}

/// An item with another definition and another visibility.
fn with_definition<Def: Copy, Import: Copy>(
    item: Item<Def, Import>,
    def: Def,
    vis: Visibility,
) -> Item<Def, Import>
    ensures value { result ≡ with_item_definition def vis item }
{
    Item {
        def,
        vis,
        import: item.import,
    }
}

impl ItemScope {
    /// Whether the name stands for a type.
    pub fn has_type(&self, name: &Name) -> bool
        ensures value { result ≡ is_some (item_at self.now.types name.now) }
    {
        self.type_item(name).is_some()
    }

    /// Whether the name stands for a value.
    pub fn has_value(&self, name: &Name) -> bool
        ensures value { result ≡ is_some (item_at self.now.values name.now) }
    {
        self.value_item(name).is_some()
    }

    /// Whether the name stands for a macro.
    pub fn has_macro(&self, name: &Name) -> bool
        ensures value { result ≡ is_some (item_at self.now.macros name.now) }
    {
        self.macro_item(name).is_some()
    }

    /// Changes who may see the type that the name stands for.
    pub fn update_visibility_types(&mut self, name: &Name, vis: Visibility)
        requires bound { IsTrue (is_some (item_at self.old.types name.now)) }
        ensures value { self.new ≡ record self.old { types = with_visibility self.old.types name.now vis } }
        ensures bound { item_at self.new.types name.now ≡ option_map (with_item_visibility vis) (item_at self.old.types name.now) }
        ensures others { (other : List ℕ) → other ≢ name.now → item_at self.new.types other ≡ item_at self.old.types other }
    {
        if let Some(item) = self.type_item(name) {
            self.names.set_type(name, with_visibility(item, vis));
        }
    }

    /// Changes the type that the name stands for, and who may see it.
    pub fn update_def_types(&mut self, name: &Name, def: ModuleDefId, vis: Visibility)
        requires bound { IsTrue (is_some (item_at self.old.types name.now)) }
        ensures value { self.new ≡ record self.old { types = with_definition self.old.types name.now def vis } }
        ensures bound { item_at self.new.types name.now ≡ option_map (with_item_definition def vis) (item_at self.old.types name.now) }
        ensures others { (other : List ℕ) → other ≢ name.now → item_at self.new.types other ≡ item_at self.old.types other }
    {
        if let Some(item) = self.type_item(name) {
            self.names.set_type(name, with_definition(item, def, vis));
        }
    }

    /// Changes who may see the value that the name stands for.
    pub fn update_visibility_values(&mut self, name: &Name, vis: Visibility)
        requires bound { IsTrue (is_some (item_at self.old.values name.now)) }
        ensures value { self.new ≡ record self.old { values = with_visibility self.old.values name.now vis } }
        ensures bound { item_at self.new.values name.now ≡ option_map (with_item_visibility vis) (item_at self.old.values name.now) }
        ensures others { (other : List ℕ) → other ≢ name.now → item_at self.new.values other ≡ item_at self.old.values other }
    {
        if let Some(item) = self.value_item(name) {
            self.names.set_value(name, with_visibility(item, vis));
        }
    }

    /// Changes the value that the name stands for, and who may see it.
    pub fn update_def_values(&mut self, name: &Name, def: ModuleDefId, vis: Visibility)
        requires bound { IsTrue (is_some (item_at self.old.values name.now)) }
        ensures value { self.new ≡ record self.old { values = with_definition self.old.values name.now def vis } }
        ensures bound { item_at self.new.values name.now ≡ option_map (with_item_definition def vis) (item_at self.old.values name.now) }
        ensures others { (other : List ℕ) → other ≢ name.now → item_at self.new.values other ≡ item_at self.old.values other }
    {
        if let Some(item) = self.value_item(name) {
            self.names.set_value(name, with_definition(item, def, vis));
        }
    }

    /// Changes who may see the macro that the name stands for.
    pub fn update_visibility_macros(&mut self, name: &Name, vis: Visibility)
        requires bound { IsTrue (is_some (item_at self.old.macros name.now)) }
        ensures value { self.new ≡ record self.old { macros = with_visibility self.old.macros name.now vis } }
        ensures bound { item_at self.new.macros name.now ≡ option_map (with_item_visibility vis) (item_at self.old.macros name.now) }
        ensures others { (other : List ℕ) → other ≢ name.now → item_at self.new.macros other ≡ item_at self.old.macros other }
    {
        if let Some(item) = self.macro_item(name) {
            self.names.set_macro(name, with_visibility(item, vis));
        }
    }

    /// Changes the macro that the name stands for, and who may see it.
    pub fn update_def_macros(&mut self, name: &Name, def: MacroId, vis: Visibility)
        requires bound { IsTrue (is_some (item_at self.old.macros name.now)) }
        ensures value { self.new ≡ record self.old { macros = with_definition self.old.macros name.now def vis } }
        ensures bound { item_at self.new.macros name.now ≡ option_map (with_item_definition def vis) (item_at self.old.macros name.now) }
        ensures others { (other : List ℕ) → other ≢ name.now → item_at self.new.macros other ≡ item_at self.old.macros other }
    {
        if let Some(item) = self.macro_item(name) {
            self.names.set_macro(name, with_definition(item, def, vis));
        }
    }

    /// Removes the value that the name stands for, if it is this definition.
    pub fn remove_from_value_ns(&mut self, name: &Name, def: ModuleDefId)
        ensures value { self.new ≡ record self.old { values = without_definition (⟦<ModuleDefId as PartialEq>⟧.eq) self.old.values name.now def } }
        ensures removed { item_at self.new.values name.now ≡ cond (is_definition (⟦<ModuleDefId as PartialEq>⟧.eq) def (item_at self.old.values name.now)) None (item_at self.old.values name.now) }
        ensures others { (other : List ℕ) → other ≢ name.now → item_at self.new.values other ≡ item_at self.old.values other }
    {
        self.bindings_ascend();
        if let Some(item) = self.value_item(name) {
            if item.def == def {
                self.names.remove_value(name);
            }
        }
    }
}
