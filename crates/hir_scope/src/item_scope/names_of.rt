//! The names under which an item is bound, after rust-analyzer's `name_of` and `names_of`. Both go over all names.
ghost use Rattle.std.specs.Prelude.{◌≡◌, List, ℕ};
ghost use Rattle.std.specs.Option.{option_map};
ghost use Rattle.hir_scope.specs.Scope.Reads.{names_with, names_of_item, first_in, lent_name, AsksInOrder};

use crate::item_in_ns::ItemInNs;
use crate::item_scope::ItemScope;
use crate::item_scope::iter::bindings::Bindings;
use crate::visibility::Visibility;
use hir_ids::name::Name;

impl ItemScope {
    /// The first name, by name, under which an item is bound; its visibility, and whether it has no import.
    pub fn name_of(&self, item: ItemInNs) -> Option<(&Name, Visibility, bool)>
        ensures value { option_map lent_name result ≡ first_in (names_of_item self.now item) }
    {
        match item {
            ItemInNs::Types(id) => first_name_of(self.types(), id),
            ItemInNs::Values(id) => first_name_of(self.values(), id),
            ItemInNs::Macros(id) => first_name_of(self.macros(), id),
        }
    }

    /// Asks about each name under which an item is bound, by name, until there is an answer: with its visibility, and whether
    /// it has no import.
    pub fn names_of<T, F: FnMut(&Name, Visibility, bool) -> Option<T> + Drop>(
        &self,
        item: ItemInNs,
        cb: F,
    ) -> Option<T>
        requires { F.IsAlwaysCallable cb }
        ensures value { AsksInOrder F.step cb (names_of_item self.now item) result }
    {
        match item {
            ItemInNs::Types(id) => ask_names(self.types(), id, cb),
            ItemInNs::Values(id) => ask_names(self.values(), id, cb),
            ItemInNs::Macros(id) => ask_names(self.macros(), id, cb),
        }
    }
}

fn first_name_of<'a, Def: Copy + PartialEq, Import: Copy>(
    entries: Bindings<'a, Def, Import>,
    def: Def,
) -> Option<(&'a Name, Visibility, bool)>
    ensures value { option_map lent_name result ≡ first_in (names_with Def.eq def entries.entry) }
{
    let mut left = entries;
    'next: while let Some((name, item)) = left.next() {
        if item.def == def {
            return Some((name, item.vis, item.import.is_none()));
        }
    }
    None
}

fn ask_names<
    'a,
    Def: Copy + PartialEq,
    Import: Copy,
    T,
    F: FnMut(&Name, Visibility, bool) -> Option<T> + Drop,
>(entries: Bindings<'a, Def, Import>, def: Def, mut cb: F) -> Option<T>
    requires { F.IsAlwaysCallable cb }
    ensures value { AsksInOrder F.step cb (names_with Def.eq def entries.entry) result }
{
    let mut left = entries;
    'next: while let Some((name, item)) = left.next() {
        if item.def == def {
            if let Some(answer) = cb(name, item.vis, item.import.is_none()) {
                return Some(answer);
            }
        }
    }
    None
}
