//! The items that a name stands for, one after another.
ghost use Rattle.std.specs.Prelude.{◌≡◌};
ghost use Rattle.std.specs.Iterator.{YieldsFirst, item_count};
ghost use Rattle.hir_per_ns.specs.PerNs.{items_of, items_left};

use crate::imports::ImportOrExternCrate;
use crate::item_in_ns::ItemInNs;
use crate::per_ns::PerNs;

/// The items of a name; see `PerNs::iter_items`.
#[derive(Clone, Copy)]
pub struct PerNsItems {
    left: PerNs,
}

impl PerNs {
    /// The items, each with what brought it: types, values, macros.
    pub fn iter_items(self) -> PerNsItems
        ensures value { items_left result ≡ items_of self }
    {
        PerNsItems { left: self }
    }
}

impl Iterator for PerNsItems {
    type Item = (ItemInNs, Option<ImportOrExternCrate>);

    ghost next_gives = { YieldsFirst items_left };

    ghost remaining = { item_count items_left };

    fn next(&mut self) -> Option<(ItemInNs, Option<ImportOrExternCrate>)> {
        if let Some(item) = self.left.types {
            self.left.types = None;
            return Some((ItemInNs::Types(item.def), item.import));
        }
        if let Some(item) = self.left.values {
            self.left.values = None;
            let import = match item.import {
                Some(import) => Some(ImportOrExternCrate::from(import)),
                None => None,
            };
            return Some((ItemInNs::Values(item.def), import));
        }
        if let Some(item) = self.left.macros {
            self.left.macros = None;
            return Some((ItemInNs::Macros(item.def), item.import));
        }
        None
    }
}
