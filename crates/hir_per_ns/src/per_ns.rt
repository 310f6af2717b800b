//! What a name stands for in each namespace, after rust-analyzer's `per_ns.rs`.
ghost use Rattle.std.specs.Prelude.{◌≡◌, Bool, true, false};
ghost use Rattle.hir_per_ns.specs.PerNs.{nothing, types_only, values_only, macros_only, types_and_values, value_import, with_constructor, per_ns_of, is_full, is_nothing, def_of, or_of, keep_of, seen_as, item_seen_as, Passes, PassInOrder};
ghost use Rattle.hir_per_ns.specs.declared.visibility.Visibility.{Visibility};
ghost use Rattle.hir_per_ns.specs.declared.per_ns.PerNs.{PerNs};

use crate::imports::{ImportOrExternCrate, ImportOrGlob};
use crate::visibility::Visibility;
use hir_ids::ids::{AdtId, ModuleDefId};
use hir_ids::macro_kind::MacroId;

#[derive(Clone, Copy, Debug, PartialEq, Eq, Hash)]
pub enum Namespace {
    Types,
    Values,
    Macros,
}

/// What a name stands for in one namespace: the definition, who may see it there, and what brought it.
pub type Item<Def, Import> = hir_scope_item::item::Item<Def, Visibility, Import>;

pub type TypesItem = Item<ModuleDefId, ImportOrExternCrate>;

pub type ValuesItem = Item<ModuleDefId, ImportOrGlob>;

pub type MacrosItem = Item<MacroId, ImportOrExternCrate>;

/// What a name stands for, by namespace.
#[derive(Clone, Copy, Debug, PartialEq, Eq, Hash)]
pub struct PerNs {
    pub types: Option<TypesItem>,
    pub values: Option<ValuesItem>,
    pub macros: Option<MacrosItem>,
}

impl Default for PerNs {
    ghost is_default = { λ items. items ≡ nothing };

    fn default() -> PerNs {
        PerNs::none()
    }
}

impl PerNs {
    pub fn none() -> PerNs
        ensures value { result ≡ nothing }
    {
        PerNs {
            types: None,
            values: None,
            macros: None,
        }
    }

    /// A definition in values alone.
    pub fn values(def: ModuleDefId, vis: Visibility, import: Option<ImportOrGlob>) -> PerNs
        ensures value { result ≡ values_only def vis import }
    {
        PerNs {
            types: None,
            values: Some(Item { def, vis, import }),
            macros: None,
        }
    }

    /// A definition in types alone.
    pub fn types(def: ModuleDefId, vis: Visibility, import: Option<ImportOrExternCrate>) -> PerNs
        ensures value { result ≡ types_only def vis import }
    {
        PerNs {
            types: Some(Item { def, vis, import }),
            values: None,
            macros: None,
        }
    }

    /// A type and a value under one visibility. Values have no import of an `extern crate`.
    pub fn both(
        types: ModuleDefId,
        values: ModuleDefId,
        vis: Visibility,
        import: Option<ImportOrExternCrate>,
    ) -> PerNs
        ensures value { result ≡ types_and_values types vis values vis import }
    {
        PerNs {
            types: Some(Item {
                def: types,
                vis,
                import,
            }),
            values: Some(Item {
                def: values,
                vis,
                import: value_import(import),
            }),
            macros: None,
        }
    }

    pub fn macros(def: MacroId, vis: Visibility, import: Option<ImportOrExternCrate>) -> PerNs
        ensures value { result ≡ macros_only def vis import }
    {
        PerNs {
            types: None,
            values: None,
            macros: Some(Item { def, vis, import }),
        }
    }

    /// A definition in its namespaces. A struct and a variant are values too where their constructor has a
    /// visibility there.
    pub fn from_def(
        def: ModuleDefId,
        vis: Visibility,
        value_ns_ctor_vis: Option<Visibility>,
        import: Option<ImportOrExternCrate>,
    ) -> PerNs
        ensures value { result ≡ per_ns_of def vis value_ns_ctor_vis import }
    {
        match def {
            ModuleDefId::ModuleId(_)
            | ModuleDefId::AdtId(AdtId::UnionId(_))
            | ModuleDefId::AdtId(AdtId::EnumId(_))
            | ModuleDefId::TraitId(_)
            | ModuleDefId::TypeAliasId(_)
            | ModuleDefId::BuiltinType(_) => PerNs::types(def, vis, import),
            ModuleDefId::FunctionId(_) | ModuleDefId::ConstId(_) | ModuleDefId::StaticId(_) => {
                PerNs::values(def, vis, value_import(import))
            }
            ModuleDefId::AdtId(AdtId::StructId(_)) | ModuleDefId::EnumVariantId(_) => {
                with_constructor(def, vis, value_ns_ctor_vis, import)
            }
            ModuleDefId::MacroId(id) => PerNs::macros(id, vis, import),
        }
    }

    pub fn is_none(&self) -> bool
        ensures value { result ≡ is_nothing self.now }
    {
        self.types.is_none() && self.values.is_none() && self.macros.is_none()
    }

    pub fn is_full(&self) -> bool
        ensures value { result ≡ is_full self.now }
    {
        self.types.is_some() && self.values.is_some() && self.macros.is_some()
    }

    pub fn take_types(self) -> Option<ModuleDefId>
        ensures value { result ≡ def_of self.types }
    {
        self.types.map(|item| item.def)
    }

    pub fn take_types_full(self) -> Option<TypesItem>
        ensures value { result ≡ self.types }
    {
        self.types
    }

    pub fn take_values(self) -> Option<ModuleDefId>
        ensures value { result ≡ def_of self.values }
    {
        self.values.map(|item| item.def)
    }

    pub fn take_values_full(self) -> Option<ValuesItem>
        ensures value { result ≡ self.values }
    {
        self.values
    }

    pub fn take_macros(self) -> Option<MacroId>
        ensures value { result ≡ def_of self.macros }
    {
        self.macros.map(|item| item.def)
    }

    pub fn take_macros_full(self) -> Option<MacrosItem>
        ensures value { result ≡ self.macros }
    {
        self.macros
    }

    /// The items whose visibility passes the test, which is asked once for each item: types, values, macros.
    pub fn filter_visibility<F: FnMut(Visibility) -> bool + Drop>(self, mut test: F) -> PerNs
        requires { F.IsAlwaysCallable test }
        ensures asked { PassInOrder F.step test self result }
        ensures value { (keep : Visibility → Bool)
            → ((state : F) (vis : Visibility) (answer : Bool) (left : F) → F.step state vis answer left → answer ≡ keep vis)
            → result ≡ keep_of keep self }
    {
        let types = passing(self.types, &mut test);
        let values = passing(self.values, &mut test);
        let macros = passing(self.macros, &mut test);
        PerNs {
            types,
            values,
            macros,
        }
    }

    /// The same items, each under this visibility.
    pub fn with_visibility(self, vis: Visibility) -> PerNs
        ensures value { result ≡ seen_as vis self }
    {
        PerNs {
            types: item_seen_as(self.types, vis),
            values: item_seen_as(self.values, vis),
            macros: item_seen_as(self.macros, vis),
        }
    }

    /// In each namespace this one's item, or else the other's.
    pub fn or(self, other: PerNs) -> PerNs
        ensures value { result ≡ or_of self other }
    {
        PerNs {
            types: self.types.or(other.types),
            values: self.values.or(other.values),
            macros: self.macros.or(other.macros),
        }
    }

    /// `or`, where the other is computed only if some namespace is empty.
    pub fn or_else<F: FnOnce() -> PerNs + Drop>(self, other: F) -> PerNs
        requires { is_full self ≡ false → F.pre other }
        ensures asked { is_full self ≡ false → (given : PerNs) × F.post other given × (result ≡ or_of self given) }
        ensures full { is_full self ≡ true → result ≡ self }
    {
        if self.is_full() {
            self
        } else {
            self.or(other())
        }
    }
}

/// The item, if it passes the test, which is asked about its visibility.
fn passing<Def: Copy, Import: Copy, F: FnMut(Visibility) -> bool>(
    item: Option<Item<Def, Import>>,
    test: &mut F,
) -> Option<Item<Def, Import>>
    requires { F.IsAlwaysCallable test.old }
    ensures asked { Passes F.step test.old item result test.new }
    ensures callable { F.IsAlwaysCallable test.new }
{
    match item {
        Some(item) if test(item.vis) => Some(item),
        _ => None,
    }
}

fn item_seen_as<Def: Copy, Import: Copy>(
    item: Option<Item<Def, Import>>,
    vis: Visibility,
) -> Option<Item<Def, Import>>
    ensures value { result ≡ item_seen_as vis item }
{
    match item {
        Some(item) => Some(Item {
            def: item.def,
            vis,
            import: item.import,
        }),
        None => None,
    }
}

/// The import that a value is brought by: an `extern crate` brings none.
pub fn value_import(import: Option<ImportOrExternCrate>) -> Option<ImportOrGlob>
    ensures value { result ≡ value_import import }
{
    match import {
        Some(import) => import.import_or_glob(),
        None => None,
    }
}

fn with_constructor(
    def: ModuleDefId,
    vis: Visibility,
    constructor: Option<Visibility>,
    import: Option<ImportOrExternCrate>,
) -> PerNs
    ensures value { result ≡ with_constructor def vis constructor import }
{
    let types = PerNs::types(def, vis, import);
    match constructor {
        Some(vis) => types.or(PerNs::values(def, vis, value_import(import))),
        None => types,
    }
}
