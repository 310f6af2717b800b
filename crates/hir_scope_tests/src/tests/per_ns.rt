//! What a name stands for, by namespace.
use super::{
    adt, are_items, extern_crate, function, import, macro_of, module, structure, trait_of, use_item,
};
use hir_base::builtin_type::BuiltinType;
use hir_base::ids::{AdtId, Crate, EnumId, EnumVariantId, ItemLoc, ModuleDefId, ModuleId, UnionId};
use hir_base::macro_kind::{MacroCallStyles, MacroId};
use hir_scope::imports::{GlobId, ImportOrDef, ImportOrExternCrate, ImportOrGlob};
use hir_scope::item_in_ns::ItemInNs;
use hir_scope::per_ns::{Item, MacrosItem, Namespace, PerNs, TypesItem, ValuesItem};
use hir_scope::visibility::Visibility;
use std::process::Abort;

const PUBLIC: Visibility = Visibility::Public;

const IN_CRATE: Visibility = Visibility::PubCrate(Crate(0));

fn makro() -> MacroId {
    macro_of(3, MacroCallStyles::FN_LIKE)
}

/// The place of a node of the root.
fn loc(number: u16) -> ItemLoc<ModuleId> {
    use_item(0, number).loc
}

fn choice() -> EnumId {
    EnumId { loc: loc(1) }
}

fn variant() -> ModuleDefId {
    ModuleDefId::EnumVariantId(EnumVariantId {
        parent: choice(),
        id: loc(2).id,
    })
}

/// In which namespaces a definition is, if its constructor has this visibility.
fn has_namespaces(
    rt: &impl Abort,
    def: ModuleDefId,
    constructor: Option<Visibility>,
    namespaces: (bool, bool, bool),
) {
    let items = PerNs::from_def(def, PUBLIC, constructor, None);
    let found = (
        items.types.is_some(),
        items.values.is_some(),
        items.macros.is_some(),
    );
    assert!(rt; found == namespaces);
}

/// Of all definitions a struct and a variant alone may be in two.
#[test]
fn namespaces_of_definitions(rt: HostRuntime) {
    let in_types = [
        ModuleDefId::ModuleId(module(1)),
        ModuleDefId::AdtId(AdtId::UnionId(UnionId { loc: loc(1) })),
        ModuleDefId::AdtId(AdtId::EnumId(choice())),
        ModuleDefId::TraitId(trait_of(1)),
        ModuleDefId::BuiltinType(BuiltinType::Char),
    ];
    for def in &in_types {
        has_namespaces(&rt, *def, Some(PUBLIC), (true, false, false));
    }
    has_namespaces(&rt, function(1), Some(PUBLIC), (false, true, false));
    has_namespaces(
        &rt,
        ModuleDefId::MacroId(makro()),
        None,
        (false, false, true),
    );
    for def in &[structure(1), variant()] {
        has_namespaces(&rt, *def, None, (true, false, false));
        has_namespaces(&rt, *def, Some(IN_CRATE), (true, true, false));
    }
}

/// The constructor's visibility is the value's.
#[test]
fn visibility_of_a_constructor(rt: HostRuntime) {
    let items = PerNs::from_def(structure(1), PUBLIC, Some(IN_CRATE), None);
    let types = PerNs::types(structure(1), PUBLIC, None);
    let values = PerNs::values(structure(1), IN_CRATE, None);
    are_items(&rt, items, types.or(values));
}

/// A type and a value that an `extern crate` brought: the value has no import.
#[test]
fn values_have_no_extern_crate(rt: HostRuntime) {
    let by = ImportOrExternCrate::ExternCrate(extern_crate(1));
    let both = PerNs::both(structure(1), function(2), PUBLIC, Some(by));
    let types = PerNs::types(structure(1), PUBLIC, Some(by));
    let values = PerNs::values(function(2), PUBLIC, None);
    are_items(&rt, both, types.or(values));
    let of_function = PerNs::from_def(function(2), PUBLIC, None, Some(by));
    are_items(&rt, of_function, values);
}

/// A struct, a function and a macro.
fn full() -> PerNs {
    let items = PerNs::both(structure(1), function(2), PUBLIC, None);
    items.or(PerNs::macros(makro(), PUBLIC, None))
}

/// Each namespace by itself.
#[test]
fn items_by_namespace(rt: HostRuntime) {
    assert!(rt; full().take_types() == Some(structure(1)));
    assert!(rt; full().take_values() == Some(function(2)));
    assert!(rt; full().take_macros() == Some(makro()));
    assert!(rt; full().take_types_full() == full().types);
    assert!(rt; full().take_values_full() == full().values);
    assert!(rt; full().take_macros_full() == full().macros);
}

/// A struct that an `extern crate` brought.
fn in_types() -> TypesItem {
    Item {
        def: structure(1),
        vis: PUBLIC,
        import: Some(ImportOrExternCrate::ExternCrate(extern_crate(3))),
    }
}

/// A function that a glob brought.
fn in_values() -> ValuesItem {
    Item {
        def: function(2),
        vis: IN_CRATE,
        import: Some(ImportOrGlob::Glob(glob())),
    }
}

/// A macro that an import brought.
fn in_macros() -> MacrosItem {
    Item {
        def: makro(),
        vis: PUBLIC,
        import: Some(ImportOrExternCrate::Import(import(0, 1))),
    }
}

fn brought() -> PerNs {
    PerNs {
        types: Some(in_types()),
        values: Some(in_values()),
        macros: Some(in_macros()),
    }
}

/// Each namespace by itself, with who may see it and what brought it.
#[test]
fn whole_items_by_namespace(rt: HostRuntime) {
    assert!(rt; brought().take_types_full() == Some(in_types()));
    assert!(rt; brought().take_values_full() == Some(in_values()));
    assert!(rt; brought().take_macros_full() == Some(in_macros()));
    let none = PerNs::none();
    assert!(rt; none.take_types_full().is_none());
    assert!(rt; none.take_values_full().is_none());
    assert!(rt; none.take_macros_full().is_none());
}

fn namespace_of(item: ItemInNs) -> Namespace {
    match item {
        ItemInNs::Types(_) => Namespace::Types,
        ItemInNs::Values(_) => Namespace::Values,
        ItemInNs::Macros(_) => Namespace::Macros,
    }
}

const NAMESPACES: [Namespace; 3] = [Namespace::Types, Namespace::Values, Namespace::Macros];

/// Items come by namespace, and no two of these are equal.
#[test]
fn namespaces_in_order(rt: HostRuntime) {
    let mut items = brought().iter_items();
    for namespace in NAMESPACES {
        let found = items.next();
        assert!(rt; found.is_some_and(|(item, _)| namespace_of(item) == namespace));
        let alike = NAMESPACES.iter().filter(|other| **other == namespace);
        assert!(rt; alike.count() == 1);
    }
    assert!(rt; items.next().is_none());
}

#[test]
fn none_and_full(rt: HostRuntime) {
    let one = PerNs::types(structure(1), PUBLIC, None);
    assert!(rt; PerNs::none().is_none() && !PerNs::none().is_full());
    assert!(rt; !one.is_none() && !one.is_full());
    assert!(rt; !full().is_none() && full().is_full());
    are_items(&rt, PerNs::default(), PerNs::none());
}

/// The first one's items stay, and the second is asked for only where one is missing.
#[test]
fn one_or_another(rt: HostRuntime) {
    let one = PerNs::types(structure(1), PUBLIC, None);
    let other = PerNs::both(structure(4), function(2), PUBLIC, None);
    let joined = PerNs::both(structure(1), function(2), PUBLIC, None);
    are_items(&rt, one.or(other), joined);
    are_items(&rt, one.or_else(|| other), joined);
    let mut is_asked = false;
    let same = full().or_else(|| {
        is_asked = true;
        other
    });
    assert!(rt; !is_asked);
    are_items(&rt, same, full());
}

/// The items of one visibility, and all under another one.
#[test]
fn visibilities_of_items(rt: HostRuntime) {
    let types = PerNs::types(structure(1), PUBLIC, None);
    let values = PerNs::values(function(2), IN_CRATE, None);
    let items = types.or(values);
    are_items(&rt, items.filter_visibility(|vis| vis == PUBLIC), types);
    are_items(
        &rt,
        items.with_visibility(IN_CRATE),
        PerNs::both(structure(1), function(2), IN_CRATE, None),
    );
}

/// Types come before values, and values before macros.
#[test]
fn items_one_after_another(rt: HostRuntime) {
    let by = ImportOrGlob::Import(import(0, 1));
    let values = PerNs::values(function(2), PUBLIC, Some(by));
    let types = PerNs::types(structure(1), PUBLIC, None);
    let mut items = types.or(values).or(full()).iter_items();
    assert!(rt; items.next() == Some((ItemInNs::Types(structure(1)), None)));
    assert!(rt;
        items.next()
            == Some((
                ItemInNs::Values(function(2)),
                Some(ImportOrExternCrate::Import(import(0, 1)))
            ))
    );
    assert!(rt; items.next() == Some((ItemInNs::Macros(makro()), None)));
    assert!(rt; items.next().is_none());
}

/// An item's definition, and where it lies.
#[test]
fn items_of_namespaces(rt: HostRuntime) {
    let item = ItemInNs::Types(ModuleDefId::AdtId(adt(1)));
    assert!(rt; item.as_module_def_id() == Some(structure(1)));
    assert!(rt; (item.module(), item.krate()) == (Some(module(0)), Some(Crate(0))));
    let value = ItemInNs::Values(function(2));
    assert!(rt; value.as_module_def_id() == Some(function(2)));
    let item = ItemInNs::Macros(makro());
    assert!(rt; item.as_module_def_id().is_none());
    assert!(rt; (item.module(), item.krate()) == (Some(module(0)), Some(Crate(0))));
    let builtin = ItemInNs::Types(ModuleDefId::BuiltinType(BuiltinType::Char));
    assert!(rt; builtin.module().is_none() && builtin.krate().is_none());
}

fn glob() -> GlobId {
    GlobId {
        use_: use_item(0, 2),
        idx: 1,
    }
}

/// What brought an item: an import, a glob or an `extern crate`.
#[test]
fn what_brought_an_item(rt: HostRuntime) {
    let by = ImportOrExternCrate::Import(import(0, 1));
    assert!(rt; by.import_or_glob() == Some(ImportOrGlob::Import(import(0, 1))));
    assert!(rt; (by.import(), by.glob()) == (Some(import(0, 1)), None));
    assert!(rt; by.use_() == Some(use_item(0, 1)));
    let by = ImportOrExternCrate::Glob(glob());
    assert!(rt; by.import_or_glob() == Some(ImportOrGlob::Glob(glob())));
    assert!(rt; (by.import(), by.glob()) == (None, Some(glob())));
    assert!(rt; by.use_() == Some(use_item(0, 2)));
    let by = ImportOrExternCrate::ExternCrate(extern_crate(3));
    assert!(rt; by.import_or_glob().is_none());
    assert!(rt; (by.import(), by.glob()) == (None, None));
    assert!(rt; by.use_().is_none());
    assert!(rt; ImportOrGlob::Import(import(0, 1)).into_import() == Some(import(0, 1)));
    assert!(rt; ImportOrGlob::Glob(glob()).into_import().is_none());
}

/// What brought a value is what brings an item, and each of both what an import may have reached.
#[test]
fn what_an_import_reached(rt: HostRuntime) {
    let of_value = ImportOrGlob::Glob(glob());
    let of_item = ImportOrExternCrate::Glob(glob());
    assert!(rt; ImportOrExternCrate::from(of_value) == of_item);
    assert!(rt; ImportOrDef::from(of_value) == ImportOrDef::Glob(glob()));
    assert!(rt; ImportOrDef::from(of_item) == ImportOrDef::Glob(glob()));
    let of_value = ImportOrGlob::Import(import(0, 1));
    let of_item = ImportOrExternCrate::Import(import(0, 1));
    assert!(rt; ImportOrExternCrate::from(of_value) == of_item);
    assert!(rt; ImportOrDef::from(of_value) == ImportOrDef::Import(import(0, 1)));
    let declared = ImportOrExternCrate::ExternCrate(extern_crate(3));
    assert!(rt; ImportOrDef::from(declared) == ImportOrDef::ExternCrate(extern_crate(3)));
}
