//! What a scope's walks and look-ups give, and what its writes change.
use super::{
    FILE, empty_scope, function, import, macro_of, module, node, structure, trait_of, use_item,
};
use hir_base::ids::{
    ConstId, Crate, ExternBlockId, ImplId, ItemContainerId, ItemLoc, ModuleDefId, UseId,
};
use hir_base::macro_kind::{MacroCallStyles, MacroId, ProcMacroId, ProcMacroLoc, ProcMacroStyle};
use hir_base::name::Name;
use hir_scope::glob_imports::PerNsGlobImports;
use hir_scope::imports::{ImportOrExternCrate, ImportOrGlob};
use hir_scope::item_in_ns::ItemInNs;
use hir_scope::item_scope::ItemScope;
use hir_scope::per_ns::PerNs;
use hir_scope::visibility::Visibility;
use std::alloc::{AllocError, Global};
use std::fmt::Write;
use std::process::Abort;
use std::test::Fail;

const PUBLIC: Visibility = Visibility::Public;

const IN_CRATE: Visibility = Visibility::PubCrate(Crate(0));

fn makro() -> MacroId {
    macro_of(4, MacroCallStyles::FN_LIKE)
}

fn proc_macro(number: u16) -> MacroId {
    MacroId::ProcMacroId(ProcMacroId {
        loc: ProcMacroLoc {
            container: module(0),
            file_id: FILE,
            block: None,
            id: node(number),
            style: ProcMacroStyle::FnLike,
        },
    })
}

/// Binds items to a name of the root, as the `use` of a node does if there is one.
fn bind(
    alloc: Global,
    scope: &mut ItemScope,
    name: &str,
    items: PerNs,
    by: Option<u16>,
) -> Result<(), Fail> {
    let mut globs = PerNsGlobImports::new(alloc);
    let name = Name::new(alloc, name)?;
    let by = match by {
        Some(number) => Some(ImportOrExternCrate::Import(import(0, number))),
        None => None,
    };
    scope.push_res_with_import(&mut globs, (module(0), name), items, by)?;
    Ok(())
}

/// Types: a struct under two names, a trait that is imported, and a module.
fn fill_types(alloc: Global, scope: &mut ItemScope) -> Result<(), Fail> {
    let id = structure(1);
    bind(alloc, scope, "S", PerNs::both(id, id, PUBLIC, None), None)?;
    bind(alloc, scope, "R", PerNs::types(id, PUBLIC, None), Some(5))?;
    let id = ModuleDefId::TraitId(trait_of(2));
    bind(alloc, scope, "T", PerNs::types(id, PUBLIC, None), Some(7))?;
    let id = ModuleDefId::ModuleId(module(1));
    bind(alloc, scope, "m", PerNs::types(id, IN_CRATE, None), None)
}

/// And a function that is imported, a macro, a name of nothing, and a trait without a name.
fn fill(alloc: Global, scope: &mut ItemScope) -> Result<(), Fail> {
    fill_types(alloc, scope)?;
    bind(
        alloc,
        scope,
        "a",
        PerNs::values(function(3), PUBLIC, None),
        Some(6),
    )?;
    bind(
        alloc,
        scope,
        "mac",
        PerNs::macros(makro(), PUBLIC, None),
        None,
    )?;
    bind(alloc, scope, "none", PerNs::none(), None)?;
    scope.push_unnamed_trait(trait_of(9), PUBLIC, Some(import(0, 8)))?;
    Ok(())
}

fn filled(alloc: Global) -> Result<Box<ItemScope>, Fail> {
    let mut scope = empty_scope(alloc)?;
    fill(alloc, &mut scope)?;
    Ok(scope)
}

/// Adds a letter for each namespace.
fn put_items(text: &mut String, items: PerNs) -> Result<(), AllocError> {
    if items.types.is_some() {
        text.push('t')?;
    }
    if items.values.is_some() {
        text.push('v')?;
    }
    if items.macros.is_some() {
        text.push('m')?;
    }
    text.push_str("; ")
}

fn entries(alloc: Global, scope: &ItemScope) -> Result<String, AllocError> {
    let mut text = String::new(alloc);
    for (name, items) in scope.entries() {
        text.push_str(name.as_str())?;
        text.push(' ')?;
        put_items(&mut text, items)?;
    }
    Ok(text)
}

fn resolutions(alloc: Global, scope: &ItemScope) -> Result<String, AllocError> {
    let mut text = String::new(alloc);
    for (name, items) in scope.resolutions() {
        match name {
            Some(name) => text.push_str(name.as_str())?,
            None => text.push('_')?,
        }
        text.push(' ')?;
        put_items(&mut text, items)?;
    }
    Ok(text)
}

/// Asserts a text; of all tests, so that the comparison is proved once.
fn is_text(rt: &impl Abort, found: &str, expected: &str) {
    assert_eq!(rt; found, expected);
}

/// Names come by their bytes, and those without one behind them.
fn names_in_order(rt: &impl Abort, alloc: Global, scope: &ItemScope) -> Result<(), AllocError> {
    let text = entries(alloc, scope)?;
    is_text(
        rt,
        text.as_str(),
        "R t; S tv; T t; a v; m t; mac m; none ; ",
    );
    let text = resolutions(alloc, scope)?;
    is_text(
        rt,
        text.as_str(),
        "R t; S tv; T t; a v; m t; mac m; none ; _ t; ",
    );
    Ok(())
}

fn push_name(text: &mut String, name: &Name) -> Result<(), AllocError> {
    text.push_str(name.as_str())?;
    text.push(' ')
}

/// The names of types, of values and of macros.
fn names_by_namespace(alloc: Global, scope: &ItemScope) -> Result<String, AllocError> {
    let mut text = String::new(alloc);
    for (name, _) in scope.types() {
        push_name(&mut text, name)?;
    }
    text.push_str("| ")?;
    for (name, _) in scope.values() {
        push_name(&mut text, name)?;
    }
    text.push_str("| ")?;
    for (name, _) in scope.macros() {
        push_name(&mut text, name)?;
    }
    Ok(text)
}

fn names_of_each_namespace(
    rt: &impl Abort,
    alloc: Global,
    scope: &ItemScope,
) -> Result<(), AllocError> {
    let text = names_by_namespace(alloc, scope)?;
    is_text(rt, text.as_str(), "R S T m | S a | mac ");
    Ok(())
}

/// The `use` items of the imports that are kept in mind, by their nodes.
fn imports(alloc: Global, scope: &ItemScope) -> Result<String, AllocError> {
    let mut text = String::new(alloc);
    for found in scope.imports() {
        let number = found.use_.loc.id.hash;
        write!(text, "{number} ")?;
    }
    Ok(text)
}

/// Imports are sorted.
fn imports_in_order(rt: &impl Abort, alloc: Global, scope: &ItemScope) -> Result<(), AllocError> {
    let text = imports(alloc, scope)?;
    is_text(rt, text.as_str(), "5 6 7 ");
    Ok(())
}

/// Traits that are bound come before those without a name.
fn modules_and_traits(rt: &impl Abort, scope: &ItemScope) {
    let mut modules = scope.modules_in_scope();
    assert!(rt; modules.next() == Some((module(1), IN_CRATE)));
    assert!(rt; modules.next().is_none());
    let mut traits = scope.traits();
    assert!(rt; traits.next() == Some(trait_of(2)));
    assert!(rt; traits.next() == Some(trait_of(9)));
    assert!(rt; traits.next().is_none());
    assert!(rt; scope.unnamed_trait_vis(trait_of(9)) == Some(PUBLIC));
    assert!(rt; scope.unnamed_trait_vis(trait_of(2)).is_none());
}

/// What a name stands for in one namespace.
fn items_of_a_struct(rt: &impl Abort, scope: &ItemScope, name: &Name) {
    assert!(rt; scope.type_(name) == Some((structure(1), PUBLIC)));
    assert!(rt; scope.makro(name).is_none());
    assert!(rt; scope.type_item(name) == scope.get(name).types);
    assert!(rt; scope.value_item(name) == scope.get(name).values);
}

fn items_of_a_macro(rt: &impl Abort, scope: &ItemScope, name: &Name) {
    assert!(rt; scope.type_(name).is_none());
    assert!(rt; scope.makro(name) == Some(makro()));
    assert!(rt; scope.macro_item(name) == scope.get(name).macros);
}

/// A value that an import brought has that import.
fn import_of_a_value(rt: &impl Abort, scope: &ItemScope, name: &Name) {
    let by = Some(ImportOrGlob::Import(import(0, 6)));
    assert!(rt; scope.get(name) == PerNs::values(function(3), PUBLIC, by));
}

fn items_of_names(rt: &impl Abort, alloc: Global, scope: &ItemScope) -> Result<(), Fail> {
    items_of_a_struct(rt, scope, &Name::new(alloc, "S")?);
    items_of_a_macro(rt, scope, &Name::new(alloc, "mac")?);
    import_of_a_value(rt, scope, &Name::new(alloc, "a")?);
    Ok(())
}

/// Whether an item is public and imported under this name.
fn is_imported_as(scope: &ItemScope, item: ItemInNs, expected: &str) -> bool {
    match scope.name_of(item) {
        Some((name, vis, is_declared)) => {
            name.as_str() == expected && vis == PUBLIC && !is_declared
        }
        None => false,
    }
}

/// Of the names of an item the first counts, and a caller may ask for another.
fn names_of_items(rt: &impl Abort, scope: &ItemScope) {
    let item = ItemInNs::Types(structure(1));
    assert!(rt; is_imported_as(scope, item, "R"));
    let found = scope.names_of(item, |name, _, is_declared| {
        if is_declared {
            Some(name.as_str().len())
        } else {
            None
        }
    });
    assert!(rt; found == Some(1));
    assert!(rt; scope.name_of(ItemInNs::Values(function(8))).is_none());
}

fn walks(rt: &impl Abort, alloc: Global, scope: &ItemScope) -> Result<(), AllocError> {
    names_in_order(rt, alloc, scope)?;
    names_of_each_namespace(rt, alloc, scope)?;
    imports_in_order(rt, alloc, scope)
}

fn walks_and_look_ups(rt: &impl Abort, alloc: Global, scope: &ItemScope) -> Result<(), Fail> {
    modules_and_traits(rt, scope);
    names_of_items(rt, scope);
    walks(rt, alloc, scope)?;
    items_of_names(rt, alloc, scope)
}

/// What one scope gives, walk after walk.
#[test]
fn reads(rt: HostRuntime) -> Result<(), Fail> {
    let alloc = rt.alloc();
    let scope = filled(alloc)?;
    walks_and_look_ups(&rt, alloc, &scope)
}

/// A trait that is imported without a name once more takes the visibility.
fn unnamed_trait_again(rt: &impl Abort, scope: &mut ItemScope) -> Result<(), Fail> {
    scope.push_unnamed_trait(trait_of(9), IN_CRATE, Some(import(0, 1)))?;
    assert!(rt; scope.unnamed_trait_vis(trait_of(9)) == Some(IN_CRATE));
    let mut traits = scope.unnamed_traits();
    assert!(rt; traits.next().is_some());
    assert!(rt; traits.next().is_none());
    Ok(())
}

/// Changes who may see the type, the value or the macro of a name, where it stands for one.
fn narrow(scope: &mut ItemScope, name: &Name) {
    if scope.has_type(name) {
        scope.update_visibility_types(name, IN_CRATE);
    }
    if scope.has_value(name) {
        scope.update_visibility_values(name, IN_CRATE);
    }
    if scope.has_macro(name) {
        scope.update_visibility_macros(name, IN_CRATE);
    }
}

/// Changes what it stands for, too.
fn replace(scope: &mut ItemScope, name: &Name) {
    if scope.has_type(name) {
        scope.update_def_types(name, structure(20), PUBLIC);
    }
    if scope.has_value(name) {
        scope.update_def_values(name, function(21), PUBLIC);
    }
    if scope.has_macro(name) {
        scope.update_def_macros(name, macro_of(22, MacroCallStyles::ATTR), PUBLIC);
    }
}

fn types_and_values(rt: &impl Abort, scope: &mut ItemScope, name: &Name) {
    narrow(scope, name);
    let id = structure(1);
    assert!(rt; scope.get(name) == PerNs::both(id, id, IN_CRATE, None));
    replace(scope, name);
    assert!(rt; scope.get(name) == PerNs::both(structure(20), function(21), PUBLIC, None));
}

fn updates_of_types_and_values(
    rt: &impl Abort,
    alloc: Global,
    scope: &mut ItemScope,
) -> Result<(), Fail> {
    types_and_values(rt, scope, &Name::new(alloc, "S")?);
    let other = Name::new(alloc, "R")?;
    assert!(rt; scope.type_(&other) == Some((structure(1), PUBLIC)));
    Ok(())
}

fn updates_of_macros(rt: &impl Abort, alloc: Global, scope: &mut ItemScope) -> Result<(), Fail> {
    let name = Name::new(alloc, "mac")?;
    narrow(scope, &name);
    assert!(rt; scope.get(&name) == PerNs::macros(makro(), IN_CRATE, None));
    replace(scope, &name);
    assert!(rt; scope.makro(&name) == Some(macro_of(22, MacroCallStyles::ATTR)));
    Ok(())
}

/// A value goes if it is the one that is meant.
fn removed_values(rt: &impl Abort, alloc: Global, scope: &mut ItemScope) -> Result<(), Fail> {
    let name = Name::new(alloc, "S")?;
    scope.remove_from_value_ns(&name, function(3));
    assert!(rt; scope.has_value(&name));
    scope.remove_from_value_ns(&name, structure(1));
    assert!(rt; !scope.has_value(&name));
    assert!(rt; scope.has_type(&name));
    Ok(())
}

/// Who may see a macro.
fn seen(alloc: Global, scope: &ItemScope, name: &str) -> Result<Option<Visibility>, Fail> {
    let name = Name::new(alloc, name)?;
    match scope.macro_item(&name) {
        Some(item) => Ok(Some(item.vis)),
        None => Ok(None),
    }
}

fn is_seen(
    rt: &impl Abort,
    alloc: Global,
    scope: &ItemScope,
    name: &str,
    vis: Visibility,
) -> Result<(), Fail> {
    assert!(rt; seen(alloc, scope, name)? == Some(vis), "{name}");
    Ok(())
}

fn bind_proc_macros(alloc: Global, scope: &mut ItemScope) -> Result<(), Fail> {
    let items = PerNs::macros(proc_macro(1), PUBLIC, None);
    bind(alloc, scope, "p", items, None)?;
    let items = PerNs::macros(proc_macro(2), PUBLIC, None);
    bind(alloc, scope, "q", items, Some(9))
}

/// Others see of a procedural macro's crate the procedural macros that it binds itself.
fn censored_root(rt: &impl Abort, alloc: Global, scope: &mut ItemScope) -> Result<(), Fail> {
    bind_proc_macros(alloc, scope)?;
    scope.censor_non_proc_macros(Crate(0));
    let id = structure(1);
    let items = scope.get(&Name::new(alloc, "S")?);
    assert!(rt; items == PerNs::both(id, id, IN_CRATE, None));
    assert!(rt; scope.unnamed_trait_vis(trait_of(9)) == Some(IN_CRATE));
    is_seen(rt, alloc, scope, "mac", IN_CRATE)?;
    is_seen(rt, alloc, scope, "p", PUBLIC)?;
    is_seen(rt, alloc, scope, "q", IN_CRATE)
}

/// What is done to a scope that is filled.
#[derive(Clone, Copy)]
enum Change {
    UnnamedTrait,
    TypesAndValues,
    Macros,
    Removal,
    Censor,
}

fn change_scope(
    rt: &impl Abort,
    alloc: Global,
    scope: &mut ItemScope,
    change: Change,
) -> Result<(), Fail> {
    match change {
        Change::UnnamedTrait => unnamed_trait_again(rt, scope),
        Change::TypesAndValues => updates_of_types_and_values(rt, alloc, scope),
        Change::Macros => updates_of_macros(rt, alloc, scope),
        Change::Removal => removed_values(rt, alloc, scope),
        Change::Censor => censored_root(rt, alloc, scope),
    }
}

fn changed(rt: &impl Abort, alloc: Global, change: Change) -> Result<(), Fail> {
    let mut scope = filled(alloc)?;
    change_scope(rt, alloc, &mut scope, change)
}

/// Each in a scope of its own.
#[test]
fn changes(rt: HostRuntime) -> Result<(), Fail> {
    let alloc = rt.alloc();
    changed(&rt, alloc, Change::UnnamedTrait)?;
    changed(&rt, alloc, Change::TypesAndValues)?;
    changed(&rt, alloc, Change::Macros)?;
    changed(&rt, alloc, Change::Removal)?;
    changed(&rt, alloc, Change::Censor)
}

fn an_impl(number: u16) -> ImplId {
    ImplId {
        loc: use_item(0, number).loc,
    }
}

/// Impls of traits, and others, in the order in which they were noted.
fn impls(rt: &impl Abort, scope: &mut ItemScope) -> Result<(), Fail> {
    scope.define_impl(an_impl(1), true)?;
    scope.define_impl(an_impl(2), false)?;
    let mut all = scope.impls();
    assert!(rt; all.next() == Some(an_impl(1)));
    assert!(rt; all.next() == Some(an_impl(2)));
    assert!(rt; all.next().is_none());
    let mut of_traits = scope.trait_impls();
    assert!(rt; of_traits.next() == Some(an_impl(1)));
    assert!(rt; of_traits.next().is_none());
    let mut inherent = scope.inherent_impls();
    assert!(rt; inherent.next() == Some(an_impl(2)));
    assert!(rt; inherent.next().is_none());
    Ok(())
}

fn unnamed_const(number: u16) -> ConstId {
    ConstId {
        loc: ItemLoc {
            container: ItemContainerId::ModuleId(module(0)),
            file_id: FILE,
            block: None,
            id: node(number),
        },
    }
}

/// What a module lists.
fn lists(rt: &impl Abort, scope: &mut ItemScope) -> Result<(), Fail> {
    scope.declare(structure(1))?;
    scope.declare(function(2))?;
    assert!(rt; scope.declarations() == [structure(1), function(2)].as_slice());
    let loc = use_item(0, 3).loc;
    scope.define_extern_block(ExternBlockId { loc })?;
    assert!(rt; scope.extern_blocks() == [ExternBlockId { loc }].as_slice());
    scope.define_unnamed_const(unnamed_const(4))?;
    assert!(rt; scope.unnamed_consts() == [unnamed_const(4)].as_slice());
    scope.define_use(UseId { loc })?;
    assert!(rt; scope.use_decls() == [UseId { loc }].as_slice());
    Ok(())
}

/// Defines a macro of a name in textual scope.
fn define(alloc: Global, scope: &mut ItemScope, name: &str, number: u16) -> Result<(), Fail> {
    let makro = macro_of(number, MacroCallStyles::FN_LIKE);
    scope.define_legacy_macro(Name::new(alloc, name)?, makro)?;
    Ok(())
}

fn textual_names(alloc: Global, scope: &ItemScope) -> Result<String, AllocError> {
    let mut text = String::new(alloc);
    for found in scope.legacy_macros() {
        push_name(&mut text, &found.name)?;
    }
    Ok(text)
}

/// Of the macros of a name the last one is meant.
fn last_macro(rt: &impl Abort, alloc: Global, scope: &ItemScope) -> Result<(), Fail> {
    let name = Name::new(alloc, "a")?;
    let first = macro_of(1, MacroCallStyles::FN_LIKE);
    let last = macro_of(3, MacroCallStyles::FN_LIKE);
    let found: Vec<MacroId> = scope.get_legacy_macro(&name).collect(alloc)?;
    assert!(rt; found.as_slice() == [first, last].as_slice());
    assert!(rt; scope.last_legacy_macro(&name) == Some(last));
    assert!(rt; scope.makro(&name).is_none());
    Ok(())
}

/// Macros in textual scope are walked as they were defined.
fn macros_in_textual_scope(
    rt: &impl Abort,
    alloc: Global,
    scope: &mut ItemScope,
) -> Result<(), Fail> {
    define(alloc, scope, "a", 1)?;
    define(alloc, scope, "b", 2)?;
    define(alloc, scope, "a", 3)?;
    let text = textual_names(alloc, scope)?;
    is_text(rt, text.as_str(), "a b a ");
    last_macro(rt, alloc, scope)
}

fn notes(rt: &impl Abort, alloc: Global, scope: &mut ItemScope) -> Result<(), Fail> {
    impls(rt, scope)?;
    lists(rt, scope)?;
    macros_in_textual_scope(rt, alloc, scope)
}

/// What a scope lists that was empty.
#[test]
fn lists_of_a_scope(rt: HostRuntime) -> Result<(), Fail> {
    let alloc = rt.alloc();
    let mut scope = empty_scope(alloc)?;
    notes(&rt, alloc, &mut scope)
}
