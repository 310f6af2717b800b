//! What ids say of the items that they name.

use hir_base::ast_id::{AttrId, BlockId, EditionedFileId, FileId, HirFileId, SyntaxId};
use hir_base::builtin_type::{BuiltinInt, BuiltinType};
use hir_base::edition::Edition;
use hir_base::ids::{
    AdtId, AssocItemId, ConstId, Crate, EnumId, EnumVariantId, ExternBlockId, ExternCrateId,
    FunctionId, HasModule, ImplId, ItemContainerId, ItemLoc, Lookup, MapId, ModuleDefId, ModuleId,
    StaticId, StructId, TraitId, TypeAliasId, UnionId, UseId,
};
use hir_base::macro_kind::{
    BuiltinDeriveImplId, Macro2Id, MacroCallStyles, MacroExpander, MacroId, MacroLoc, MacroRulesId,
    ProcMacroId, ProcMacroLoc, ProcMacroStyle, macro_styles_from_id,
};
use std::process::Abort;

const FILE: HirFileId = HirFileId::File(EditionedFileId {
    file_id: FileId(4),
    edition: Edition::Edition2021,
});

/// The module 2 of the block 7 of crate 3.
const MODULE: ModuleId = ModuleId {
    map: MapId {
        krate: Crate(3),
        block: Some(BlockId(7)),
    },
    index: 2,
};

const NODE: SyntaxId = SyntaxId { hash: 5, index: 1 };

/// Where an item is that the module holds.
const IN_MODULE: ItemLoc<ModuleId> = ItemLoc {
    container: MODULE,
    file_id: FILE,
    block: None,
    id: NODE,
};

const TRAIT: TraitId = TraitId { loc: IN_MODULE };

const STRUCT: AdtId = AdtId::StructId(StructId { loc: IN_MODULE });

const ENUM: EnumId = EnumId { loc: IN_MODULE };

/// Where an item is that the module, or something in it, holds.
fn held_by(container: ItemContainerId) -> ItemLoc<ItemContainerId> {
    ItemLoc {
        container,
        file_id: FILE,
        block: None,
        id: NODE,
    }
}

const CONTAINERS: [(&str, ItemContainerId); 4] = [
    ("a module", ItemContainerId::ModuleId(MODULE)),
    ("a trait", ItemContainerId::TraitId(TRAIT)),
    (
        "an impl",
        ItemContainerId::ImplId(ImplId { loc: IN_MODULE }),
    ),
    (
        "an extern block",
        ItemContainerId::ExternBlockId(ExternBlockId { loc: IN_MODULE }),
    ),
];

fn is_in_the_module(rt: &impl Abort, label: &str, loc: ItemLoc<ItemContainerId>) {
    let function = FunctionId { loc };
    assert!(rt; function.lookup() == loc, "{label}");
    assert!(rt; function.module() == MODULE, "{label}");
    assert!(rt; function.krate() == Crate(3), "{label}");
}

/// An item's module is the one that holds it, or what it is in.
#[test]
fn modules_of_what_items_are_in(rt: HostRuntime) {
    for &(label, container) in &CONTAINERS {
        is_in_the_module(&rt, label, held_by(container));
    }
}

fn is_associated(rt: &impl Abort, label: &str, item: AssocItemId) {
    assert!(rt; item.module() == MODULE, "{label}");
}

/// Items of traits and impls.
#[test]
fn modules_of_associated_items(rt: HostRuntime) {
    let loc = held_by(ItemContainerId::TraitId(TRAIT));
    is_associated(
        &rt,
        "a function",
        AssocItemId::FunctionId(FunctionId { loc }),
    );
    is_associated(&rt, "a constant", AssocItemId::ConstId(ConstId { loc }));
    is_associated(
        &rt,
        "an alias",
        AssocItemId::TypeAliasId(TypeAliasId { loc }),
    );
}

fn location(expander: MacroExpander) -> MacroLoc {
    MacroLoc {
        container: MODULE,
        file_id: FILE,
        block: None,
        id: NODE,
        expander,
    }
}

/// A macro that is no procedural one.
fn makro(expander: MacroExpander) -> MacroId {
    MacroId::MacroRulesId(MacroRulesId {
        loc: location(expander),
    })
}

fn proc_macro(style: ProcMacroStyle) -> MacroId {
    MacroId::ProcMacroId(ProcMacroId {
        loc: ProcMacroLoc {
            container: MODULE,
            file_id: FILE,
            block: None,
            id: NODE,
            style,
        },
    })
}

fn lies_in_the_module(rt: &impl Abort, label: &str, definition: ModuleDefId) {
    assert!(rt; definition.module() == Some(MODULE), "{label}");
    assert!(rt; definition.krate() == Some(Crate(3)), "{label}");
}

/// Definitions that only a module holds.
#[test]
fn modules_of_modules_and_types(rt: HostRuntime) {
    lies_in_the_module(&rt, "a module", ModuleDefId::ModuleId(MODULE));
    lies_in_the_module(&rt, "an enum", ModuleDefId::AdtId(AdtId::EnumId(ENUM)));
    let variant = EnumVariantId {
        parent: ENUM,
        id: NODE,
    };
    lies_in_the_module(&rt, "a variant", ModuleDefId::EnumVariantId(variant));
    lies_in_the_module(&rt, "a trait", ModuleDefId::TraitId(TRAIT));
    let makro = makro(MacroExpander::Builtin);
    lies_in_the_module(&rt, "a macro", ModuleDefId::MacroId(makro));
}

/// Definitions that may be in a trait or an impl too.
#[test]
fn modules_of_values_and_aliases(rt: HostRuntime) {
    let loc = held_by(ItemContainerId::ModuleId(MODULE));
    lies_in_the_module(
        &rt,
        "a function",
        ModuleDefId::FunctionId(FunctionId { loc }),
    );
    lies_in_the_module(&rt, "a constant", ModuleDefId::ConstId(ConstId { loc }));
    lies_in_the_module(&rt, "a static", ModuleDefId::StaticId(StaticId { loc }));
    lies_in_the_module(
        &rt,
        "an alias",
        ModuleDefId::TypeAliasId(TypeAliasId { loc }),
    );
}

/// A builtin type lies in no module.
#[test]
fn module_of_a_builtin_type(rt: HostRuntime) {
    let builtin = ModuleDefId::BuiltinType(BuiltinType::Int(BuiltinInt::I8));
    assert!(rt; builtin.module().is_none());
    assert!(rt; builtin.krate().is_none());
}

/// The root of a map, and the map of a crate.
#[test]
fn roots_of_maps(rt: HostRuntime) {
    let map = MapId::of_crate(Crate(3));
    assert!(rt; map.block.is_none());
    let root = ModuleId::root(map);
    assert!(rt; root.map == map);
    assert!(rt; root.index == 0);
}

fn is_where_it_is(rt: &impl Abort, label: &str, loc: ItemLoc<ModuleId>) {
    assert!(rt; loc == IN_MODULE, "{label}");
}

/// An id of an item that a module alone holds gives back where that is.
#[test]
fn locations_of_what_modules_hold(rt: HostRuntime) {
    let of_struct = StructId { loc: IN_MODULE };
    let of_union = UnionId { loc: IN_MODULE };
    let imp = ImplId { loc: IN_MODULE };
    let block = ExternBlockId { loc: IN_MODULE };
    is_where_it_is(&rt, "a struct", of_struct.lookup());
    is_where_it_is(&rt, "a union", of_union.lookup());
    is_where_it_is(&rt, "an enum", ENUM.lookup());
    is_where_it_is(&rt, "a trait", TRAIT.lookup());
    is_where_it_is(&rt, "an impl", imp.lookup());
    is_where_it_is(&rt, "an extern block", block.lookup());
}

/// And so does one of an import.
#[test]
fn locations_of_imports(rt: HostRuntime) {
    let import = UseId { loc: IN_MODULE };
    let krate = ExternCrateId { loc: IN_MODULE };
    is_where_it_is(&rt, "a use item", import.lookup());
    is_where_it_is(&rt, "an extern crate", krate.lookup());
}

/// One of an item that may be in a trait, an impl or an extern block, and of a variant.
#[test]
fn locations_of_what_others_hold(rt: HostRuntime) {
    let loc = held_by(ItemContainerId::TraitId(TRAIT));
    let constant = ConstId { loc };
    let fixed = StaticId { loc };
    let alias = TypeAliasId { loc };
    assert!(rt; constant.lookup() == loc, "a constant");
    assert!(rt; fixed.lookup() == loc, "a static");
    assert!(rt; alias.lookup() == loc, "an alias");
    let variant = EnumVariantId {
        parent: ENUM,
        id: NODE,
    };
    assert!(rt; variant.lookup() == variant, "a variant");
}

/// What expands a macro, and whether it may be called as a function's, an attribute's and a derive's.
const STYLES: [(MacroExpander, bool, bool, bool); 6] = [
    (
        MacroExpander::Declarative(MacroCallStyles::ATTR),
        false,
        true,
        false,
    ),
    (MacroExpander::Builtin, true, false, false),
    (MacroExpander::BuiltinEager, true, false, false),
    (MacroExpander::BuiltinAttr, false, true, false),
    (MacroExpander::BuiltinDerive, false, false, true),
    (MacroExpander::Unimplemented, true, true, true),
];

const PROC_STYLES: [(ProcMacroStyle, bool, bool, bool); 3] = [
    (ProcMacroStyle::FnLike, true, false, false),
    (ProcMacroStyle::Attr, false, true, false),
    (ProcMacroStyle::Derive, false, false, true),
];

fn has_styles(rt: &impl Abort, makro: MacroId, bang: bool, attr: bool, derive: bool) {
    let styles = macro_styles_from_id(makro);
    assert!(rt; styles.contains(MacroCallStyles::FN_LIKE) == bang);
    assert!(rt; styles.contains(MacroCallStyles::ATTR) == attr);
    assert!(rt; styles.contains(MacroCallStyles::DERIVE) == derive);
}

/// A macro has the styles of what expands it.
#[test]
fn styles_of_macros(rt: HostRuntime) {
    for &(expander, bang, attr, derive) in &STYLES {
        has_styles(&rt, makro(expander), bang, attr, derive);
        let item = Macro2Id {
            loc: location(expander),
        };
        has_styles(&rt, MacroId::Macro2Id(item), bang, attr, derive);
    }
}

/// All styles are each of them.
#[test]
fn all_styles(rt: HostRuntime) {
    let all = MacroCallStyles::all();
    assert!(rt; all.contains(MacroCallStyles::FN_LIKE));
    assert!(rt; all.contains(MacroCallStyles::ATTR));
    assert!(rt; all.contains(MacroCallStyles::DERIVE));
}

/// A procedural macro has its own.
#[test]
fn styles_of_procedural_macros(rt: HostRuntime) {
    for &(style, bang, attr, derive) in &PROC_STYLES {
        has_styles(&rt, proc_macro(style), bang, attr, derive);
    }
}

/// A macro's id gives back where it is and what expands it, a procedural one's its style.
#[test]
fn locations_of_macros(rt: HostRuntime) {
    let loc = location(MacroExpander::BuiltinEager);
    let rules = MacroRulesId { loc };
    let item = Macro2Id { loc };
    assert!(rt; rules.lookup() == loc, "macro_rules");
    assert!(rt; item.lookup() == loc, "macro");
    let of_function = ProcMacroLoc {
        container: MODULE,
        file_id: FILE,
        block: None,
        id: NODE,
        style: ProcMacroStyle::Attr,
    };
    let procedural = ProcMacroId { loc: of_function };
    assert!(rt; procedural.lookup() == of_function, "a procedural macro");
}

/// The impl of a builtin derive lies in the module of its type.
#[test]
fn module_of_a_derived_impl(rt: HostRuntime) {
    let derived = BuiltinDeriveImplId {
        adt: STRUCT,
        derive: makro(MacroExpander::BuiltinDerive),
        derive_attr_id: AttrId(0),
        derive_index: 1,
    };
    assert!(rt; derived.lookup() == derived);
    assert!(rt; derived.module() == MODULE);
}
