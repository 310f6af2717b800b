//! How the open map is begun and filled.
use crate::stage::Draft;
use crate::words;
use crate::words::{Fault, find, module_id, node_of};
use hir_base::ast_id::{
    AstId, AstKind, BlockId, EditionedFileId, FileId, HirFileId, InFile, MacroCallId, SyntaxId,
};
use hir_base::edition::Edition;
use hir_base::ids::{
    AdtId, Crate, EnumId, EnumVariantId, ExternCrateId, FunctionId, ItemContainerId, ItemLoc,
    MapId, ModuleDefId, ModuleId, StructId, TraitId, UseId,
};
use hir_base::macro_kind::{
    MacroCallStyles, MacroExpander, MacroId, MacroLoc, MacroRulesId, ProcMacroId, ProcMacroLoc,
    ProcMacroStyle,
};
use hir_base::name::Name;
use hir_crate_graph::CrateSet;
use hir_def_map::{
    AddModuleError, BlockInfo, DefMap, DefMapCrateData, EnumVariant, EnumVariants, LocalDefMap,
    ModuleData, ModuleOrigin,
};
use hir_item_tree::tree_id::TreeId;
use hir_scope::glob_imports::PerNsGlobImports;
use hir_scope::imports::{GlobId, ImportId, ImportOrExternCrate};
use hir_scope::per_ns::PerNs;
use hir_scope::visibility::Visibility;
use std::alloc::Global;
use std::rc::Rc;

/// The file of all items.
const FILE: EditionedFileId = EditionedFileId {
    file_id: FileId(0),
    edition: Edition::Edition2021,
};

fn add_crates(crates: &mut CrateSet, words: &[&str]) -> Result<(), Fault> {
    for word in words {
        let krate = Crate(words::number_of(word)?);
        if crates.insert(krate).is_err() {
            return Err(Fault::Memory);
        }
    }
    Ok(())
}

/// What the top of a crate says that says nothing and stands on these.
pub fn data_over(
    alloc: Global,
    edition: Edition,
    crates: CrateSet,
) -> Result<DefMapCrateData, Fault> {
    match Rc::new(alloc, crates) {
        Ok(crates) => Ok(DefMapCrateData::new(alloc, edition, crates)),
        Err(_) => Err(Fault::Memory),
    }
}

fn data_of(alloc: Global, edition: Edition, words: &[&str]) -> Result<DefMapCrateData, Fault> {
    let mut crates = CrateSet::new(alloc);
    add_crates(&mut crates, words)?;
    data_over(alloc, edition, crates)
}

/// A map with its root alone.
pub fn begin(
    alloc: Global,
    krate: Crate,
    top: DefMapCrateData,
    block: Option<BlockInfo>,
) -> Result<Draft, Fault> {
    let origin = ModuleOrigin::CrateRoot { definition: FILE };
    let root = ModuleData::new(alloc, origin, Visibility::Public, None);
    match DefMap::empty(alloc, krate, top, root, block) {
        Ok(map) => Ok(Draft {
            map,
            local: LocalDefMap::empty(alloc),
            globs: PerNsGlobImports::new(alloc),
        }),
        Err(_) => Err(Fault::Memory),
    }
}

pub fn begin_crate(alloc: Global, words: &[&str]) -> Result<Draft, Fault> {
    let [krate, edition, crates @ ..] = words else {
        return Err(Fault::Bad);
    };
    let krate = Crate(words::number_of(krate)?);
    let top = data_of(alloc, words::edition_of(edition)?, crates)?;
    begin(alloc, krate, top, None)
}

pub fn begin_block(alloc: Global, words: &[&str]) -> Result<Draft, Fault> {
    let [id, holder, crates @ ..] = words else {
        return Err(Fault::Bad);
    };
    let MapId {
        krate,
        block: Some(block),
    } = words::map_id(id)?
    else {
        return Err(Fault::Bad);
    };
    let parent = module_id(holder)?;
    let top = data_of(alloc, Edition::Edition2021, crates)?;
    begin(alloc, krate, top, Some(BlockInfo { block, parent }))
}

fn location(container: ModuleId, id: SyntaxId) -> ItemLoc<ModuleId> {
    ItemLoc {
        container,
        file_id: HirFileId::File(FILE),
        block: None,
        id,
    }
}

/// A node of the file, of any kind.
pub fn item(kind: AstKind, id: SyntaxId) -> AstId {
    AstId {
        file_id: HirFileId::File(FILE),
        block: None,
        kind,
        id,
    }
}

/// The macro of a node, with its one style.
pub fn makro(container: ModuleId, styles: MacroCallStyles, id: SyntaxId) -> MacroId {
    MacroId::MacroRulesId(MacroRulesId {
        loc: MacroLoc {
            container,
            file_id: HirFileId::File(FILE),
            block: None,
            id,
            expander: MacroExpander::Declarative(styles),
        },
    })
}

/// The styles of a macro that is called as a function's and as an attribute's.
const BOTH: MacroCallStyles = MacroCallStyles {
    fn_like: true,
    attr: true,
    derive: false,
};

const STYLES: [(&str, MacroCallStyles); 4] = [
    ("both", BOTH),
    ("bang", MacroCallStyles::FN_LIKE),
    ("attr", MacroCallStyles::ATTR),
    ("derive", MacroCallStyles::DERIVE),
];

fn structure(at: ModuleId, id: SyntaxId) -> ModuleDefId {
    ModuleDefId::AdtId(AdtId::StructId(StructId {
        loc: location(at, id),
    }))
}

pub fn function(at: ModuleId, id: SyntaxId) -> FunctionId {
    FunctionId {
        loc: ItemLoc {
            container: ItemContainerId::ModuleId(at),
            file_id: HirFileId::File(FILE),
            block: None,
            id,
        },
    }
}

/// The procedural macro of a function.
pub fn proc_macro(at: ModuleId, id: SyntaxId) -> ProcMacroId {
    ProcMacroId {
        loc: ProcMacroLoc {
            container: at,
            file_id: HirFileId::File(FILE),
            block: None,
            id,
            style: ProcMacroStyle::Attr,
        },
    }
}

pub fn choice(at: ModuleId, id: SyntaxId) -> EnumId {
    EnumId {
        loc: location(at, id),
    }
}

/// A definition in each of its namespaces.
fn items(
    at: ModuleId,
    kind: &str,
    of: &str,
    vis: &str,
    import: Option<ImportOrExternCrate>,
) -> Result<PerNs, Fault> {
    let def = definition(at, kind, of)?;
    let vis = words::visibility_of(vis)?;
    Ok(PerNs::from_def(def, vis, Some(vis), import))
}

fn definition(at: ModuleId, kind: &str, of: &str) -> Result<ModuleDefId, Fault> {
    match kind {
        "mod" => Ok(ModuleDefId::ModuleId(module_id(of)?)),
        "struct" => Ok(structure(at, node_of(of)?)),
        "fn" => Ok(ModuleDefId::FunctionId(function(at, node_of(of)?))),
        "enum" => Ok(ModuleDefId::AdtId(AdtId::EnumId(choice(at, node_of(of)?)))),
        _ => {
            let styles = find(&STYLES, kind)?;
            Ok(ModuleDefId::MacroId(makro(at, styles, node_of(of)?)))
        }
    }
}

/// Binds items to a name, and says whether that changed anything.
fn bind(
    draft: &mut Draft,
    at: ModuleId,
    name: Name,
    items: PerNs,
    by: Option<ImportOrExternCrate>,
) -> Result<bool, Fault> {
    match draft.map.push(&mut draft.globs, at.index, name, items, by) {
        Ok(changed) => Ok(changed),
        Err(_) => Err(Fault::Memory),
    }
}

pub fn push(alloc: Global, draft: &mut Draft, words: &[&str]) -> Result<(), Fault> {
    let [at, name, kind, of, vis] = words else {
        return Err(Fault::Bad);
    };
    let at = module_id(at)?;
    let items = items(at, kind, of, vis, None)?;
    bind(draft, at, words::name_of(alloc, name)?, items, None)?;
    Ok(())
}

/// The `use` item of a node.
pub fn use_item(at: ModuleId, id: SyntaxId) -> UseId {
    UseId {
        loc: location(at, id),
    }
}

/// What brings a name: an import, a glob or an `extern crate`, by its node.
fn brought(at: ModuleId, word: &str) -> Result<ImportOrExternCrate, Fault> {
    let Some((kind, of)) = word.split_once('=') else {
        return Err(Fault::Bad);
    };
    let loc = location(at, node_of(of)?);
    match kind {
        "import" => Ok(ImportOrExternCrate::Import(ImportId {
            use_: UseId { loc },
            idx: 0,
        })),
        "glob" => Ok(ImportOrExternCrate::Glob(GlobId {
            use_: UseId { loc },
            idx: 0,
        })),
        "extern" => Ok(ImportOrExternCrate::ExternCrate(ExternCrateId { loc })),
        _ => Err(Fault::Bad),
    }
}

/// What the word of a number among these says that brings a name, if there is such a word.
fn brought_by(
    at: ModuleId,
    words: &[&str],
    number: usize,
) -> Result<Option<ImportOrExternCrate>, Fault> {
    match words.get(number) {
        Some(word) => Ok(Some(brought(at, word)?)),
        None => Ok(None),
    }
}

/// Binds items to a name as an import does, and says whether that changed anything.
pub fn update(alloc: Global, draft: &mut Draft, words: &[&str]) -> Result<bool, Fault> {
    match words {
        [at, name, "nothing"] => {
            let name = words::name_of(alloc, name)?;
            bind(draft, module_id(at)?, name, PerNs::none(), None)
        }
        [at, name, kind, of, vis, by @ ..] => {
            let at = module_id(at)?;
            let items = items(at, kind, of, vis, brought_by(at, by, 1)?)?;
            let by = brought_by(at, by, 0)?;
            bind(draft, at, words::name_of(alloc, name)?, items, by)
        }
        _ => Err(Fault::Bad),
    }
}

/// Gives a module a macro in textual scope.
pub fn textual(alloc: Global, draft: &mut Draft, words: &[&str]) -> Result<(), Fault> {
    let [at, name, style, id] = words else {
        return Err(Fault::Bad);
    };
    let at = module_id(at)?;
    let makro = makro(at, find(&STYLES, style)?, node_of(id)?);
    let name = words::name_of(alloc, name)?;
    if !draft.map.contains(at) {
        return Err(Fault::Bad);
    }
    draft.map[at].scope_mut().define_legacy_macro(name, makro)?;
    Ok(())
}

fn import_in(brought: Option<ImportOrExternCrate>) -> Option<ImportId> {
    match brought {
        Some(ImportOrExternCrate::Import(import)) => Some(import),
        _ => None,
    }
}

/// Gives a module a trait without a name.
pub fn unnamed_trait(draft: &mut Draft, words: &[&str]) -> Result<(), Fault> {
    let [at, id, by @ ..] = words else {
        return Err(Fault::Bad);
    };
    let at = module_id(at)?;
    let id = TraitId {
        loc: location(at, node_of(id)?),
    };
    let import = import_in(brought_by(at, by, 0)?);
    if !draft.map.contains(at) {
        return Err(Fault::Bad);
    }
    draft.map[at]
        .scope_mut()
        .push_unnamed_trait(id, Visibility::Public, import)?;
    Ok(())
}

/// In a tree, beside its `mod` item.
fn inline(file_id: HirFileId) -> ModuleOrigin {
    ModuleOrigin::Inline {
        definition_tree_id: TreeId::new(file_id, None),
        definition: item(AstKind::Module, SyntaxId { hash: 1, index: 0 }),
    }
}

/// In a file of its own.
fn in_file(number: u32) -> ModuleOrigin {
    ModuleOrigin::File {
        is_mod_rs: false,
        declaration: item(AstKind::Module, SyntaxId { hash: 1, index: 0 }),
        declaration_tree_id: TreeId::new(HirFileId::File(FILE), None),
        definition: EditionedFileId {
            file_id: FileId(number),
            edition: Edition::Edition2018,
        },
    }
}

/// A block in what a macro call expands to.
fn in_block(call: MacroCallId) -> ModuleOrigin {
    ModuleOrigin::BlockExpr {
        id: BlockId(1),
        block: InFile {
            file_id: HirFileId::Macro(call),
            value: SyntaxId { hash: 3, index: 0 },
        },
    }
}

/// Where a module is written.
fn written_in(word: &str) -> Result<ModuleOrigin, Fault> {
    let Some((kind, of)) = word.split_once('=') else {
        return Err(Fault::Bad);
    };
    let number = words::number_of(of)?;
    match kind {
        "file" => Ok(in_file(number)),
        "call" => Ok(inline(HirFileId::Macro(MacroCallId(number)))),
        "block" => Ok(in_block(MacroCallId(number))),
        _ => Err(Fault::Bad),
    }
}

fn add_module(
    alloc: Global,
    map: &mut DefMap,
    parent: ModuleId,
    name: Name,
    origin: ModuleOrigin,
) -> Result<ModuleId, Fault> {
    if !map.contains(parent) {
        return Err(Fault::Bad);
    }
    let child = ModuleData::new(alloc, origin, Visibility::Public, Some(parent));
    match map.add_module(parent.index, name, child) {
        Ok(id) => Ok(id),
        Err(AddModuleError::TooMany) => Err(Fault::Bad),
        Err(AddModuleError::Memory) => Err(Fault::Memory),
    }
}

/// Adds a module, and binds its name to it.
fn name_module(
    alloc: Global,
    draft: &mut Draft,
    parent: ModuleId,
    word: &str,
    origin: ModuleOrigin,
) -> Result<ModuleId, Fault> {
    let name = words::name_of(alloc, word)?;
    let id = add_module(alloc, &mut draft.map, parent, name, origin)?;
    let name = words::name_of(alloc, word)?;
    let items = PerNs::types(ModuleDefId::ModuleId(id), Visibility::Public, None);
    bind(draft, parent, name, items, None)?;
    Ok(id)
}

pub fn module(alloc: Global, draft: &mut Draft, words: &[&str]) -> Result<(), Fault> {
    let (parent, word, origin) = match words {
        [parent, word] => (parent, word, inline(HirFileId::File(FILE))),
        [parent, word, origin] => (parent, word, written_in(origin)?),
        _ => return Err(Fault::Bad),
    };
    name_module(alloc, draft, module_id(parent)?, word, origin)?;
    Ok(())
}

/// Adds modules of one name, the first below the root, and each in the one before.
pub fn nest(alloc: Global, draft: &mut Draft, words: &[&str]) -> Result<(), Fault> {
    let [count, word] = words else {
        return Err(Fault::Bad);
    };
    let mut parent = draft.map.root();
    for _ in 0..words::number_of(count)? {
        parent = name_module(alloc, draft, parent, word, inline(HirFileId::File(FILE)))?;
    }
    Ok(())
}

fn add_variant(
    variants: &mut EnumVariants,
    parent: EnumId,
    name: Name,
    words: (&str, &str),
) -> Result<(), Fault> {
    let (shape, id) = words;
    let variant = EnumVariant {
        id: EnumVariantId {
            parent,
            id: node_of(id)?,
        },
        shape: words::shape_of(shape)?,
    };
    variants.insert(name, variant)?;
    Ok(())
}

fn add_variants(
    alloc: Global,
    variants: &mut EnumVariants,
    parent: EnumId,
    words: &[&str],
) -> Result<(), Fault> {
    for row in words.chunks(3) {
        let [name, shape, id] = row else {
            return Err(Fault::Bad);
        };
        add_variant(variants, parent, words::name_of(alloc, name)?, (shape, id))?;
    }
    Ok(())
}

pub fn variants(alloc: Global, draft: &mut Draft, words: &[&str]) -> Result<(), Fault> {
    let [at, id, rows @ ..] = words else {
        return Err(Fault::Bad);
    };
    let id = choice(module_id(at)?, node_of(id)?);
    let mut variants = EnumVariants::new(alloc);
    add_variants(alloc, &mut variants, id, rows)?;
    draft.map.add_enum(id, variants)?;
    Ok(())
}

pub fn macro_use(alloc: Global, draft: &mut Draft, words: &[&str]) -> Result<(), Fault> {
    let [name, style, at, id] = words else {
        return Err(Fault::Bad);
    };
    let makro = makro(module_id(at)?, find(&STYLES, style)?, node_of(id)?);
    draft
        .map
        .add_macro_use(words::name_of(alloc, name)?, makro, None)?;
    Ok(())
}

pub fn prelude(draft: &mut Draft, words: &[&str]) -> Result<(), Fault> {
    let [at] = words else {
        return Err(Fault::Bad);
    };
    draft.map.set_prelude(Some((module_id(at)?, None)));
    Ok(())
}

pub fn extern_crate(alloc: Global, draft: &mut Draft, words: &[&str]) -> Result<(), Fault> {
    let [name, at] = words else {
        return Err(Fault::Bad);
    };
    let at = module_id(at)?;
    draft
        .local
        .add_extern(words::name_of(alloc, name)?, at, None)?;
    Ok(())
}
