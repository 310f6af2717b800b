//! One module of a def map.
ghost use Rattle.std.specs.Prelude.{◌≡◌, ◌<◌, ◌++◌, [], ◌∷◌, None, length, slice_get, IfOk, OnOk, OnErr};
ghost use Rattle.hir_scope.specs.Scope.{binding_of, empty_scope};
ghost use Rattle.hir_scope.specs.Scope.Reads.{last_legacy_at};
ghost use Rattle.hir_scope.specs.Scope.Push.{pushed_globs, push_changes};
ghost use Rattle.hir_def_map_rules.specs.Declaration.{listed};
ghost use Rattle.hir_def_map_rules.specs.Origins.{declaration_of, source_of};
ghost use Rattle.hir_def_map_rules.specs.Equality.{same_contents, same_place};
ghost use Rattle.hir_def_map_rules.specs.State.{at_name, changed_at, changes_module, globs_in, pushed_module, with_child, with_module_scope};

mod scope_mut;

use crate::declaration::Declaration;
use crate::origin::{ModuleOrigin, ModuleSource};
use hir_base::ast_id::{AstId, HirFileId, InFile};
use hir_base::ids::ModuleId;
use hir_base::macro_kind::MacroId;
use hir_base::name::Name;
use hir_scope::glob_imports::PerNsGlobImports;
use hir_scope::imports::ImportOrExternCrate;
use hir_scope::item_scope::ItemScope;
use hir_scope::per_ns::PerNs;
use hir_scope::visibility::Visibility;
use std::alloc::{AllocError, Global};
use std::collections::{BTreeMap, btree_map};
use std::marker::Model;

/// A module, after rust-analyzer's `ModuleData`.
#[derive(Drop)]
pub struct ModuleData {
    origin: ModuleOrigin,
    visibility: Visibility,
    parent: Option<ModuleId>,
    children: BTreeMap<Name, ModuleId>,
    scope: ItemScope,
}

impl Model for ModuleData {
    ghost use Rattle.hir_def_map_rules.specs.State.{ModuleValue};

    ghost Value = { ModuleValue };

    ghost view = { λ m. record { origin = m.origin; visibility = m.visibility; parent = m.parent; children = m.children.entries; scope = m.scope } };
}

impl ModuleData {
    /// A module without children and bindings.
    pub fn new(
        alloc: Global,
        origin: ModuleOrigin,
        visibility: Visibility,
        parent: Option<ModuleId>,
    ) -> ModuleData
        ensures value { result ≡ record { origin = origin; visibility = visibility; parent = parent; children = []; scope = empty_scope } }
    {
        ModuleData {
            origin,
            visibility,
            parent,
            children: BTreeMap::new(alloc),
            scope: ItemScope::new(alloc),
        }
    }

    /// Where the module is written.
    pub fn origin(&self) -> ModuleOrigin
        ensures value { result ≡ self.now.origin }
    {
        self.origin
    }

    /// What its contents are written in, and the file of that.
    pub fn definition_source(&self) -> InFile<ModuleSource>
        ensures value { result ≡ source_of self.now.origin }
    {
        self.origin.definition_source()
    }

    /// The file in which its contents are written.
    pub fn definition_source_file_id(&self) -> HirFileId
        ensures value { result ≡ (source_of self.now.origin).file_id }
    {
        self.origin.definition_source().file_id
    }

    /// The `mod` item that declares it; none does a root.
    pub fn declaration_source(&self) -> Option<AstId>
        ensures value { result ≡ declaration_of self.now.origin }
    {
        self.origin.declaration()
    }

    /// Who may see the module.
    pub fn visibility(&self) -> Visibility
        ensures value { result ≡ self.now.visibility }
    {
        self.visibility
    }

    /// What the module is in.
    pub fn parent(&self) -> Option<ModuleId>
        ensures value { result ≡ self.now.parent }
    {
        self.parent
    }

    /// The first module of this name in it.
    pub fn child(&self, name: &Name) -> Option<ModuleId>
        ensures value { result ≡ at_name self.now.children name.now }
    {
        self.children.get(name).copied()
    }

    /// The modules in it, by name.
    pub fn children(&self) -> btree_map::Iter<'_, Name, ModuleId>
        ensures value { result ≡ self.now.children }
    {
        self.children.iter()
    }

    /// What its names stand for, and what it declares.
    pub fn scope(&self) -> &ItemScope
        ensures value { result.now ≡ self.now.scope }
    {
        &self.scope
    }

    /// What a name stands for in it.
    pub fn entry(&self, name: &Name) -> PerNs
        ensures value { result ≡ binding_of self.now.scope name.now }
    {
        self.scope.get(name)
    }

    /// The last of the macros of a name that are in textual scope in it.
    pub fn legacy_macro(&self, name: &Name) -> Option<MacroId>
        ensures value { result ≡ last_legacy_at self.now.scope name.now }
    {
        self.scope.last_legacy_macro(name)
    }

    /// Gives the module a child under a name that isn't taken.
    pub fn add_child(&mut self, name: Name, id: ModuleId) -> Result<(), AllocError>
        ensures ok { OnOk result (self.new ≡ with_child name id self.old) }
        ensures err { OnErr result (self.new ≡ self.old) }
    {
        if self.children.contains_key(&name) {
            return Ok(());
        }
        self.children.insert(name, id)?;
        Ok(())
    }

    /// Binds items to a place in it, and says whether that changed anything.
    pub fn push(
        &mut self,
        glob_imports: &mut PerNsGlobImports,
        place: (ModuleId, Name),
        items: PerNs,
        import: Option<ImportOrExternCrate>,
    ) -> Result<bool, AllocError>
        ensures ok { OnOk result (self.new ≡ pushed_module glob_imports.old place items import self.old) }
        ensures globs { OnOk result
            (glob_imports.new ≡ pushed_globs self.old.scope place items import glob_imports.old) }
        ensures changed { IfOk result (λ changed. changed
            ≡ push_changes self.old.scope glob_imports.old place items import) }
        ensures err { OnErr result (self.new ≡ self.old) }
        ensures err_globs { OnErr result (glob_imports.new ≡ glob_imports.old) }
    {
        self.scope
            .push_res_with_import(glob_imports, place, items, import)
    }

    /// Lists what it declares in its scope.
    pub fn list(&mut self, declaration: Declaration) -> Result<(), AllocError>
        ensures ok { OnOk result (self.new ≡ with_module_scope (listed declaration) self.old) }
        ensures err { OnErr result (self.new ≡ self.old) }
    {
        match declaration {
            Declaration::Def(def) => self.scope.declare(def),
            Declaration::Use(use_) => self.scope.define_use(use_),
            Declaration::ExternCrate(extern_crate) => {
                self.scope.define_extern_crate_decl(extern_crate)
            }
            Declaration::Impl(imp, is_trait_impl) => self.scope.define_impl(imp, is_trait_impl),
            Declaration::ExternBlock(extern_block) => self.scope.define_extern_block(extern_block),
            Declaration::UnnamedConst(konst) => self.scope.define_unnamed_const(konst),
        }
    }
}

impl ModuleData {
    fn has_same_place(&self, other: &ModuleData) -> bool
        ensures value { result ≡ same_place self.now other.now }
    {
        self.origin == other.origin
            && self.visibility == other.visibility
            && self.parent == other.parent
    }

    fn has_same_contents(&self, other: &ModuleData) -> bool
        ensures value { result ≡ same_contents self.now other.now }
    {
        let same_children = self.children == other.children;
        same_children && self.scope == other.scope
    }
}

impl PartialEq for ModuleData {
    ghost use Rattle.std.specs.Cmp.{partial_equiv_from_equiv};
    ghost use Rattle.hir_def_map_rules.specs.Equality.{same_module, same_module_equiv};

    ghost eq = { same_module };

    ghost laws = { partial_equiv_from_equiv same_module_equiv };

    fn eq(&self, other: &ModuleData) -> bool {
        self.has_same_place(other) && self.has_same_contents(other)
    }
}

impl Eq for ModuleData {
    ghost use Rattle.hir_def_map_rules.specs.Equality.{same_module_equiv};

    ghost laws = { same_module_equiv };
}

/// Puts a module behind the others, and gives one of those its name as a child's.
pub fn insert_module(
    modules: &mut Vec<ModuleData>,
    parent: usize,
    name: Name,
    id: ModuleId,
    module: ModuleData,
) -> Result<(), AllocError>
    requires in_range { parent < length modules.old.items }
    ensures ok { OnOk result (modules.new.items ≡ changed_at modules.old.items parent (with_child name id) ++ «module» ∷ []) }
    ensures err { OnErr result (modules.new.items ≡ modules.old.items) }
{
    let count = modules.len();
    modules.push(module)?;
    match modules[parent].add_child(name, id) {
        Ok(()) => Ok(()),
        Err(error) => {
            modules.truncate(count);
            Err(error)
        }
    }
}

/// Binds items to a place in one of the modules, where it is there.
pub fn push_in(
    modules: &mut Vec<ModuleData>,
    glob_imports: &mut PerNsGlobImports,
    at: usize,
    place: (ModuleId, Name),
    items: PerNs,
    import: Option<ImportOrExternCrate>,
) -> Result<bool, AllocError>
    ensures ok { OnOk result (modules.new.items
        ≡ changed_at modules.old.items at (pushed_module glob_imports.old place items import)) }
    ensures globs { OnOk result (glob_imports.new
        ≡ globs_in (slice_get modules.old.items at) glob_imports.old place items import) }
    ensures changed { IfOk result (λ changed. changed
        ≡ changes_module (slice_get modules.old.items at) glob_imports.old place items import) }
    ensures err { OnErr result (modules.new.items ≡ modules.old.items) }
    ensures err_globs { OnErr result (glob_imports.new ≡ glob_imports.old) }
{
    if at >= modules.len() {
        return Ok(false);
    }
    modules[at].push(glob_imports, place, items, import)
}
