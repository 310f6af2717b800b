//! The names that globs read and write: those of a map that is built, and of what its globs reach elsewhere.
ghost use Rattle.std.specs.Prelude.{◌≡◌, OnOk};
ghost use Rattle.hir_nameres.specs.HirScope.Entries.{item_at};
ghost use Rattle.hir_nameres.specs.HirPerNs.declared.item_in_ns.ItemInNs.TheVariants as in_ns;
ghost use Rattle.hir_def_map_rules.specs.Overlay.{entry_in, module_in};
ghost use Rattle.hir_def_map_rules.specs.State.{module_at, with_scope};
ghost use Rattle.hir_nameres.specs.WorldParts.{part_of};
ghost use Rattle.hir_import_rules.specs.Names.{bound_by, bound_of, bound_trait, entries_of, is_foreign, is_open, items_by, open_vis, pushed_by, redefined, revised, trait_vis, traits_of, variant_items, with_trait, with_trait_at};
ghost use Rattle.hir_import_resolution.specs.Scopes.{value_of, with_value};
ghost use Rattle.hir_import_rules.specs.Visibilities.{greater_in, sees_in};
ghost use Rattle.hir_import_rules.specs.ScopeLaws.{bound_scope};
ghost use Rattle.hir_import_growth.specs.ViewLaws.{bound_inside};

mod keys;
mod writes;

use crate::answers::open_items;
use hir_base::ids::{MapId, ModuleDefId, ModuleId, TraitId};
use hir_base::name::Name;
use hir_glob_imports::{Bound, Key, Names, Slot, Target};
use hir_import_growth::visibilities::lesser;
use hir_nameres::def_maps::DefMaps;
use hir_nameres::hir_scope::glob_imports::PerNsGlobImports;
use hir_nameres::hir_scope::imports::{GlobId, ImportId, ImportOrExternCrate};
use hir_nameres::hir_scope::item_in_ns::ItemInNs;
use hir_nameres::hir_scope::item_scope::ItemScope;
use hir_nameres::hir_scope::per_ns::{MacrosItem, PerNs, TypesItem, ValuesItem};
use hir_nameres::hir_scope::visibility::Visibility;
use hir_nameres::nameres::DefMap;
use hir_nameres::nameres::enum_variants::EnumVariant;
use hir_nameres::world::part::WorldPart;
use std::alloc::{AllocError, Global};

/// The scopes of a map that is built, beside finished maps.
#[derive(Drop)]
pub struct OpenScopes<'a> {
    pub world: WorldPart<'a>,
    pub map: DefMap,
    /// The names that globs brought.
    pub globs: PerNsGlobImports,
}

/// Whether a glob through another crate brings what has this visibility.
fn is_open(crossing: bool, vis: Visibility) -> bool
    ensures value { result ≡ is_open crossing vis }
{
    !crossing || matches!(vis, Visibility::Public)
}

/// The same of a trait without a name.
fn open_vis(crossing: bool, vis: Option<Visibility>) -> Option<Visibility>
    ensures value { result ≡ open_vis crossing vis }
{
    match vis {
        Some(vis) if is_open(crossing, vis) => Some(vis),
        _ => None,
    }
}

/// Whether a module lies in another crate than a map.
fn is_foreign(own: MapId, module: ModuleId) -> bool
    ensures value { result ≡ is_foreign own «module» }
{
    module.map.krate != own.krate
}

/// A variant as a glob brings it: the glob alone says who may see it.
fn variant_items(variant: Option<EnumVariant>) -> PerNs
    ensures value { result ≡ variant_items variant }
{
    let Some(variant) = variant else {
        return PerNs::none();
    };
    let constructor = if variant.shape.has_value_ns_ctor() {
        Some(Visibility::Public)
    } else {
        None
    };
    PerNs::from_def(
        ModuleDefId::EnumVariantId(variant.id),
        Visibility::Public,
        constructor,
        None,
    )
}

/// The items that a definition is alone.
fn items_by(def: ItemInNs, vis: Visibility) -> PerNs
    ensures value { result ≡ items_by def vis }
{
    match def {
        ItemInNs::Types(def) => PerNs::types(def, vis, None),
        ItemInNs::Values(def) => PerNs::values(def, vis, None),
        ItemInNs::Macros(def) => PerNs::macros(def, vis, None),
    }
}

fn bound_type(item: Option<TypesItem>) -> Option<Bound>
    ensures value { result ≡ bound_by in_ns.Types item }
{
    match item {
        Some(item) => Some(Bound {
            def: ItemInNs::Types(item.def),
            vis: item.vis,
        }),
        None => None,
    }
}

fn bound_value(item: Option<ValuesItem>) -> Option<Bound>
    ensures value { result ≡ bound_by in_ns.Values item }
{
    match item {
        Some(item) => Some(Bound {
            def: ItemInNs::Values(item.def),
            vis: item.vis,
        }),
        None => None,
    }
}

fn bound_macro(item: Option<MacrosItem>) -> Option<Bound>
    ensures value { result ≡ bound_by in_ns.Macros item }
{
    match item {
        Some(item) => Some(Bound {
            def: ItemInNs::Macros(item.def),
            vis: item.vis,
        }),
        None => None,
    }
}

fn bound_trait(id: TraitId, vis: Option<Visibility>) -> Option<Bound>
    ensures value { result ≡ bound_trait id vis }
{
    match vis {
        Some(vis) => Some(Bound {
            def: ItemInNs::Types(ModuleDefId::TraitId(id)),
            vis,
        }),
        None => None,
    }
}

/// What type a name stands for in a scope.
fn type_in(scope: &ItemScope, name: &Name) -> Option<Bound>
    ensures value { result ≡ bound_by in_ns.Types (item_at scope.now.types name.now) }
{
    bound_type(scope.type_item(name))
}

/// What value a name stands for in a scope.
fn value_in(scope: &ItemScope, name: &Name) -> Option<Bound>
    ensures value { result ≡ bound_by in_ns.Values (item_at scope.now.values name.now) }
{
    bound_value(scope.value_item(name))
}

/// What macro a name stands for in a scope.
fn macro_in(scope: &ItemScope, name: &Name) -> Option<Bound>
    ensures value { result ≡ bound_by in_ns.Macros (item_at scope.now.macros name.now) }
{
    bound_macro(scope.macro_item(name))
}

/// What stands at a key of a scope.
fn bound_scope(scope: &ItemScope, key: &Key) -> Option<Bound>
    ensures value { result ≡ bound_scope scope.now key.now }
{
    match key {
        Key::Types(name) => type_in(scope, name),
        Key::Values(name) => value_in(scope, name),
        Key::Macros(name) => macro_in(scope, name),
        Key::Unnamed(id) => bound_trait(*id, scope.unnamed_trait_vis(*id)),
    }
}

/// What stands at a key of a module of a map.
#[tactic(auto, using(crate::proofs::Found::scoped))]
pub(crate) fn bound_inside(map: &DefMap, at: u32, key: &Key) -> Option<Bound>
    ensures value { result ≡ bound_inside key.now (module_at map.now at) }
{
    match map.scope(at) {
        Some(scope) => bound_scope(scope, key),
        None => None,
    }
}

/// Who may see a trait that a module of a map has without a name.
pub(crate) fn trait_vis(map: &DefMap, at: u32, id: TraitId) -> Option<Visibility>
    ensures value { result ≡ trait_vis (module_at map.now at) id }
{
    match map.scope(at) {
        Some(scope) => scope.unnamed_trait_vis(id),
        None => None,
    }
}

/// What a name stands for in a module of a finished map.
#[tactic(auto, using(hir_def_map_rules::proofs::LookUps::found))]
fn entry_outside(world: WorldPart<'_>, module: ModuleId, name: &Name) -> PerNs
    ensures value { result ≡ entry_in (part_of world.entry) «module» name.now }
{
    match world.map(module.map) {
        Some(map) => map.entry(module.index, name),
        None => PerNs::none(),
    }
}

/// Who may see a trait that a module of a finished map has without a name.
fn trait_vis_outside(world: WorldPart<'_>, module: ModuleId, id: TraitId) -> Option<Visibility>
    ensures value { result ≡ trait_vis (module_in (part_of world.entry) «module») id }
{
    match world.map(module.map) {
        Some(map) => trait_vis(map, module.index, id),
        None => None,
    }
}

/// A scope where a name stands for another definition, if it stands for one.
fn redefine(scope: &mut ItemScope, name: &Name, def: ItemInNs, vis: Visibility)
    ensures value { scope.new ≡ redefined name.now def vis scope.old }
{
    match def {
        ItemInNs::Types(def) => {
            if scope.has_type(name) {
                scope.update_def_types(name, def, vis);
            }
        }
        ItemInNs::Values(def) => {
            if scope.has_value(name) {
                scope.update_def_values(name, def, vis);
            }
        }
        ItemInNs::Macros(def) => {
            if scope.has_macro(name) {
                scope.update_def_macros(name, def, vis);
            }
        }
    }
}

/// A scope where others may see what stands at a key, if something does.
fn revise(scope: &mut ItemScope, key: &Key, vis: Visibility) -> Result<(), AllocError>
    ensures ok { OnOk result (scope.new ≡ revised key.now vis scope.old) }
{
    match key {
        Key::Types(name) => {
            if scope.has_type(name) {
                scope.update_visibility_types(name, vis);
            }
            Ok(())
        }
        Key::Values(name) => {
            if scope.has_value(name) {
                scope.update_visibility_values(name, vis);
            }
            Ok(())
        }
        Key::Macros(name) => {
            if scope.has_macro(name) {
                scope.update_visibility_macros(name, vis);
            }
            Ok(())
        }
        Key::Unnamed(id) => scope.push_unnamed_trait(*id, vis, None),
    }
}

/// Changes who may see what stands at a key of a module.
fn revise_at(map: &mut DefMap, at: u32, key: &Key, vis: Visibility) -> Result<(), AllocError>
    ensures ok { OnOk result (map.new ≡ with_scope map.old at (revised key.now vis)) }
{
    if at >= map.module_count() {
        return Ok(());
    }
    revise(map.scope_mut(at), key, vis)
}

/// Gives a name of a module another definition.
fn redefine_at(map: &mut DefMap, at: u32, name: &Name, def: ItemInNs, vis: Visibility)
    ensures value { map.new ≡ with_scope map.old at (redefined name.now def vis) }
{
    if at < map.module_count() {
        redefine(map.scope_mut(at), name, def, vis);
    }
}

/// Gives a module a trait without a name.
fn keep_trait_at(
    map: &mut DefMap,
    at: u32,
    id: TraitId,
    vis: Visibility,
    leaf: Option<ImportId>,
) -> Result<(), AllocError>
    ensures ok { OnOk result (map.new ≡ with_scope map.old at (with_trait id vis leaf)) }
{
    if at >= map.module_count() {
        return Ok(());
    }
    map.scope_mut(at).push_unnamed_trait(id, vis, leaf)
}

impl OpenScopes<'_> {
    /// What a name of a target stands for.
    fn entry(&self, of: Target, name: &Name) -> PerNs
        ensures value { result ≡ entries_of (value_of self.now) of name.now }
    {
        match of {
            Target::Own(at) => self.map.entry(at, name),
            Target::Module(module) => open_items(
                is_foreign(self.map.id(), module),
                entry_outside(self.world, module, name),
            ),
            Target::Enum(id) => {
                variant_items(DefMaps::new(self.world, &self.map).variant(id, name))
            }
        }
    }

    /// Who may see a trait that a target has without a name.
    fn trait_vis(&self, of: Target, id: TraitId) -> Option<Visibility>
        ensures value { result ≡ traits_of (value_of self.now) of id }
    {
        match of {
            Target::Own(at) => trait_vis(&self.map, at, id),
            Target::Module(module) => open_vis(
                is_foreign(self.map.id(), module),
                trait_vis_outside(self.world, module, id),
            ),
            Target::Enum(_) => None,
        }
    }

    /// What stands at a key of a target, by all that its name stands for.
    fn bound_elsewhere(&self, of: Target, key: &Key) -> Option<Bound>
        ensures value { result ≡ bound_of (value_of self.now) of key.now }
    {
        match key {
            Key::Types(name) => bound_type(self.entry(of, name).types),
            Key::Values(name) => bound_value(self.entry(of, name).values),
            Key::Macros(name) => bound_macro(self.entry(of, name).macros),
            Key::Unnamed(id) => bound_trait(*id, self.trait_vis(of, *id)),
        }
    }

    /// What stands at a key of a target.
    #[tactic(auto, using(hir_import_growth::specs::ViewLaws::inside_own))]
    fn bound_of(&self, of: Target, key: &Key) -> Option<Bound>
        ensures value { result ≡ bound_of (value_of self.now) of key.now }
    {
        match of {
            Target::Own(at) => bound_inside(&self.map, at, key),
            Target::Module(_) | Target::Enum(_) => self.bound_elsewhere(of, key),
        }
    }

    /// Pushes items to a name of a module by a glob.
    fn push_by(&mut self, at: u32, name: &Name, items: PerNs, by: GlobId) -> Result<(), AllocError>
        ensures ok { OnOk result (self.new ≡ with_value self.old (pushed_by (value_of self.old) at name.now items by)) }
    {
        let by = Some(ImportOrExternCrate::Glob(by));
        self.map
            .push(&mut self.globs, at, name.clone()?, items, by)?;
        Ok(())
    }

    /// Gives a module a trait without a name.
    fn keep_trait(&mut self, at: u32, id: TraitId, vis: Visibility) -> Result<(), AllocError>
        ensures ok { OnOk result (self.new ≡ with_value self.old (with_trait_at (value_of self.old) at id vis)) }
    {
        keep_trait_at(&mut self.map, at, id, vis, None)
    }
}

impl Names for OpenScopes<'_> {
    ghost use Rattle.hir_import_resolution.specs.Scopes.{open_table};
    ghost use Rattle.hir_import_resolution.specs.Inner.OpenLaws.{is_open_table};

    ghost table = { open_table };

    fn bound(&self, of: Target, key: &Key) -> Option<Bound> {
        self.bound_of(of, key)
    }

    #[tactic(auto, unfolding(hir_import_rules::specs::Visibilities::sees_in, hir_nameres::specs::DefMaps::maps_of))]
    fn sees(&self, at: u32, vis: Visibility) -> bool {
        let from = ModuleId {
            map: self.map.id(),
            index: at,
        };
        DefMaps::new(self.world, &self.map).is_visible(vis, from)
    }

    fn lesser(&self, glob: Visibility, source: Visibility) -> Visibility {
        match lesser(&self.map, self.world, glob, source) {
            Some(vis) => vis,
            None => glob,
        }
    }

    #[tactic(auto, unfolding(hir_import_rules::specs::Visibilities::greater_in, hir_nameres::specs::DefMaps::maps_of))]
    fn greater(&self, one: Visibility, other: Visibility) -> Option<Visibility> {
        let maps = DefMaps::new(self.world, &self.map);
        one.max(&maps, other, self.map.id())
    }

    fn keys(&self, alloc: Global, of: Target) -> Result<Vec<Key>, AllocError> {
        self.keys_of(alloc, of)
    }

    fn copy(
        &mut self,
        slot: &Slot,
        _of: Target,
        shown: Bound,
        vis: Visibility,
        by: GlobId,
    ) -> Result<(), AllocError> {
        match &slot.key {
            Key::Types(name) | Key::Values(name) | Key::Macros(name) => {
                self.push_by(slot.at, name, items_by(shown.def, vis), by)
            }
            Key::Unnamed(id) => self.keep_trait(slot.at, *id, vis),
        }
    }

    fn follow(
        &mut self,
        slot: &Slot,
        _of: Target,
        shown: Bound,
        vis: Visibility,
    ) -> Result<(), AllocError> {
        match &slot.key {
            Key::Types(name) | Key::Values(name) | Key::Macros(name) => {
                redefine_at(&mut self.map, slot.at, name, shown.def, vis);
                Ok(())
            }
            Key::Unnamed(id) => self.keep_trait(slot.at, *id, vis),
        }
    }

    fn raise(&mut self, slot: &Slot, vis: Visibility) -> Result<(), AllocError> {
        revise_at(&mut self.map, slot.at, &slot.key, vis)
    }

    ghost writes = { is_open_table };
}
