//! The first segment of a path.
ghost use Rattle.std.specs.Prelude.{◌≡◌};
ghost use Rattle.hir_nameres.specs.DefMaps.{maps_of};
ghost use Rattle.hir_nameres.specs.Scoping.Query.{asking_of};
ghost use Rattle.hir_def_map_rules.specs.Scoping.FirstSegment.{builtin_name, extern_name, fits, is_block_root, keep_fitting, legacy_name, macro_use_name, name_in_module, name_in_preludes, name_in_crate_root_or_extern_prelude, names_module, of_style, prelude_name, scope_name, shadow_before, unless_block_root, with_builtin};

use crate::nameres::path_resolution::query::Query;
use crate::nameres::path_resolution::{BuiltinShadowMode, MacroSubNs};
use crate::nameres::reads::crate_root;
use hir_base::builtin_type::BuiltinType;
use hir_base::ids::{ModuleDefId, ModuleId};
use hir_base::macro_kind::{MacroId, macro_styles_from_id};
use hir_base::name::Name;
use hir_def_map_rules::hir_scope::imports::ImportOrExternCrate;
use hir_def_map_rules::hir_scope::per_ns::{MacrosItem, PerNs, TypesItem};
use hir_def_map_rules::hir_scope::visibility::Visibility;

/// Whether a macro may be asked for in a style.
fn fits(sub_ns: Option<MacroSubNs>, makro: MacroId) -> bool
    ensures value { result ≡ fits sub_ns makro }
{
    let styles = macro_styles_from_id(makro);
    match sub_ns {
        None => true,
        Some(MacroSubNs::Bang) => styles.fn_like,
        Some(MacroSubNs::Attr) => styles.attr || styles.derive,
    }
}

/// A macro, where it may be asked for in a style.
fn keep_fitting(sub_ns: Option<MacroSubNs>, item: Option<MacrosItem>) -> Option<MacrosItem>
    ensures value { result ≡ keep_fitting sub_ns item }
{
    match item {
        Some(item) => {
            if fits(sub_ns, item.def) {
                Some(item)
            } else {
                None
            }
        }
        None => None,
    }
}

/// The items, a macro only if it may be asked for in the style.
fn of_style(sub_ns: Option<MacroSubNs>, items: PerNs) -> PerNs
    ensures value { result ≡ of_style sub_ns items }
{
    PerNs {
        types: items.types,
        values: items.values,
        macros: keep_fitting(sub_ns, items.macros),
    }
}

/// Whether a module is the root of a block's map.
pub fn is_block_root(at: ModuleId) -> bool
    ensures value { result ≡ is_block_root at }
{
    at.map.block.is_some() && at.index == 0
}

/// The builtin type of a name; the map of a block has none.
#[tactic(auto, unfolding(hir_def_map_rules::specs::Scoping::FirstSegment::builtin_name))]
fn builtin_name(at: ModuleId, name: &Name) -> PerNs
    ensures value { result ≡ builtin_name at name.now }
{
    if at.map.block.is_some() {
        return PerNs::none();
    }
    match BuiltinType::by_name(name) {
        Some(builtin) => PerNs::types(ModuleDefId::BuiltinType(builtin), Visibility::Public, None),
        None => PerNs::none(),
    }
}

/// Whether a type is a module.
fn names_module(types: Option<TypesItem>) -> bool
    ensures value { result ≡ names_module types }
{
    match types {
        Some(item) => matches!(item.def, ModuleDefId::ModuleId(_)),
        None => false,
    }
}

/// What a scope has, joined with a builtin type.
fn with_builtin(shadow: BuiltinShadowMode, scope: PerNs, builtin: PerNs) -> PerNs
    ensures value { result ≡ with_builtin shadow scope builtin }
{
    match shadow {
        BuiltinShadowMode::Module => scope.or(builtin),
        BuiltinShadowMode::Other => {
            if names_module(scope.types) {
                builtin.or(scope)
            } else {
                scope.or(builtin)
            }
        }
    }
}

/// The mode in which a first segment is looked up before others.
pub fn shadow_before(others: &[Name], shadow: BuiltinShadowMode) -> BuiltinShadowMode
    ensures value { result ≡ shadow_before others.now shadow }
{
    match others {
        [] => shadow,
        [_, ..] => BuiltinShadowMode::Module,
    }
}

impl Query<'_> {
    /// The macro of a name in textual scope, where its style is asked for.
    fn legacy_name(&self, at: ModuleId, name: &Name) -> PerNs
        ensures value { result ≡ legacy_name (maps_of self.now.maps) self.now.sub_ns at name.now }
    {
        match self.maps.legacy_macro(at, name) {
            Some(makro) => {
                if fits(self.sub_ns, makro) {
                    PerNs::macros(makro, Visibility::Public, None)
                } else {
                    PerNs::none()
                }
            }
            None => PerNs::none(),
        }
    }

    /// What the scope of a module has, macros only of the style that is asked for.
    fn scope_name(&self, at: ModuleId, name: &Name) -> PerNs
        ensures value { result ≡ scope_name (maps_of self.now.maps) self.now.sub_ns at name.now }
    {
        of_style(self.sub_ns, self.maps.entry(at, name))
    }

    /// The crate of a name.
    pub fn extern_name(&self, name: &Name) -> PerNs
        ensures value { result ≡ extern_name (asking_of self.now).local name.now }
    {
        let Some(local) = self.local else {
            return PerNs::none();
        };
        match local.extern_crate(name) {
            Some((module, extern_crate)) => PerNs::types(
                ModuleDefId::ModuleId(module),
                Visibility::Public,
                extern_crate.map(ImportOrExternCrate::ExternCrate),
            ),
            None => PerNs::none(),
        }
    }

    /// What the `macro_use` prelude of a module's map has.
    fn macro_use_name(&self, at: ModuleId, name: &Name) -> PerNs
        ensures value { result ≡ macro_use_name (maps_of self.now.maps) at name.now }
    {
        match self.maps.macro_use(at.map, name) {
            Some((makro, extern_crate)) => PerNs::macros(
                makro,
                Visibility::Public,
                extern_crate.map(ImportOrExternCrate::ExternCrate),
            ),
            None => PerNs::none(),
        }
    }

    /// What the prelude module of a module's map has.
    fn prelude_name(&self, at: ModuleId, name: &Name) -> PerNs
        ensures value { result ≡ prelude_name (maps_of self.now.maps) at name.now }
    {
        match self.maps.prelude(at.map) {
            Some((prelude, _)) => self.maps.entry(prelude, name),
            None => PerNs::none(),
        }
    }

    /// The crate of a name; a block's root asks for none.
    fn extern_name_at(&self, at: ModuleId, name: &Name) -> PerNs
        ensures value { result ≡ unless_block_root at (extern_name (asking_of self.now).local name.now) }
    {
        if is_block_root(at) {
            PerNs::none()
        } else {
            self.extern_name(name)
        }
    }

    /// What the prelude module has; a block's root asks for nothing in it.
    fn prelude_name_at(&self, at: ModuleId, name: &Name) -> PerNs
        ensures value { result ≡ unless_block_root at (prelude_name (maps_of self.now.maps) at name.now) }
    {
        if is_block_root(at) {
            PerNs::none()
        } else {
            self.prelude_name(at, name)
        }
    }

    /// What a name stands for in a module where it is the first of a path.
    pub fn name_in_module(&self, shadow: BuiltinShadowMode, at: ModuleId, name: &Name) -> PerNs
        ensures value { result ≡ name_in_module (maps_of self.now.maps) (asking_of self.now).local self.now.sub_ns shadow at name.now }
    {
        let scope = with_builtin(shadow, self.scope_name(at, name), builtin_name(at, name));
        let own = self.legacy_name(at, name).or(scope);
        let outer = if own.is_full() {
            own
        } else {
            own.or(self.extern_name_at(at, name))
        };
        let used = if outer.is_full() {
            outer
        } else {
            outer.or(self.macro_use_name(at, name))
        };
        if used.is_full() {
            used
        } else {
            used.or(self.prelude_name_at(at, name))
        }
    }

    /// What a name stands for in the preludes alone.
    pub fn name_in_preludes(&self, at: ModuleId, name: &Name) -> PerNs
        ensures value { result ≡ name_in_preludes (maps_of self.now.maps) (asking_of self.now).local at name.now }
    {
        let named = self.extern_name(name);
        let used = if named.is_full() {
            named
        } else {
            named.or(self.macro_use_name(at, name))
        };
        if used.is_full() {
            used
        } else {
            used.or(self.prelude_name(at, name))
        }
    }

    /// What a name stands for in the root of a module's crate, or else among the crates.
    pub fn name_in_crate_root_or_extern_prelude(&self, at: ModuleId, name: &Name) -> PerNs
        ensures value { result ≡ name_in_crate_root_or_extern_prelude (maps_of self.now.maps) (asking_of self.now).local at name.now }
    {
        let own = self.maps.entry(crate_root(at.map.krate), name);
        if own.is_full() {
            own
        } else {
            own.or(self.extern_name_at(at, name))
        }
    }
}
