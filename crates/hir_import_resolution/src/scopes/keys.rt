//! The keys at which something is bound, in the order in which a glob brings it.
ghost use Rattle.std.specs.Prelude.{◌≡◌, ◌++◌, IfOk, OnOk, option_copied, option_map};
ghost use Rattle.hir_def_map_rules.specs.Overlay.{overlay, variants_in};
ghost use Rattle.hir_nameres.specs.WorldParts.{part_of};
ghost use Rattle.hir_import_resolution.specs.KeyLists.{enum_keys, has_namespace, key_in, keys_among, keys_in, keys_of, name_keys, scope_in, scope_keys, trait_key, trait_keys, traits_in, variant_keys};
ghost use Rattle.hir_import_resolution.specs.Scopes.{value_of};

use crate::scopes::{OpenScopes, is_foreign, is_open, variant_items};
use hir_base::ids::{EnumId, ModuleId, TraitId};
use hir_base::name::Name;
use hir_glob_imports::{Key, Target};
use hir_nameres::def_maps::DefMaps;
use hir_nameres::hir_scope::item_scope::ItemScope;
use hir_nameres::hir_scope::item_scope::iter::bindings::Bindings;
use hir_nameres::hir_scope::per_ns::{Namespace, PerNs};
use hir_nameres::hir_scope::visibility::Visibility;
use hir_nameres::nameres::enum_variants::EnumVariants;
use hir_nameres::world::part::WorldPart;
use std::alloc::{AllocError, Global};

fn key_in(namespace: Namespace, name: &Name) -> Result<Key, AllocError>
    ensures value { IfOk result (λ key. key ≡ key_in namespace name.now) }
{
    let name = name.clone()?;
    match namespace {
        Namespace::Types => Ok(Key::Types(name)),
        Namespace::Values => Ok(Key::Values(name)),
        Namespace::Macros => Ok(Key::Macros(name)),
    }
}

/// Adds the names that stand for something in one namespace.
fn add_names<Def, Import>(
    keys: &mut Vec<Key>,
    namespace: Namespace,
    crossing: bool,
    names: Bindings<'_, Def, Import>,
) -> Result<(), AllocError>
    ensures ok { OnOk result (keys.new.items ≡ keys.old.items ++ name_keys namespace crossing names.entry) }
{
    let mut left = names;
    'next: while let Some((name, item)) = left.next() {
        if is_open(crossing, item.vis) {
            keys.push(key_in(namespace, name)?)?;
        }
    }
    Ok(())
}

/// Adds a trait that has this visibility without a name, if it has one.
fn add_trait(
    keys: &mut Vec<Key>,
    crossing: bool,
    id: TraitId,
    vis: Option<Visibility>,
) -> Result<(), AllocError>
    ensures ok { OnOk result (keys.new.items ≡ keys.old.items ++ trait_key crossing id vis) }
{
    match vis {
        Some(vis) if is_open(crossing, vis) => {
            keys.push(Key::Unnamed(id))?;
            Ok(())
        }
        _ => Ok(()),
    }
}

/// Adds the traits that a scope has without a name.
fn add_traits(keys: &mut Vec<Key>, crossing: bool, scope: &ItemScope) -> Result<(), AllocError>
    ensures ok { OnOk result (keys.new.items ≡ keys.old.items ++ trait_keys crossing scope.now (traits_in scope.now)) }
{
    let mut left = scope.traits();
    'next: while let Some(id) = left.next() {
        add_trait(keys, crossing, id, scope.unnamed_trait_vis(id))?;
    }
    Ok(())
}

/// The keys of a scope.
fn scope_keys(alloc: Global, crossing: bool, scope: &ItemScope) -> Result<Vec<Key>, AllocError>
    ensures value { IfOk result (λ keys. keys.items ≡ scope_keys crossing scope.now) }
{
    let mut keys = Vec::new(alloc);
    add_names(&mut keys, Namespace::Types, crossing, scope.types())?;
    add_names(&mut keys, Namespace::Values, crossing, scope.values())?;
    add_names(&mut keys, Namespace::Macros, crossing, scope.macros())?;
    add_traits(&mut keys, crossing, scope)?;
    Ok(keys)
}

fn has_namespace(namespace: Namespace, items: PerNs) -> bool
    ensures value { result ≡ has_namespace namespace items }
{
    match namespace {
        Namespace::Types => items.types.is_some(),
        Namespace::Values => items.values.is_some(),
        Namespace::Macros => items.macros.is_some(),
    }
}

/// Adds the variants of an enum that are something in a namespace.
fn add_variants(
    keys: &mut Vec<Key>,
    namespace: Namespace,
    variants: &EnumVariants,
) -> Result<(), AllocError>
    ensures ok { OnOk result (keys.new.items ≡ keys.old.items ++ variant_keys namespace variants.now) }
{
    let mut left = variants.iter();
    'next: while let Some((name, variant)) = left.next() {
        if has_namespace(namespace, variant_items(Some(*variant))) {
            keys.push(key_in(namespace, name)?)?;
        }
    }
    Ok(())
}

/// The keys of an enum.
fn enum_keys(alloc: Global, variants: &EnumVariants) -> Result<Vec<Key>, AllocError>
    ensures value { IfOk result (λ keys. keys.items ≡ enum_keys variants.now) }
{
    let mut keys = Vec::new(alloc);
    add_variants(&mut keys, Namespace::Types, variants)?;
    add_variants(&mut keys, Namespace::Values, variants)?;
    Ok(keys)
}

/// The keys of a scope, where it is there.
fn keys_in(alloc: Global, crossing: bool, scope: Option<&ItemScope>) -> Result<Vec<Key>, AllocError>
    ensures value { IfOk result (λ keys. keys.items ≡ keys_in crossing (option_copied scope.entry)) }
{
    match scope {
        Some(scope) => scope_keys(alloc, crossing, scope),
        None => Ok(Vec::new(alloc)),
    }
}

/// The keys of an enum, where its variants are there.
fn keys_among(alloc: Global, variants: Option<&EnumVariants>) -> Result<Vec<Key>, AllocError>
    ensures value { IfOk result (λ keys. keys.items ≡ keys_among (option_copied variants.entry)) }
{
    match variants {
        Some(variants) => enum_keys(alloc, variants),
        None => Ok(Vec::new(alloc)),
    }
}

/// The scope of a module of a finished map.
#[tactic(auto, using(crate::proofs::Found::found))]
fn scope_outside<'a>(world: WorldPart<'a>, module: ModuleId) -> Option<&'a ItemScope>
    ensures value { option_map (λ s. s.now) result ≡ scope_in (part_of world.entry) «module» }
{
    match world.map(module.map) {
        Some(map) => map.scope(module.index),
        None => None,
    }
}

impl OpenScopes<'_> {
    /// The variants of an enum.
    #[tactic(auto, using(crate::proofs::Found::found))]
    fn variants(&self, id: EnumId) -> Option<&EnumVariants>
        ensures value { option_map (λ v. v.now) result ≡ variants_in (overlay (part_of self.now.world) self.now.map) id }
    {
        match DefMaps::new(self.world, &self.map).map(id.loc.container.map) {
            Some(map) => map.enum_variants(id),
            None => None,
        }
    }

    /// The keys at which a target has something.
    pub(super) fn keys_of(&self, alloc: Global, of: Target) -> Result<Vec<Key>, AllocError>
        ensures value { IfOk result (λ keys. keys.items ≡ keys_of (value_of self.now) of) }
    {
        match of {
            Target::Own(at) => keys_in(alloc, false, self.map.scope(at)),
            Target::Module(module) => keys_in(
                alloc,
                is_foreign(self.map.id(), module),
                scope_outside(self.world, module),
            ),
            Target::Enum(id) => keys_among(alloc, self.variants(id)),
        }
    }
}
