//! The further segments of a path.
ghost use Rattle.std.specs.Prelude.{◌≡◌, ℕ, ◌+◌, ◌<◌, ◌^◌, length};
ghost use Rattle.hir_def_map_rules.specs.HirPerNs.PerNs.{keep_item};
ghost use Rattle.hir_def_map_rules.specs.HirPerNs.Visibility.{is_visible};
ghost use Rattle.hir_def_map_rules.specs.Ancestors.{above_in, holders_in};
ghost use Rattle.hir_nameres.specs.DefMaps.{maps_of};
ghost use Rattle.hir_def_map_rules.specs.Scoping.Segments.{after_enum, after_variant, nearest_non_block_module, resolved, rest, seen, stopped, through_adt, unresolved, variant_bound};

use crate::def_maps::DefMaps;
use crate::nameres::path_resolution::first_segment::is_block_root;
use crate::nameres::path_resolution::{
    ReachedFixedPoint, ResolvePathResult, ResolvePathResultPrefixInfo,
};
use hir_base::ids::{AdtId, ModuleDefId, ModuleId};
use hir_base::name::Name;
use hir_def_map_rules::enum_variants::EnumVariant;
use hir_def_map_rules::hir_scope::per_ns::{Item, PerNs, TypesItem};
use hir_def_map_rules::hir_scope::visibility::Visibility;

/// A variant: a type, and a value where it has a constructor.
fn variant_bound(vis: Visibility, variant: EnumVariant) -> PerNs
    ensures value { result ≡ variant_bound vis variant }
{
    let constructor = if variant.shape.has_value_ns_ctor() {
        Some(vis)
    } else {
        None
    };
    PerNs::from_def(
        ModuleDefId::EnumVariantId(variant.id),
        vis,
        constructor,
        None,
    )
}

/// A variant and what comes after it, where nothing can.
fn after_variant(others: &[Name], vis: Visibility, variant: EnumVariant) -> ResolvePathResult
    ensures value { result ≡ after_variant others.now vis variant }
{
    match others {
        [] => ResolvePathResult {
            resolved_def: variant_bound(vis, variant),
            segment_index: None,
            reached_fixedpoint: ReachedFixedPoint::Yes,
            prefix_info: ResolvePathResultPrefixInfo {
                differing_crate: false,
                enum_variant: true,
            },
        },
        [_, ..] => ResolvePathResult::unresolved(ReachedFixedPoint::No),
    }
}

/// What comes after an enum: a variant, or a name that none has.
fn after_enum(
    others: &[Name],
    at: usize,
    item: TypesItem,
    variant: Option<EnumVariant>,
) -> ResolvePathResult
    ensures value { result ≡ after_enum others.now at item variant }
{
    match variant {
        Some(variant) => after_variant(others, item.vis, variant),
        None => ResolvePathResult::stopped(at, item),
    }
}

impl DefMaps<'_> {
    /// An item, where a module may see it.
    fn seen_item<Def: Copy, Import: Copy>(
        &self,
        from: ModuleId,
        item: Option<Item<Def, Import>>,
    ) -> Option<Item<Def, Import>>
        ensures value { result ≡ keep_item (λ v. is_visible (above_in (maps_of self.now)) (holders_in (maps_of self.now)) v from) item }
    {
        match item {
            Some(item) => {
                if item.vis.is_visible_from(self, from) {
                    Some(item)
                } else {
                    None
                }
            }
            None => None,
        }
    }

    /// What a name stands for in a module, as far as another module may see it.
    fn seen(&self, from: ModuleId, at: ModuleId, name: &Name) -> PerNs
        ensures value { result ≡ seen (maps_of self.now) from at name.now }
    {
        let entry = self.entry(at, name);
        PerNs {
            types: self.seen_item(from, entry.types),
            values: self.seen_item(from, entry.values),
            macros: self.seen_item(from, entry.macros),
        }
    }

    /// The type that a name stands for in a module, where another module may see it.
    pub fn seen_type(&self, from: ModuleId, at: ModuleId, name: &Name) -> Option<TypesItem>
        ensures value { result ≡ (seen (maps_of self.now) from at name.now).types }
    {
        self.seen_item(from, self.entry(at, name).types)
    }

    /// What a name stands for in a module, as far as another module may see it: before further segments its type alone,
    /// which is all that they are looked up in.
    fn seen_before(&self, from: ModuleId, at: ModuleId, name: &Name, others: &[Name]) -> PerNs
        ensures value { (onward : ModuleId) (i : ℕ) → rest (maps_of self.now) onward others.now i result
            ≡ rest (maps_of self.now) onward others.now i (seen (maps_of self.now) from at name.now) }
    {
        match others {
            [] => self.seen(from, at, name),
            [_, ..] => PerNs {
                types: self.seen_type(from, at, name),
                values: None,
                macros: None,
            },
        }
    }

    /// The module, or the nearest of those that hold it that is no block's root.
    #[tactic(auto, using(hir_def_map_rules::proofs::Blocks::stops), unfolding(hir_def_map_rules::specs::Scoping::Segments::nearest_non_block_module))]
    pub fn nearest_non_block_module(&self, module: ModuleId) -> ModuleId
        ensures value { result ≡ nearest_non_block_module (maps_of self.now) «module» }
    {
        let mut at = module;
        'out: while is_block_root(at) {
            match self.holder_of(at) {
                Some(holder) => at = holder,
                None => return at,
            }
        }
        at
    }

    /// A segment after what names a struct, a union or an enum.
    fn through_adt(
        &self,
        others: &[Name],
        at: usize,
        segment: &Name,
        item: TypesItem,
        adt: AdtId,
    ) -> ResolvePathResult
        ensures value { result ≡ through_adt (maps_of self.now) others.now at segment.now item adt }
    {
        match adt {
            AdtId::EnumId(id) => after_enum(others, at, item, self.variant(id, segment)),
            AdtId::StructId(_) | AdtId::UnionId(_) => ResolvePathResult::stopped(at, item),
        }
    }

    /// The segments that are left, the first of which has the number `start`, after what names `first`.
    ///
    /// In another crate the path goes on from the module that it enters.
    pub fn resolve_rest(
        &self,
        from: ModuleId,
        segments: &[Name],
        start: usize,
        first: PerNs,
    ) -> ResolvePathResult
        requires in_range { start + length segments.now < 2 ^ 64 }
        ensures value { result ≡ rest (maps_of self.now) from segments.now start first }
    {
        let mut from = from;
        let mut has_crossed = false;
        let mut now = first;
        let mut at = start;
        let mut left = segments;
        'walk: while let [segment, others @ ..] = left {
            let Some(item) = now.types else {
                return ResolvePathResult::unresolved(ReachedFixedPoint::No).after_crossing(
                    has_crossed,
                );
            };
            let below = match item.def {
                ModuleDefId::ModuleId(below) => below,
                ModuleDefId::AdtId(adt) => {
                    return self
                        .through_adt(others, at, segment, item, adt)
                        .after_crossing(has_crossed);
                }
                _ => return ResolvePathResult::stopped(at, item).after_crossing(has_crossed),
            };
            if below.map.krate == from.map.krate {
                now = self.seen_before(from, below, segment, others);
            } else {
                from = self.nearest_non_block_module(below);
                has_crossed = true;
                now = self.seen_before(from, from, segment, others);
            }
            at += 1;
            left = others;
        }
        ResolvePathResult::resolved(now).after_crossing(has_crossed)
    }
}
