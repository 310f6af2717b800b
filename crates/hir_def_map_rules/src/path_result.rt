//! What a path means, and how it is asked for.
ghost use Rattle.std.specs.Prelude.{◌≡◌, cond};
ghost use Rattle.hir_def_map_rules.specs.Scoping.Blocks.{either_reached, joined, later_stop};
ghost use Rattle.hir_def_map_rules.specs.Scoping.Segments.{crossing, resolved, stopped, unresolved};

use hir_scope::per_ns::{PerNs, TypesItem};

/// Whether an import asks, or something else.
#[derive(Clone, Copy, Debug, PartialEq, Eq)]
pub enum ResolveMode {
    Import,
    Other,
}

/// Whether further items could not change the answer.
#[derive(Clone, Copy, Debug, PartialEq, Eq)]
pub enum ReachedFixedPoint {
    Yes,
    No,
}

/// What the path led through.
#[derive(Clone, Copy, Debug, Default, PartialEq, Eq)]
pub struct ResolvePathResultPrefixInfo {
    pub differing_crate: bool,
    /// An enum, and a variant of it by name.
    pub enum_variant: bool,
}

/// What a path means.
#[derive(Clone, Copy, Debug, PartialEq, Eq)]
pub struct ResolvePathResult {
    pub resolved_def: PerNs,
    /// The number of the first segment that was not resolved, where the path stopped before its end.
    pub segment_index: Option<usize>,
    pub reached_fixedpoint: ReachedFixedPoint,
    pub prefix_info: ResolvePathResultPrefixInfo,
}

/// The path led through modules of this crate alone.
const OWN_CRATE: ResolvePathResultPrefixInfo = ResolvePathResultPrefixInfo {
    differing_crate: false,
    enum_variant: false,
};

/// The later of two stops, or the one that is there.
fn later_stop(one: Option<usize>, other: Option<usize>) -> Option<usize>
    ensures value { result ≡ later_stop one other }
{
    match (one, other) {
        (Some(one), Some(other)) => Some(one.max(other)),
        (Some(one), None) => Some(one),
        (None, other) => other,
    }
}

fn either_reached(one: ReachedFixedPoint, other: ReachedFixedPoint) -> ReachedFixedPoint
    ensures value { result ≡ either_reached one other }
{
    match one {
        ReachedFixedPoint::Yes => one,
        ReachedFixedPoint::No => other,
    }
}

impl ResolvePathResult {
    /// The whole path was resolved.
    pub fn resolved(items: PerNs) -> ResolvePathResult
        ensures value { result ≡ resolved items }
    {
        ResolvePathResult {
            resolved_def: items,
            segment_index: None,
            reached_fixedpoint: ReachedFixedPoint::Yes,
            prefix_info: OWN_CRATE,
        }
    }

    /// Nothing was found.
    pub fn unresolved(reached: ReachedFixedPoint) -> ResolvePathResult
        ensures value { result ≡ unresolved reached }
    {
        ResolvePathResult {
            resolved_def: PerNs::none(),
            segment_index: None,
            reached_fixedpoint: reached,
            prefix_info: OWN_CRATE,
        }
    }

    /// The path stopped at a type, before the segment of this number.
    pub fn stopped(segment: usize, item: TypesItem) -> ResolvePathResult
        ensures value { result ≡ stopped segment item }
    {
        ResolvePathResult {
            resolved_def: PerNs::types(item.def, item.vis, item.import),
            segment_index: Some(segment),
            reached_fixedpoint: ReachedFixedPoint::Yes,
            prefix_info: OWN_CRATE,
        }
    }

    /// The answer, where the path may have gone on in another crate.
    pub fn after_crossing(self, has_crossed: bool) -> ResolvePathResult
        ensures value { result ≡ cond has_crossed (crossing self) self }
    {
        if !has_crossed {
            return self;
        }
        ResolvePathResult {
            resolved_def: self.resolved_def,
            segment_index: self.segment_index,
            reached_fixedpoint: ReachedFixedPoint::Yes,
            prefix_info: ResolvePathResultPrefixInfo {
                differing_crate: true,
                enum_variant: self.prefix_info.enum_variant,
            },
        }
    }

    /// An answer, and what another has besides.
    pub fn joined(self, other: ResolvePathResult) -> ResolvePathResult
        ensures value { result ≡ joined self other }
    {
        ResolvePathResult {
            resolved_def: self.resolved_def.or(other.resolved_def),
            segment_index: later_stop(self.segment_index, other.segment_index),
            reached_fixedpoint: either_reached(self.reached_fixedpoint, other.reached_fixedpoint),
            prefix_info: ResolvePathResultPrefixInfo {
                differing_crate: self.prefix_info.differing_crate
                    || other.prefix_info.differing_crate,
                enum_variant: self.prefix_info.enum_variant || other.prefix_info.enum_variant,
            },
        }
    }
}
