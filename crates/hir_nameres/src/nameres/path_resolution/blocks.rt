//! Paths that are asked from inside blocks.
ghost use Rattle.std.specs.Prelude.{◌≡◌};
ghost use Rattle.hir_nameres.specs.DefMaps.{maps_of};
ghost use Rattle.hir_nameres.specs.Scoping.Query.{asking_of};
ghost use Rattle.hir_def_map_rules.specs.Scoping.Blocks.{from_blocks, in_preludes, joined, with_preludes};

use crate::nameres::path_resolution::first_segment::is_block_root;
use crate::nameres::path_resolution::query::Query;
use crate::nameres::path_resolution::start::is_import;
use crate::nameres::path_resolution::{ReachedFixedPoint, ResolvePathResult};
use crate::nameres::reads::crate_root;
use hir_base::ids::ModuleId;
use hir_base::mod_path::PathKind;
use hir_base::name::Name;

impl Query<'_> {
    /// A path in the preludes of a crate, asked from its root.
    fn in_preludes(&self, root: ModuleId, kind: PathKind, segments: &[Name]) -> ResolvePathResult
        ensures value { result ≡ in_preludes (maps_of self.now.maps) (asking_of self.now) root kind segments.now }
    {
        let [first, others @ ..] = segments else {
            return ResolvePathResult::unresolved(ReachedFixedPoint::Yes);
        };
        match kind {
            PathKind::Plain => {
                if self.maps.is_in_edition_2015(root.map) && is_import(self.mode) {
                    let names = self.extern_name(first);
                    self.maps.resolve_rest(root, others, 1, names)
                } else {
                    let names = self.name_in_preludes(root, first);
                    self.maps.resolve_rest(root, others, 1, names)
                }
            }
            PathKind::Abs => {
                let names = self.extern_name(first);
                if self.maps.is_in_edition_2015(root.map) {
                    self.maps.resolve_rest(root, others, 1, names)
                } else {
                    self.maps.abs_from(root, others, names)
                }
            }
            PathKind::Crate | PathKind::DollarCrate(_) | PathKind::Super(_) => {
                ResolvePathResult::unresolved(ReachedFixedPoint::Yes)
            }
        }
    }

    /// An answer, and from a module inside a block that isn't its root what the preludes have besides.
    fn with_preludes(
        &self,
        kind: PathKind,
        segments: &[Name],
        found: ResolvePathResult,
        at: ModuleId,
    ) -> ResolvePathResult
        ensures value { result ≡ with_preludes (maps_of self.now.maps) (asking_of self.now) kind segments.now found at }
    {
        if at.map.block.is_some() && !is_block_root(at) {
            let root = crate_root(at.map.krate);
            return found.joined(self.in_preludes(root, kind, segments));
        }
        found
    }

    /// A path, its root and its segments apart; a block's root has what its holder has too.
    #[tactic(auto, using(hir_def_map_rules::proofs::Blocks::stops))]
    pub fn resolve(&self, from: ModuleId, kind: PathKind, segments: &[Name]) -> ResolvePathResult
        ensures value { result ≡ from_blocks (maps_of self.now.maps) (asking_of self.now) from kind segments.now }
    {
        let mut found = self.from_start(from, kind, segments);
        let mut at = from;
        'out: while is_block_root(at) {
            match self.maps.holder_of(at) {
                Some(holder) => {
                    found = found.joined(self.from_start(holder, kind, segments));
                    at = holder;
                }
                None => return self.with_preludes(kind, segments, found, at),
            }
        }
        self.with_preludes(kind, segments, found, at)
    }
}
