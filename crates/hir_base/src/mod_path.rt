//! Paths, after rust-analyzer's `mod_path.rs`.
ghost use Rattle.std.specs.Prelude.{refl, ◌≡◌, ℕ, nat_eq, List, ◌++◌, IfOk};
ghost use Rattle.std.specs.Cmp.Lexicographic.{pointwise, pointwise_decides, lists_equiv, lists_total, lists_ties, nat_list_eq_equiv, nat_list_cmp_total, slice_cmp};
ghost use Rattle.std.specs.Ordering.{on, eq_of_both, then_cmp, as_partial_cmp, nat_cmp};
ghost use Rattle.std.specs.Cmp.{partial_equiv_from_equiv, and_equiv, on_equiv, on_total, then_total, both_tied, po, unsigned_Decides, unsigned_ties};
ghost use Rattle.std.specs.Hash as fed;
ghost use Rattle.std.specs.Hash.{and-Alike, on_Alike, items_Alike, same_Alike};
ghost use Rattle.hir_base.specs.declared.mod_path.PathKind.{PathKind};
ghost use Rattle.hir_base.specs.declared.mod_path.ParseError.TheVariants.{Memory};
ghost use Rattle.hir_ids.specs.Refusal.{Gives};

use crate::ids::Crate;
use crate::limit::Limit;
use crate::name::Name;
use crate::parse_path::{are_names, from_parts, has_long_name, names, parts};
use smallvec::SmallVec;
use std::alloc::{AllocError, AllocFailed, Global};
use std::cmp::Ordering;
use std::hash::{Hash, Hasher};
use std::marker::Model;
use thiserror::Error;

/// The most segments of a path.
pub const MAX_SEGMENTS: usize = 64;

/// The most levels of `super` of a path.
pub const MAX_LEVELS: usize = 255;

/// Why a text is no path, or no file, in the order in which it is looked for.
#[derive(Clone, Copy, Debug, PartialEq, Eq, Error)]
pub enum ParseError {
    /// The text hasn't the form.
    #[error("not a path")]
    Bad,
    /// The text has the form, and passes this limit.
    #[error("a path above the limit: {0}")]
    TooLarge(Limit),
    #[error("out of memory")]
    Memory,
}

/// How a path begins.
#[derive(Clone, Copy, Debug, PartialEq, Eq, PartialOrd, Ord, Hash)]
pub enum PathKind {
    Plain,
    /// `self` is `Super(0)`.
    Super(u8),
    Crate,
    /// The path begins with `::`.
    Abs,
    /// What `$crate` stands for in a macro of the crate.
    DollarCrate(Crate),
}

impl From<AllocError> for ParseError {
    ghost from_gives = { λ _ e. e ≡ Memory };

    fn from(_: AllocError) -> Self {
        ParseError::Memory
    }
}

impl<T: Drop> From<AllocFailed<T>> for ParseError {
    ghost from_gives = { λ _ e. e ≡ Memory };

    fn from(_: AllocFailed<T>) -> Self {
        ParseError::Memory
    }
}

impl PathKind {
    pub const SELF: PathKind = PathKind::Super(0);
}

/// A path: how it begins, and its names.
#[derive(Drop)]
pub struct ModPath {
    kind: PathKind,
    segments: SmallVec<Name, 1>,
}

impl Model for ModPath {
    ghost use Rattle.hir_base.specs.ModPath.{Path};

    ghost Value = { Path };

    ghost view = { λ p. record { kind = p.kind; segments = p.segments.items } };
}

impl ModPath {
    ghost use Rattle.hir_base.specs.ParsePath.{path_of_text, IsMemory};

    /// The path that a text spells: parts joined by `::`. A text that begins with `::` is absolute. Otherwise a first
    /// part `crate`, `self`, `super` or `$` with a crate's number is the root, and after `self` or `super` each further
    /// `super` counts one more level. All other parts are names. The empty text is a plain path without segments,
    /// `::` alone an absolute one.
    pub fn parse(alloc: Global, text: &str) -> Result<ModPath, ParseError>
        ensures answer { Gives IsMemory result (path_of_text text.now) }
    {
        let Some(parts) = parts(alloc, text)? else {
            return Err(ParseError::Bad);
        };
        let Some((root, segments)) = from_parts(parts.as_slice()) else {
            return Err(ParseError::Bad);
        };
        if !are_names(segments) {
            return Err(ParseError::Bad);
        }
        if has_long_name(segments) {
            return Err(ParseError::TooLarge(Limit::Name));
        }
        if segments.len() > MAX_SEGMENTS || root.levels() > MAX_LEVELS {
            return Err(ParseError::TooLarge(Limit::Path));
        }
        let segments = names(alloc, segments)?;
        Ok(ModPath {
            kind: root.kind(),
            segments,
        })
    }

    /// A path of its parts.
    pub fn from_segments(kind: PathKind, segments: SmallVec<Name, 1>) -> ModPath
        ensures value { result ≡ record { kind = kind; segments = segments.items } }
    {
        ModPath { kind, segments }
    }

    /// How the path begins.
    pub fn kind(&self) -> PathKind
        ensures value { result ≡ self.now.kind }
    {
        self.kind
    }

    /// The names, in order.
    pub fn segments(&self) -> &[Name]
        ensures value { result.now ≡ self.now.segments }
    {
        self.segments.as_slice()
    }

    /// The same path; no text is copied.
    pub fn clone(&self) -> Result<ModPath, AllocError>
        ensures value { IfOk result (λ p. p ≡ self.now) }
    {
        let mut segments = SmallVec::new(*self.segments.allocator());
        for segment in self.segments.as_slice() {
            segments.push(segment.clone()?)?;
        }
        Ok(ModPath {
            kind: self.kind,
            segments,
        })
    }
}

impl PartialEq for ModPath {
    ghost use Rattle.hir_base.specs.contracts.mod_path.PathKindEq.TheImpl.Laws.{laws-law as kind_laws};

    ghost eq = { eq_of_both (on (λ p. p.kind) (⟦<PathKind as PartialEq>⟧.eq)) (on (λ p. p.segments) (pointwise (pointwise nat_eq))) };

    ghost laws = { partial_equiv_from_equiv (and_equiv (on_equiv (λ p. p.kind) kind_laws) (on_equiv (λ p. p.segments) (lists_equiv nat_list_eq_equiv))) };

    fn eq(&self, other: &ModPath) -> bool {
        self.kind == other.kind && self.segments == other.segments
    }
}

impl Eq for ModPath {
    ghost use Rattle.hir_base.specs.contracts.mod_path.PathKindEq.TheImpl.Laws.{laws-law as kind_laws};

    ghost laws = { and_equiv (on_equiv (λ p. p.kind) kind_laws) (on_equiv (λ p. p.segments) (lists_equiv nat_list_eq_equiv)) };
}

impl Hash for ModPath {
    ghost use Rattle.hir_base.specs.contracts.mod_path.PathKindHash.TheImpl.Laws.{respects_eq-law as kind_alike};

    ghost hash_input = { λ p. ⟦<PathKind as Hash>⟧.hash_input p.kind ++ fed.slice fed.str p.segments };

    ghost respects_eq = { (and-Alike (on_Alike (λ p. p.kind) (record { fed = kind_alike })) (on_Alike (λ p. p.segments) (items_Alike (same_Alike fed.str (pointwise_decides unsigned_Decides))))).fed };

    fn hash<H: Hasher>(&self, state: &mut H) {
        self.kind.hash(state);
        self.segments.hash(state);
    }
}

impl Ord for ModPath {
    ghost use Rattle.hir_base.specs.contracts.mod_path.PathKindOrd.TheImpl.Laws.{total-law as kind_total, matches_eq-law as kind_ties};

    ghost cmp = { then_cmp (on (λ p. p.kind) (⟦<PathKind as Ord>⟧.cmp)) (on (λ p. p.segments) (slice_cmp (slice_cmp nat_cmp))) };

    ghost total = { then_total (on_total (λ p. p.kind) kind_total) (on_total (λ p. p.segments) (lists_total nat_list_cmp_total)) };

    ghost matches_partial_cmp = { λ p q. refl };

    ghost matches_eq = { λ p q. both_tied _ _ _ _ (kind_ties p.kind q.kind) (lists_ties _ (lists_ties _ unsigned_ties) p.segments q.segments) };

    fn cmp(&self, other: &ModPath) -> Ordering {
        self.kind
            .cmp(&other.kind)
            .then(self.segments.as_slice().cmp(&other.segments.as_slice()))
    }
}

impl PartialOrd for ModPath {
    ghost use Rattle.hir_base.specs.contracts.mod_path.PathKindOrd.TheImpl.Laws.{total-law as kind_total, matches_eq-law as kind_ties};

    ghost partial_cmp = { as_partial_cmp (then_cmp (on (λ p. p.kind) (⟦<PathKind as Ord>⟧.cmp)) (on (λ p. p.segments) (slice_cmp (slice_cmp nat_cmp)))) };

    ghost laws = { po (then_total (on_total (λ p. p.kind) kind_total) (on_total (λ p. p.segments) (lists_total nat_list_cmp_total)))
        (λ p q. both_tied _ _ _ _ (kind_ties p.kind q.kind) (lists_ties _ (lists_ties _ unsigned_ties) p.segments q.segments)) };

    fn partial_cmp(&self, other: &ModPath) -> Option<Ordering> {
        Some(self.cmp(other))
    }
}
