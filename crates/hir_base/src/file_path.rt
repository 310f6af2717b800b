//! Paths of files in a workspace.
ghost use Rattle.std.specs.Prelude.{◌≡◌, ℕ, nat_eq, List, IfOk, Some, None, cond, string_bytes};
ghost use Rattle.std.specs.Cmp.Lexicographic.{slice_cmp, pointwise};
ghost use Rattle.std.specs.Ordering.{nat_cmp, as_partial_cmp};
ghost use Rattle.std.specs.Cmp.{partial_order_from_own_ties};
ghost use Rattle.std.specs.Cmp.Rules.{comparing, hashing};
ghost use Rattle.std.proofs.Common.{rules};
ghost use Rattle.std.specs.Hash as fed;
ghost use Rattle.std.specs.List.{join_with_byte};
ghost use Rattle.std.specs.Option.{option_map};
ghost use Rattle.hir_ids.specs.Refusal.{Gives};
ghost use Rattle.hir_base.specs.ParseFile.{folded_segments, one_more};
ghost use Rattle.hir_ids.specs.Text.{nows};

use crate::limit::Limit;
use crate::mod_path::ParseError;
use crate::pieces::pieces;
use crate::text::Text;
use std::alloc::{AllocError, Global};
use std::cmp::Ordering;
use std::hash::{Hash, Hasher};
use std::marker::Model;

/// The most segments of a file's path.
pub const MAX_SEGMENTS: usize = 64;

/// Goes from the segments `kept` to one more, and says whether that stays below the root.
fn one_more<'a>(kept: &mut Vec<&'a str>, segment: &'a str) -> Result<bool, AllocError>
    ensures ok { IfOk result (λ below. cond below (Some (nows kept.new.items)) None
        ≡ one_more (Some (nows kept.old.items)) segment.now) }
{
    if segment.is_empty() || segment == "." {
        return Ok(true);
    }
    if segment == ".." {
        return Ok(kept.pop().is_some());
    }
    kept.push(segment)?;
    Ok(true)
}

/// The segments that are left of a text, or `None` if it climbs past the root.
#[tactic(auto, using(crate::proofs::FileLemmas::fold_past_root))]
fn fold<'a>(alloc: Global, text: &'a str) -> Result<Option<Vec<&'a str>>, AllocError>
    ensures ok { IfOk result (λ left. option_map (λ v. nows v.items) left ≡ folded_segments text.now) }
{
    let pieces = pieces(alloc, text, '/')?;
    let mut kept = Vec::new(alloc);
    let mut left = pieces.as_slice();
    'pieces: while let [piece, others @ ..] = left {
        if !one_more(&mut kept, *piece)? {
            return Ok(None);
        }
        left = others;
    }
    Ok(Some(kept))
}

/// The text of these segments.
#[tactic(auto, using(crate::proofs::FileLemmas::join_tail))]
fn join(alloc: Global, segments: &[&str]) -> Result<String, AllocError>
    ensures ok { IfOk result (λ text. string_bytes text ≡ join_with_byte 47 (nows segments.now)) }
{
    let [first, others @ ..] = segments else {
        return Ok(String::new(alloc));
    };
    let mut text = String::from_str(alloc, *first)?;
    let mut left = others;
    'rest: while let [segment, others @ ..] = left {
        text.push('/')?;
        text.push_str(*segment)?;
        left = others;
    }
    Ok(text)
}

/// A file's path in the workspace: its folders and its name, joined by `/`, without `.` and `..`.
#[derive(Drop)]
pub struct FilePath {
    text: Text,
}

impl Model for FilePath {
    ghost use Rattle.std.specs.Prelude.{ℕ, List};

    ghost Value = { List ℕ };

    ghost view = { λ p. p.text };
}

impl FilePath {
    ghost use Rattle.hir_base.specs.ParseFile.{folded_path};
    ghost use Rattle.hir_base.specs.ParsePath.{IsMemory};

    /// The file that a text names, folded: segments joined by `/`, of which empty ones and `.` vanish and `..` drops
    /// the segment before. A text that climbs past the root, or is left with no segment, names none.
    pub fn parse(alloc: Global, text: &str) -> Result<FilePath, ParseError>
        ensures answer { Gives IsMemory result (folded_path text.now) }
    {
        let Some(segments) = fold(alloc, text)? else {
            return Err(ParseError::Bad);
        };
        if segments.is_empty() {
            return Err(ParseError::Bad);
        }
        if segments.len() > MAX_SEGMENTS {
            return Err(ParseError::TooLarge(Limit::File));
        }
        let joined = join(alloc, segments.as_slice())?;
        let text = Text::from_string(joined)?;
        Ok(FilePath { text })
    }

    /// The text, folded.
    pub fn as_str(&self) -> &str
        ensures value { result.now ≡ self.now }
    {
        self.text.as_str()
    }

    /// The same path; both keep one text.
    pub fn clone(&self) -> Result<FilePath, AllocError>
        ensures value { IfOk result (λ p. p ≡ self.now) }
    {
        Ok(FilePath {
            text: self.text.clone()?,
        })
    }
}

impl PartialEq for FilePath {
    ghost eq = { pointwise nat_eq };

    ghost laws = { Prim.search (comparing, rules) };

    fn eq(&self, other: &FilePath) -> bool {
        self.text == other.text
    }
}

impl Eq for FilePath {
    ghost laws = { Prim.search (comparing, rules) };
}

impl Ord for FilePath {
    ghost cmp = { slice_cmp nat_cmp };

    ghost total = { Prim.search (comparing, rules) };

    ghost matches_partial_cmp = { Prim.search (comparing, rules) };

    ghost matches_eq = { Prim.search (comparing, rules) };

    fn cmp(&self, other: &FilePath) -> Ordering {
        self.text.cmp(&other.text)
    }
}

impl PartialOrd for FilePath {
    ghost partial_cmp = { as_partial_cmp (slice_cmp nat_cmp) };

    ghost laws = { partial_order_from_own_ties (Prim.search (comparing, rules)) (Prim.search (comparing, rules)) };

    fn partial_cmp(&self, other: &FilePath) -> Option<Ordering> {
        Some(self.cmp(other))
    }
}

impl Hash for FilePath {
    ghost hash_input = { fed.str };

    ghost respects_eq = { Prim.search (hashing, rules) };

    fn hash<H: Hasher>(&self, state: &mut H) {
        self.text.hash(state);
    }
}
