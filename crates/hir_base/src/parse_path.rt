//! Reads the texts of paths.
ghost use Rattle.std.specs.Prelude.{◌≡◌, ◌+◌, ◌<◌, ◌≤◌, ◌^◌, true, false, length, drop, slice_index, nat_lt, ◌==◌, ◌∷◌, if◌then◌else◌, Some, None, option_copied, IfOk};
ghost use Rattle.std.specs.List.{list_all, list_any};
ghost use Rattle.std.specs.Option.{option_map};
ghost use Rattle.hir_base.specs.ParsePath.{parts, path, climb, crate_of_digits, from_root, from_parts, levels};
ghost use Rattle.hir_ids.specs.NameForm.{is_name, max_name};
ghost use Rattle.hir_base.specs.Root.{kind_of_root, path_read};
ghost use Rattle.hir_ids.specs.Text.{nows};

use crate::ids::Crate;
use crate::mod_path::PathKind;
use crate::name::{MAX_NAME, Name, is_name};
use crate::pieces::pieces;
use smallvec::SmallVec;
use std::alloc::{AllocError, Global};

/// How a path begins, with any number of levels.
#[derive(Clone, Copy)]
pub(crate) enum Root {
    Plain,
    Super(usize),
    Crate,
    Abs,
    DollarCrate(Crate),
}

impl Root {
    /// The levels of `super`.
    pub(crate) fn levels(&self) -> usize
        ensures value { result ≡ levels (kind_of_root self.now) }
    {
        match *self {
            Root::Super(levels) => levels,
            _ => 0,
        }
    }

    /// The same root, where its levels fit.
    pub(crate) fn kind(&self) -> PathKind
        requires fits { levels (kind_of_root self.now) ≤ 255 }
        ensures value { result ≡ kind_of_root self.now }
    {
        match *self {
            Root::Plain => PathKind::Plain,
            Root::Super(levels) => PathKind::Super(levels as u8),
            Root::Crate => PathKind::Crate,
            Root::Abs => PathKind::Abs,
            Root::DollarCrate(krate) => PathKind::DollarCrate(krate),
        }
    }
}

/// The parts that `::` joins to the text, or `None` where a colon stands alone.
#[tactic(auto, using(crate::proofs::PathLemmas::read_so_far))]
pub(crate) fn parts<'a>(alloc: Global, text: &'a str) -> Result<Option<Vec<&'a str>>, AllocError>
    ensures ok { IfOk result (λ v. option_map (λ v. nows v.items) v ≡ parts text.now) }
{
    let pieces = pieces(alloc, text, ':')?;
    let mut parts = Vec::new(alloc);
    let mut left = pieces.as_slice();
    'pairs: while let [part, between, others @ ..] = left {
        if !between.is_empty() {
            return Ok(None);
        }
        parts.push(*part)?;
        left = others;
    }
    let [last] = left else {
        return Ok(None);
    };
    parts.push(*last)?;
    Ok(Some(parts))
}

/// The levels of a path that begins with so many, and the parts after its further `super`s.
fn climb<'b, 'a>(start: usize, parts: &'b [&'a str]) -> (Root, &'b [&'a str])
    requires room { start ≤ 1 }
    ensures value { path_read result ≡ climb start (nows parts.now) }
{
    let mut levels = start;
    let mut left = parts;
    'levels: while let [part, others @ ..] = left {
        if *part != "super" {
            return (Root::Super(levels), left);
        }
        levels += 1;
        left = others;
    }
    (Root::Super(levels), left)
}

/// Whether a text begins with a plus, which `parse` takes for a sign.
fn begins_with_plus(text: &str) -> bool
    ensures value { result ≡ (slice_index text.now 0 == 43) }
{
    match text.as_bytes() {
        [first, ..] => *first == b'+',
        [] => false,
    }
}

/// The crate whose number these digits are.
fn crate_of_digits(digits: &str) -> Option<Crate>
    ensures value { result ≡ crate_of_digits digits.now }
{
    if begins_with_plus(digits) {
        return None;
    }
    match digits.parse::<u32>() {
        Ok(number) => Some(Crate(number)),
        Err(_) => None,
    }
}

/// What follows a `$` at the beginning of a part.
fn after_dollar(part: &str) -> Option<&str>
    ensures value { option_copied result ≡ (if slice_index part.now 0 == 36 then Some (drop 1 part.now) else None) }
{
    part.strip_prefix('$')
}

/// The root of a path, and the parts after it, where the first part may be a root.
fn from_root<'b, 'a>(
    first: &'a str,
    rest: &'b [&'a str],
    parts: &'b [&'a str],
) -> Option<(Root, &'b [&'a str])>
    requires whole { nows parts.now ≡ first.now ∷ nows rest.now }
    ensures value { option_map path_read result ≡ from_root first.now (nows rest.now) }
{
    match first {
        "crate" => Some((Root::Crate, rest)),
        "self" => Some(climb(0, rest)),
        "super" => Some(climb(1, rest)),
        _ => {
            let Some(digits) = after_dollar(first) else {
                return Some((Root::Plain, parts));
            };
            match crate_of_digits(digits) {
                Some(krate) => Some((Root::DollarCrate(krate), rest)),
                None => None,
            }
        }
    }
}

/// The root of a path, and the parts after it.
pub(crate) fn from_parts<'b, 'a>(parts: &'b [&'a str]) -> Option<(Root, &'b [&'a str])>
    ensures value { option_map path_read result ≡ from_parts (nows parts.now) }
{
    let [first, rest @ ..] = parts else {
        return None;
    };
    if !first.is_empty() {
        return from_root(*first, rest, parts);
    }
    let [part, others @ ..] = rest else {
        return Some((Root::Plain, rest));
    };
    if part.is_empty() && others.is_empty() {
        return Some((Root::Abs, others));
    }
    Some((Root::Abs, rest))
}

/// Whether all these parts have the form of names.
pub(crate) fn are_names(segments: &[&str]) -> bool
    ensures value { result ≡ list_all is_name (nows segments.now) }
{
    let mut left = segments;
    'names: while let [segment, others @ ..] = left {
        if !is_name(*segment) {
            return false;
        }
        left = others;
    }
    true
}

/// Whether one of these parts is longer than a name may be.
pub(crate) fn has_long_name(segments: &[&str]) -> bool
    ensures value { result ≡ list_any (λ segment. nat_lt max_name (length segment)) (nows segments.now) }
{
    let mut left = segments;
    'names: while let [segment, others @ ..] = left {
        if segment.len() > MAX_NAME {
            return true;
        }
        left = others;
    }
    false
}

/// The names that these parts are.
pub(crate) fn names(alloc: Global, segments: &[&str]) -> Result<SmallVec<Name, 1>, AllocError>
    requires form { list_all is_name (nows segments.now) ≡ true }
    requires size { list_any (λ segment. nat_lt max_name (length segment)) (nows segments.now) ≡ false }
    ensures ok { IfOk result (λ v. v.items ≡ nows segments.now) }
{
    let mut names = SmallVec::new(alloc);
    let mut left = segments;
    'names: while let [segment, others @ ..] = left {
        names.push(Name::of_valid(alloc, *segment)?)?;
        left = others;
    }
    Ok(names)
}
