//! The steps to a block, and what they are refused for.
ghost use Rattle.std.specs.Prelude.{◌≡◌, nat_lt};
ghost use Rattle.std.specs.List.{list_any};
ghost use Rattle.hir_session_state.specs.Blocks.{nesting_of, place_of_block};
ghost use Rattle.hir_session_state.specs.Refusals.{has_high_index, is_before_index, passes_before_index, passes_limit, verdict_with_steps};

use crate::error::EditError;
use hir_base::ast_id::SyntaxId;
use hir_base::limit::Limit;
use hir_base::place::{BlockPlace, PlaceElement};
use hir_item_tree::check::MAX_INDEX;

/// The most blocks that are in one another.
pub const MAX_BLOCKS: usize = 16;

/// How many blocks steps lead into, one within another.
pub fn nesting(steps: &[PlaceElement]) -> usize
    ensures value { result ≡ nesting_of steps.now }
{
    let mut count = 0;
    for step in steps {
        if let PlaceElement::Block(_) = step {
            count += 1;
        }
    }
    count
}

fn is_high(id: SyntaxId) -> bool
    ensures value { result ≡ nat_lt 2047 id.index }
{
    id.index > MAX_INDEX
}

fn has_high_index(step: &PlaceElement) -> bool
    ensures value { result ≡ has_high_index step.now }
{
    match step {
        PlaceElement::Module(_) => false,
        PlaceElement::Block(id) => is_high(*id),
    }
}

/// Whether an id in some steps has an index above those that ids may have.
fn any_high_index(steps: &[PlaceElement]) -> bool
    ensures value { result ≡ list_any has_high_index steps.now }
{
    for step in steps {
        if has_high_index(step) {
            return true;
        }
    }
    false
}

/// The same of the steps to a block.
#[tactic(auto, using(crate::proofs::Places::any_behind))]
fn leads_through_high_index(place: &BlockPlace) -> bool
    ensures value { result ≡ list_any has_high_index (place_of_block place.now).elements }
{
    any_high_index(place.holder.elements()) || is_high(place.id)
}

/// Whether a block is in more others than there may be in one another.
#[tactic(auto, using(crate::proofs::Places::nesting_below))]
fn is_too_deep(place: &BlockPlace) -> bool
    ensures value { result ≡ nat_lt 16 (nesting_of (place_of_block place.now).elements) }
{
    nesting(place.holder.elements()) >= MAX_BLOCKS
}

/// Whether a limit is told before that of indices.
fn is_before_index(limit: Limit) -> bool
    ensures value { result ≡ is_before_index limit }
{
    match limit {
        Limit::Line | Limit::Name | Limit::Path | Limit::File => true,
        Limit::Index
        | Limit::Nodes
        | Limit::Modules
        | Limit::UseTree
        | Limit::Cfg
        | Limit::Blocks
        | Limit::Crates
        | Limit::Inner => false,
    }
}

fn passes_before_index(verdict: Result<(), EditError>) -> bool
    ensures value { result ≡ passes_before_index verdict }
{
    match verdict {
        Err(EditError::TooLarge(limit)) => is_before_index(limit),
        Err(
            EditError::UnknownCrate
            | EditError::DependencyOrder(_)
            | EditError::DuplicateId { .. }
            | EditError::Memory,
        )
        | Ok(()) => false,
    }
}

fn passes_limit(verdict: Result<(), EditError>) -> bool
    ensures value { result ≡ passes_limit verdict }
{
    match verdict {
        Err(EditError::TooLarge(_)) => true,
        Err(
            EditError::UnknownCrate
            | EditError::DependencyOrder(_)
            | EditError::DuplicateId { .. }
            | EditError::Memory,
        )
        | Ok(()) => false,
    }
}

/// What an edit of a block is refused for, where this is said of its source. Of several limits the first is told.
pub fn check_with_steps(place: &BlockPlace, verdict: Result<(), EditError>) -> Result<(), EditError>
    ensures value { result ≡ verdict_with_steps (place_of_block place.now).elements verdict }
{
    if passes_before_index(verdict) {
        return verdict;
    }
    if leads_through_high_index(place) {
        return Err(EditError::TooLarge(Limit::Index));
    }
    if passes_limit(verdict) {
        return verdict;
    }
    if is_too_deep(place) {
        return Err(EditError::TooLarge(Limit::Blocks));
    }
    verdict
}
