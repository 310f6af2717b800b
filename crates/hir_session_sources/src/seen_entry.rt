//! What is read of an expansion, as it was handed in.
ghost use Rattle.std.specs.Prelude.{◌≡◌, ◌↔◌, IsTrue, option_map};
ghost use Rattle.hir_session_state.specs.HirItemTree.Source.{source_view};
ghost use Rattle.hir_session_state.specs.HirCollectorRules.Workspace.{entry_look};
ghost use Rattle.hir_session_sources.specs.EditValues.{entry_value};
ghost use Rattle.hir_session_state.specs.Entries.{look_of, source_of};

use crate::entry::Entry;
use hir_base::mod_path::ModPath;
use hir_base::text::Text;
use hir_item_tree::same::same_path;
use hir_item_tree::source::Source;
use hir_session_state::hir_collector_rules::source_database::ExpansionLook;

/// The source of an expansion, where it is there.
pub fn source_in(entry: Option<&Entry>) -> Option<&Source>
    ensures value { option_map (λ s. source_view s.now) result ≡ source_of (option_map (λ e. entry_value e.now) entry.entry) }
{
    match entry {
        Some(entry) => Some(&entry.source),
        None => None,
    }
}

/// What is seen of an expansion beside its items.
pub fn look_at(entry: Option<&Entry>) -> ExpansionLook<'_>
    ensures value { entry_look result ≡ look_of (option_map (λ e. entry_value e.now) entry.entry) }
{
    match entry {
        Some(entry) => ExpansionLook {
            present: true,
            error: entry.error.as_ref(),
            inner: Some(&entry.inner),
        },
        None => ExpansionLook {
            present: false,
            error: None,
            inner: None,
        },
    }
}

fn is_same_error(one: &Option<Text>, other: &Option<Text>) -> bool
    ensures exact { IsTrue result ↔ (one.now ≡ other.now) }
{
    match (one, other) {
        (Some(one), Some(other)) => one == other,
        (None, None) => true,
        (Some(_), None) | (None, Some(_)) => false,
    }
}

fn are_same_paths(one: &[ModPath], other: &[ModPath]) -> bool
    ensures exact { IsTrue result ↔ (one.now ≡ other.now) }
{
    if one.len() != other.len() {
        return false;
    }
    for i in 0..one.len() {
        if !same_path(&one[i], &other[i]) {
            return false;
        }
    }
    true
}

/// Whether the same is seen of an expansion beside its items.
pub fn is_same_look(one: Option<&Entry>, other: Option<&Entry>) -> bool
    ensures exact { IsTrue result
        ↔ (look_of (option_map (λ e. entry_value e.now) one.entry) ≡ look_of (option_map (λ e. entry_value e.now) other.entry)) }
{
    match (one, other) {
        (Some(one), Some(other)) => {
            is_same_error(&one.error, &other.error)
                && are_same_paths(one.inner.as_slice(), other.inner.as_slice())
        }
        (None, None) => true,
        (Some(_), None) | (None, Some(_)) => false,
    }
}
