//! Whether a session has the crates that an edit names.
ghost use Rattle.std.specs.Prelude.{◌≡◌, nat_lt};
ghost use Rattle.std.specs.List.{list_all};
ghost use Rattle.hir_collector_rules.specs.HirTables.SourcePlaces.{expansion_value};
ghost use Rattle.hir_session_state.specs.Refusals.{are_known};

use hir_base::macro_kind::{ExpansionKey, MacroText};

/// Whether the macros are those of crates with numbers below this.
fn are_below(count: usize, macros: &[MacroText]) -> bool
    ensures value { result ≡ list_all (λ m. nat_lt m.krate.0 count) macros.now }
{
    for makro in macros {
        if makro.krate.0 as usize >= count {
            return false;
        }
    }
    true
}

/// Whether the crates that an expansion names are among so many.
pub fn names_known(count: usize, key: &ExpansionKey) -> bool
    ensures value { result ≡ are_known count (expansion_value key.now) }
{
    (key.caller.0 as usize) < count
        && (key.called.krate.0 as usize) < count
        && are_below(count, key.reached.as_slice())
}
