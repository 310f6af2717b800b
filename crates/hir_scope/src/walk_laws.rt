//! The laws of walks.
ghost use Rattle.std.specs.Prelude.{List};
ghost use Rattle.std.specs.Option.{option_copied};
ghost use Rattle.std.specs.Map.Iter.{deref_pair};
ghost use Rattle.hir_per_ns.specs.PerNs.{items_left};
ghost use Rattle.hir_scope.specs.Laws.{BindingsAscend, EntriesAscend, GivesItsList, ImportsAscend};

use crate::imports::{ImportOrExternCrate, ImportOrGlob};
use crate::item_scope::ItemScope;
use crate::item_scope::iter::bindings::Bindings;
use crate::item_scope::iter::calls::MacroCalls;
use crate::item_scope::iter::entries::{Entries, Resolutions};
use crate::item_scope::iter::impls::Impls;
use crate::item_scope::iter::imports::Imports;
use crate::item_scope::iter::modules_and_traits::{ModulesInScope, Traits};
use crate::item_scope::iter::tables::TableEntries;
use crate::item_scope::macro_calls::DeriveAttributes;
use crate::per_ns_items::PerNsItems;
use hir_ids::ast_id::{AstId, MacroCallId};
use hir_ids::ids::ModuleDefId;
use hir_ids::macro_kind::MacroId;
use hir_textual_scope::textual_scope::TextualMacros;

/// Each walk ends, and has then given its list.
pub fn walks_give_their_list()
    ensures items { GivesItsList ⟦<PerNsItems as Iterator>⟧.next_gives (λ item. item) items_left }
    ensures impls { GivesItsList ⟦<Impls<'static> as Iterator>⟧.next_gives (λ id. id) (λ (left : List _). left) }
    ensures modules { GivesItsList ⟦<ModulesInScope<'static> as Iterator>⟧.next_gives (λ found. found) (λ (left : List _). left) }
    ensures traits { GivesItsList ⟦<Traits<'static> as Iterator>⟧.next_gives (λ id. id) (λ (left : List _). left) }
    ensures calls { GivesItsList ⟦<MacroCalls<'static> as Iterator>⟧.next_gives (λ id. id) (λ (left : List _). left) }
    ensures imports { GivesItsList ⟦<Imports<'static> as Iterator>⟧.next_gives (λ id. id) (λ (left : List _). left) }
    ensures entries { GivesItsList ⟦<Entries<'static> as Iterator>⟧.next_gives (λ entry. (entry.0.now, entry.1)) (λ (left : List _). left) }
    ensures resolutions { GivesItsList ⟦<Resolutions<'static> as Iterator>⟧.next_gives
        (λ entry. (option_copied entry.0, entry.1)) (λ (left : List _). left) }
    ensures types { GivesItsList ⟦<Bindings<'static, ModuleDefId, ImportOrExternCrate> as Iterator>⟧.next_gives deref_pair (λ (left : List _). left) }
    ensures values { GivesItsList ⟦<Bindings<'static, ModuleDefId, ImportOrGlob> as Iterator>⟧.next_gives deref_pair (λ (left : List _). left) }
    ensures macros { GivesItsList ⟦<Bindings<'static, MacroId, ImportOrExternCrate> as Iterator>⟧.next_gives deref_pair (λ (left : List _). left) }
    ensures legacy_macros { GivesItsList ⟦<TextualMacros<'static> as Iterator>⟧.next_gives (λ m. m.now) (λ (left : List _). left) }
    ensures macro_invocs { GivesItsList ⟦<TableEntries<'static, AstId, MacroCallId> as Iterator>⟧.next_gives deref_pair (λ (left : List _). left) }
    ensures derive_macro_invocs { GivesItsList ⟦<TableEntries<'static, AstId, DeriveAttributes> as Iterator>⟧.next_gives deref_pair (λ (left : List _). left) }
{}

/// The names of types, of values and of macros come in ascending order, each once.
pub fn bindings_ascend(scope: &ItemScope)
    ensures types { BindingsAscend scope.now.types }
    ensures values { BindingsAscend scope.now.values }
    ensures macros { BindingsAscend scope.now.macros }
{
    scope.bindings_ascend();
}

/// The names of a scope and its imports come in ascending order, each once.
pub fn entries_and_imports_ascend(scope: &ItemScope)
    ensures entries { EntriesAscend scope.now }
    ensures imports { ImportsAscend scope.now }
{
    scope.names_ascend();
    scope.imports_ascend();
}
