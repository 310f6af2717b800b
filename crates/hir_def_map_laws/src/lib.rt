//! What holds of every path and every map. The functions do nothing: their contracts are the laws.
#![tactic(auto)]

ghost use Rattle.std.specs.Prelude.{◌≡◌, ℕ, true, List};
ghost use Rattle.hir_nameres.specs.HirIds.Laws.{HashesAlike};
ghost use Rattle.hir_nameres.specs.HirScope.Laws.{GivesItsList};
ghost use Rattle.hir_nameres.specs.HirDefMapRules.Overlay.{Maps, overlay};
ghost use Rattle.hir_nameres.specs.HirDefMapRules.References.{is_well_formed};
ghost use Rattle.hir_nameres.specs.HirDefMapRules.WellFormed.{AreWellFormed, HasNoDanglingExtern, HasNoDanglingReference};
ghost use Rattle.hir_nameres.specs.HirDefMapRules.Closed.{IsClosed};
ghost use Rattle.hir_nameres.specs.HirDefMapRules.State.{Local, Map};
ghost use Rattle.hir_def_map_laws.specs.Building.{DeclarationsKeepNames, DeclarationsKeepPlaces, DeclarationsNameWhatIsThere, EnumsKeepToSources, EnumsNameWhatIsThere, ListsKeepToSources, ModulesKeepToSources, ModulesNameWhatIsThere, PushesKeepPlaces, PushesKeepToSources, PushesNameWhatIsThere, ScopesNameWhatIsThere, UpdatesNameWhatIsThere};
ghost use Rattle.hir_def_map_laws.specs.ReadLaw.{ChangedModulesDifferInScopes, CrateMapsBeginOutside, CratesAreOutside, ImportsReadAlike, PartsKeepApart, ReadsDecide, ScopesReadAlike, SomeMapsKeepApart, UnstoppedReadsDecide, WholeMapsKeepApart, WholeMapsStandBeside, WorldsKeepApart};
ghost use Rattle.hir_def_map_laws.specs.SlotChanges.{ChangedScopesChangeTheirSlot, ChangesFollowOneAnother, CratesChangeTheirSlot, EnumsChangeNoSlot, ListsChangeNoSlot, MacroUsesChangeTheirSlot, ModulesChangeNoSlot, NothingChangesNoScope, NothingChangesNoSlot, OneChangeIsAmongItsSlot, OneScopeChangeIsAmongItsSlot, OtherSlotsDoNotMatter, PushesChangeTheirScope, PushesChangeTheirSlot, ScopeChangesFollowOneAnother, TextualMacrosChangeTheirSlot, TraitsChangeNoScope, TraitsChangeNoSlot, UnreadScopesDoNotMatter, UnreadSlotsDoNotMatter, UpdatesChangeTheirScope, UpdatesChangeTheirSlot};
ghost use Rattle.hir_def_map_laws.specs.Paths.{BlocksAskHolders, CratesAskThemselves, InnerModulesAskPreludes, LaterSegmentsAreSeen, RootedStepsLeadToParents, SegmentsAreSeen, StepsLeadToParents, UnnamedBindingsDoNotMatter};

use hir_nameres::nameres::local_def_map::LocalDefMap;
use hir_nameres::nameres::module_ids::ModuleIds;
use std::hash::Hash;

/// A path means the same over maps that agree on its names.
pub fn unnamed_bindings_do_not_matter()
    ensures alike { UnnamedBindingsDoNotMatter }
{}

/// A path means the same while a map grows, as long as no slot changes that it looks at.
pub fn reads_decide_answers()
    ensures paths { ReadsDecide }
    ensures imports { ImportsReadAlike }
    ensures whole { WholeMapsStandBeside }
{}

/// A path that stops at no enum without variants means the same while a map grows, as long as no slot changes that it
/// looks at.
pub fn unstopped_reads_decide()
    ensures paths { UnstoppedReadsDecide }
{}

/// A change of a map changes one slot, or none; paths that don't look at it mean the same.
pub fn changes_keep_to_their_slot()
    ensures others { OtherSlotsDoNotMatter }
    ensures pushed { PushesChangeTheirSlot }
    ensures listed { ListsChangeNoSlot }
    ensures made { ModulesChangeNoSlot }
    ensures enums { EnumsChangeNoSlot }
    ensures macro_uses { MacroUsesChangeTheirSlot }
    ensures crates { CratesChangeTheirSlot }
    ensures textual_macros { TextualMacrosChangeTheirSlot }
{}

/// Changes one after another change the slots of all; paths that look at none of them mean the same.
pub fn changes_keep_to_their_slots()
    ensures nothing { NothingChangesNoSlot }
    ensures one { OneChangeIsAmongItsSlot }
    ensures several { ChangesFollowOneAnother }
    ensures unread { UnreadSlotsDoNotMatter }
{}

/// What globs do to a name changes the slot of that name in its module; a trait without a name is in no slot.
pub fn globs_keep_to_their_slot()
    ensures updates { (map : Map) (local : Local) (at : ℕ) (name : List ℕ) → UpdatesChangeTheirSlot map local at name }
    ensures traits { TraitsChangeNoSlot }
{}

/// A path means the same while a map changes in its scopes alone, as long as no slot changes that it looks at.
pub fn scopes_read_alike()
    ensures paths { ScopesReadAlike }
    ensures changed { ChangedModulesDifferInScopes }
    ensures crates { CrateMapsBeginOutside }
    ensures begins { CratesAreOutside }
{}

/// Pushes and what globs do change scopes alone, each in one slot; paths that look at no changed slot mean the same.
pub fn scope_changes_keep_to_their_slots()
    ensures nothing { NothingChangesNoScope }
    ensures one { OneScopeChangeIsAmongItsSlot }
    ensures scopes { ChangedScopesChangeTheirSlot }
    ensures pushed { PushesChangeTheirScope }
    ensures updates { (map : Map) (local : Local) (at : ℕ) (name : List ℕ) → UpdatesChangeTheirScope map local at name }
    ensures traits { TraitsChangeNoScope }
    ensures several { ScopeChangesFollowOneAnother }
    ensures unread { UnreadScopesDoNotMatter }
{}

/// Finished maps name nothing in a map that isn't among them.
pub fn finished_maps_keep_apart()
    ensures whole { WholeMapsKeepApart }
    ensures worlds { WorldsKeepApart }
    ensures among { SomeMapsKeepApart }
    ensures parts { PartsKeepApart }
{}

/// Each segment after a module is a name of that module which the asking module may see; past a module of another
/// crate the module where the path goes on is the one that asks.
pub fn segments_are_seen()
    ensures kept { SegmentsAreSeen }
    ensures later { LaterSegmentsAreSeen }
{}

/// A block's root has what is asked of the module that holds it, by that module; other modules ask no holder.
pub fn blocks_ask_their_holders()
    ensures holders { BlocksAskHolders }
    ensures inner { InnerModulesAskPreludes }
    ensures alone { CratesAskThemselves }
{}

/// One step up leads to the parent.
pub fn steps_lead_to_parents()
    ensures rooted { RootedStepsLeadToParents }
    ensures in_order { StepsLeadToParents }
{}

/// A push and a declaration that is listed leave what lies above each module.
pub fn places_stay()
    ensures pushed { PushesKeepPlaces }
    ensures listed { DeclarationsKeepPlaces }
{}

/// A declaration that is listed leaves the modules, what they are in and what their names stand for.
pub fn declarations_keep_names()
    ensures keeps { DeclarationsKeepNames }
{}

/// Where each map names only what is there, all that is named lies among them; so does what a map names that is
/// complete.
pub fn whole_maps_are_closed()
    ensures closed { (maps : Maps) → AreWellFormed maps → IsClosed maps }
    ensures complete { (finished : Maps) (map : Map) (local : Local) → HasNoDanglingReference (overlay finished map) map → HasNoDanglingExtern (overlay finished map) local
        → is_well_formed finished map local ≡ true }
{}

/// Pushes, lists, modules, enums and changes of scopes that name what is there leave a map that names only what is
/// there, visibilities included.
pub fn building_names_what_is_there()
    ensures pushed { PushesNameWhatIsThere }
    ensures listed { DeclarationsNameWhatIsThere }
    ensures made { ModulesNameWhatIsThere }
    ensures enums { EnumsNameWhatIsThere }
    ensures scopes { ScopesNameWhatIsThere }
    ensures updates { (finished : Maps) (map : Map) (at : ℕ) (name : List ℕ) → UpdatesNameWhatIsThere finished map at name }
{}

/// Pushes, lists, modules and enums leave a map that binds only what is written where it and they do.
pub fn building_keeps_to_sources()
    ensures pushed { PushesKeepToSources }
    ensures listed { ListsKeepToSources }
    ensures made { ModulesKeepToSources }
    ensures enums { EnumsKeepToSources }
{}

/// Equal extern preludes are hashed alike.
pub fn equal_local_maps_hash_alike()
    ensures alike { HashesAlike (⟦<LocalDefMap as PartialEq>⟧.eq) (⟦<LocalDefMap as Hash>⟧.hash_input) }
{}

/// The walk over the modules that a file holds ends, and has then given its list.
pub fn walks_give_their_list()
    ensures modules { GivesItsList ⟦<ModuleIds<'static> as Iterator>⟧.next_gives (λ id. id) (λ (left : List _). left) }
{}
