//! What holds of all that a session does; each function's contract is a law.
ghost use Rattle.hir_session_machine.specs.Headline.{RepliesHoldTheHeadline};
ghost use Rattle.hir_session_machine.specs.HirSessionAnswers.Histories.{DifferOnlyWhereAltered};
ghost use Rattle.hir_session_machine.specs.MachineHistories.{LinesBeginHistories};
ghost use Rattle.hir_session_laws.specs.Laws.{BodyEditsMarkNothing, BodyEditsLeaveAnswers, ExpansionBodyEditsMarkNothing, ExpansionBodyEditsLeaveAnswers, SetAbsentFileMarks, RemovePresentFileMarks, RemoveAbsentFileMarksNothing, RemoveAbsentFileLeavesAnswers, SetAbsentExpansionMarks, RemovePresentExpansionMarks, RemoveAbsentExpansionMarksNothing, RemoveAbsentExpansionLeavesAnswers, BlockBodyEditsMarkNothing, BlockBodyEditsLeaveAnswers, SetAbsentBlockMarks, RemovePresentBlockMarks, RemoveAbsentBlockMarksNothing, RemoveAbsentBlockLeavesAnswers, BlockEditsSpareTheCrate, UnaskedSourcesMarkNothing, UnaskedSourcesLeaveAnswers, UnaskedSourcesLeaveCurrentAnswers, SameDataMarkNothing, SameDataLeaveAnswers, OtherDataMarkTheCrate, NumbersChangeNoAnswer, NamesAreToldWhole, TraitsAreToldWhole, ImplsAreToldWhole, ImplModulesAreThere, TraitsAreToldAlike, ImplsAreToldAlike};

use hir_item_tree::laws::body_texts_leave_the_tree;
use hir_session_machine::hir_session_core::hir_session_state::hir_def_collector_laws::laws::{
    crates_ask_for_no_block, runs_bind_from_sources,
};
use hir_session_machine::hir_session_core::hir_session_state::hir_def_map::laws::{
    paths_answer_from_sources, paths_lead_to_what_is_there,
};

/// Two answers to one query differ only where an edit between them altered something that was asked for behind the first.
pub fn answers_differ_only_where_altered()
    ensures law { DifferOnlyWhereAltered }
{
    runs_bind_from_sources();
    paths_answer_from_sources();
    paths_lead_to_what_is_there();
}

/// A query for the items of a trait or an impl gives numbers to macro calls, and these change no answer.
pub fn numbers_change_no_answer()
    ensures law { NumbersChangeNoAnswer }
{
    runs_bind_from_sources();
    paths_answer_from_sources();
    paths_lead_to_what_is_there();
}

/// The names of a module leave out nothing that a name stands for, and no trait that the module has without a name.
pub fn names_are_told_whole()
    ensures names { NamesAreToldWhole }
{
    runs_bind_from_sources();
    paths_answer_from_sources();
    paths_lead_to_what_is_there();
}

/// A list of a trait's items, or an impl's, leaves out no item and no call, nor what went wrong, if the module is there that holds the trait or the impl;
/// an impl's is.
pub fn lists_are_told_whole()
    ensures traits { TraitsAreToldWhole }
    ensures impls { ImplsAreToldWhole }
    ensures there { ImplModulesAreThere }
{
    runs_bind_from_sources();
    paths_answer_from_sources();
    paths_lead_to_what_is_there();
}

/// A list of a trait's items, or an impl's, that is asked for again is told alike where nothing was changed but tables that grew.
pub fn lists_are_told_alike()
    ensures traits { TraitsAreToldAlike }
    ensures impls { ImplsAreToldAlike }
{
    runs_bind_from_sources();
    paths_answer_from_sources();
    paths_lead_to_what_is_there();
}

/// Where lines are answered from the first state on, a session begins, and then has a history of edits, refreshes and queries that give numbers to
/// macro calls.
pub fn lines_begin_histories()
    ensures law { LinesBeginHistories }
{}

/// What a machine replies is what the command did, or what it asked for by the present sources, unless it is a refusal; two
/// answers to one query are alike, or a line between them was an edit that altered something that was asked for behind the first.
pub fn replies_hold_the_headline()
    ensures law { RepliesHoldTheHeadline }
{
    runs_bind_from_sources();
    paths_answer_from_sources();
    paths_lead_to_what_is_there();
}

/// An edit that changes nothing but bodies leaves every mark and every answer as it is.
pub fn body_edits_mark_nothing()
    ensures law { BodyEditsMarkNothing }
    ensures answers { BodyEditsLeaveAnswers }
{
    body_texts_leave_the_tree();
}

/// An edit of an expansion that changes nothing but bodies leaves every mark and every answer as it is.
pub fn expansion_body_edits_mark_nothing()
    ensures law { ExpansionBodyEditsMarkNothing }
    ensures answers { ExpansionBodyEditsLeaveAnswers }
{
    body_texts_leave_the_tree();
}

/// A file that was looked for and wasn't there makes stale what looked for it, once it is set.
pub fn set_absent_file_marks()
    ensures law { SetAbsentFileMarks }
{}

/// A file that was looked for and was there makes stale what looked for it, once it is removed.
pub fn remove_present_file_marks()
    ensures law { RemovePresentFileMarks }
{}

/// Removing a file that isn't there leaves every mark and every answer as it is.
pub fn remove_absent_file_marks_nothing()
    ensures law { RemoveAbsentFileMarksNothing }
    ensures answers { RemoveAbsentFileLeavesAnswers }
{}

/// An expansion that was looked for and wasn't there makes stale what looked for it, once it is set.
pub fn set_absent_expansion_marks()
    ensures law { SetAbsentExpansionMarks }
{}

/// An expansion that was looked for and was there makes stale what looked for it, once it is removed.
pub fn remove_present_expansion_marks()
    ensures law { RemovePresentExpansionMarks }
{}

/// Removing an expansion that isn't there leaves every mark and every answer as it is.
pub fn remove_absent_expansion_marks_nothing()
    ensures law { RemoveAbsentExpansionMarksNothing }
    ensures answers { RemoveAbsentExpansionLeavesAnswers }
{}

/// An edit of a block that changes nothing but bodies leaves every mark and every answer as it is.
pub fn block_body_edits_mark_nothing()
    ensures law { BlockBodyEditsMarkNothing }
    ensures answers { BlockBodyEditsLeaveAnswers }
{
    body_texts_leave_the_tree();
}

/// A block that was asked for and wasn't set makes stale what asked for it, once it is set.
pub fn set_absent_block_marks()
    ensures law { SetAbsentBlockMarks }
{}

/// A block that was asked for and was set makes stale what asked for it, once it is removed.
pub fn remove_present_block_marks()
    ensures law { RemovePresentBlockMarks }
{}

/// Removing a block that isn't set leaves every mark and every answer as it is.
pub fn remove_absent_block_marks_nothing()
    ensures law { RemoveAbsentBlockMarksNothing }
    ensures answers { RemoveAbsentBlockLeavesAnswers }
{}

/// An edit of a block never marks a crate.
pub fn block_edits_spare_the_crate()
    ensures law { BlockEditsSpareTheCrate }
{
    crates_ask_for_no_block();
}

/// An edit of a source for which no run asked leaves every mark as it is, and every answer; where it sets or removes a block, the
/// answers at places of current maps.
pub fn unasked_sources_mark_nothing()
    ensures law { UnaskedSourcesMarkNothing }
    ensures answers { UnaskedSourcesLeaveAnswers }
    ensures current { UnaskedSourcesLeaveCurrentAnswers }
{
    runs_bind_from_sources();
    paths_answer_from_sources();
    paths_lead_to_what_is_there();
}

/// Data that a crate has already leave every mark and every answer as it is.
pub fn same_data_mark_nothing()
    ensures law { SameDataMarkNothing }
    ensures answers { SameDataLeaveAnswers }
{}

/// Other data than it has mark a crate.
pub fn other_data_mark_the_crate()
    ensures law { OtherDataMarkTheCrate }
{}
