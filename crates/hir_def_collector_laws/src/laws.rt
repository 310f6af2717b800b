//! What holds of every run. The functions do nothing: their contracts are the laws.
ghost use Rattle.hir_collector_rules.specs.Enums.{LastVariantPrevails};
ghost use Rattle.hir_collector_rules.specs.Growth.{AnswersStand, AskedKeysHaveMeaning, LooksStand};
ghost use Rattle.hir_def_collector_laws.specs.BlockKeys.{CratesAskForNoBlock};
ghost use Rattle.hir_def_collector_laws.specs.Sources.{RunsBindFromSources, RunsMeetNoUnknownSource};
ghost use Rattle.hir_def_collector_laws.specs.Whole.{RunsNameWhatIsThere};

use hir_def_map::laws::{paths_answer_from_sources, paths_lead_to_what_is_there};

/// Of variants of an enum that have one name, the last is the one that the name stands for.
pub fn last_variant_prevails()
    ensures prevails { LastVariantPrevails }
{}

/// A run beside maps that name only what is there leaves one that does.
pub fn runs_name_what_is_there()
    ensures there { RunsNameWhatIsThere }
{
    paths_lead_to_what_is_there();
}

/// A run binds only what the sources write that it asked for, and what the maps beside it bind, seen from modules that
/// are there.
pub fn runs_bind_from_sources()
    ensures sources { RunsBindFromSources }
{
    paths_lead_to_what_is_there();
    paths_answer_from_sources();
}

/// A run meets no unknown source, where the numbers of its tree mean something and the maps beside it bind only what sources
/// write that have numbers.
pub fn runs_meet_no_unknown_source()
    ensures known { RunsMeetNoUnknownSource }
{
    paths_lead_to_what_is_there();
    paths_answer_from_sources();
}

/// A crate's run asks for nothing of a block, where the maps beside it bind nothing that is written in one.
pub fn crates_ask_for_no_block()
    ensures none { CratesAskForNoBlock }
{
    paths_lead_to_what_is_there();
    paths_answer_from_sources();
}

/// What a run comes to stays as tables grow, where the number of its tree means something; so does what is seen at each
/// key that it asked for.
pub fn answers_stand_as_tables_grow()
    ensures looks { LooksStand }
    ensures meaning { AskedKeysHaveMeaning }
    ensures answers { AnswersStand }
{}
