//! What holds of every path over maps. The functions do nothing: their contracts are the laws.
//!
//! Laws that no caller needs stand in `hir_def_map_laws`.
ghost use Rattle.hir_def_map_rules.specs.Closed.{PathsLeadToWhatIsThere};
ghost use Rattle.hir_def_map_rules.specs.Sources.{PathsAnswerFromSources};

/// A path leads only to what is there, where all that is named lies among the maps.
pub fn paths_lead_to_what_is_there()
    ensures there { PathsLeadToWhatIsThere }
{}

/// A path answers only what is written where the maps bind, brought by items there, and visible from modules that
/// visibilities there name.
pub fn paths_answer_from_sources()
    ensures sources { PathsAnswerFromSources }
{}
