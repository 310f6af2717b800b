//! What one more macro changes.
ghost use Rattle.hir_textual_scope.specs.Laws.{NewMacroComesLast, NewMacroIsMeant, OtherNamesKeepTheirs};

/// A macro that is defined comes last among those of its name, so its name means it. No other name is touched.
pub fn one_more_macro_changes_its_name_alone()
    ensures comes_last { NewMacroComesLast }
    ensures is_meant { NewMacroIsMeant }
    ensures others { OtherNamesKeepTheirs }
{}
