//! What holds of every run of the collector. The functions do nothing: their contracts are the laws.
#![tactic(auto)]

ghost use Rattle.hir_def_collector_laws.specs.Calls.{CallsAreWritten};
ghost use Rattle.hir_def_collector_laws.specs.Diagnostics.{DiagnosticsAreOfItems};
ghost use Rattle.hir_def_collector_laws.specs.Globs.{GlobsBringWhatIsShown};
ghost use Rattle.hir_def_collector_laws.specs.Imports.{BindingsAreWritten, GlobsAreWritten, ImportsAreWritten, LeftoversAreWritten, UnnamedTraitsAreWritten};
ghost use Rattle.hir_def_collector_laws.specs.Modules.{ModulesListTheirItems, ModulesListTheirItemsAlone};

pub mod laws;

/// Each import that a run came upon is a leaf of an enabled `use` item, at its own place in preorder, or an enabled `extern
/// crate` item, in a tree that the run asked for; so is each import that is left over, and each glob that was recorded.
pub fn imports_are_written()
    ensures reached { ImportsAreWritten }
    ensures leftover { LeftoversAreWritten }
    ensures globs { GlobsAreWritten }
{}

/// What a name stands for was declared, or was brought by an import that is written so in the name's module: by a leaf of a
/// `use` item, a glob or an `extern crate` item. So is each trait that a module has without a name: by a `use .. as _` or a
/// glob.
pub fn bindings_are_written()
    ensures bindings { BindingsAreWritten }
    ensures traits { UnnamedTraitsAreWritten }
{}

/// A name that a glob brought came along a recorded edge of that glob, and is what the edge's source shows in the end.
pub fn globs_bring_what_is_shown()
    ensures shown { GlobsBringWhatIsShown }
{}

/// Each macro call that a run came upon is an enabled item, in a tree that the run asked for, and stands in a module of the
/// run's map. So does each path of a derive, which a `derive` on a struct, enum or union lists at its place, and each
/// attribute for which its item waited.
pub fn calls_are_written()
    ensures calls { CallsAreWritten }
{}

/// A module lists, in their order, the definitions that its enabled items declare: those of its file, or inside the `mod`
/// item that declares it. Behind them come, in the order in which calls in the module were expanded, the definitions that the
/// items declare to which they expand, and in the same order those of items that had waited for an attribute. What a run came
/// upon waits in the end, was expanded, went on, was too deep, or is a builtin derive whose impl the module lists. Where
/// nothing is written that waits, a module lists what its items declare alone.
pub fn modules_list_their_items()
    ensures modules { ModulesListTheirItems }
    ensures alone { ModulesListTheirItemsAlone }
{}

/// Each diagnostic names a module of the run's map, and an item that is written in a tree which the run asked for.
pub fn diagnostics_are_of_items()
    ensures diagnostics { DiagnosticsAreOfItems }
{}
