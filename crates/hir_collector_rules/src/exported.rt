//! What functions of a procedural-macro crate export.

use hir_base::ids::FunctionId;
use hir_base::macro_kind::ProcMacroStyle;
use hir_base::name::Name;
use hir_nameres::nameres::macro_data::MacroData;

/// A macro that a function exports: how it may be called, under which name, and the attributes that deriving with it
/// brings into scope.
#[derive(Drop)]
pub struct Export {
    pub style: ProcMacroStyle,
    pub what: MacroData,
}

/// A function that exports a macro, and its own name.
#[derive(Drop)]
pub struct ExportedFunction {
    pub name: Name,
    pub id: FunctionId,
}
