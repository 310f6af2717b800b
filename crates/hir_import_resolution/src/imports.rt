//! Where imports stand.
use hir_glob_imports::GlobImports;
use hir_import_rules::directive::ImportDirective;
use hir_import_rules::taken::Taken;
use hir_nameres::hir_scope::glob_imports::PerNsGlobImports;
use hir_nameres::nameres::DefMap;
use hir_nameres::nameres::local_def_map::LocalDefMap;

/// The imports of a map that is built, and what came of them so far.
#[derive(Drop)]
pub struct Imports {
    /// The modules so far, and what each binds.
    pub map: DefMap,
    /// The crates that paths may begin with.
    pub local: LocalDefMap,
    /// The names that globs brought.
    pub from_glob_import: PerNsGlobImports,
    /// The imports that were found, in order.
    pub imports: Vec<ImportDirective>,
    /// For each of them what its takings reached.
    pub taken: Vec<Taken>,
    /// The globs that were recorded, and what they brought.
    pub globs: GlobImports,
    /// How many steps were taken.
    pub count: u32,
}
