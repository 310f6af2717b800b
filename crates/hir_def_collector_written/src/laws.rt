//! What a run imports and declares is what the sources write. The functions do nothing: their contracts are the laws.
ghost use Rattle.hir_def_collector_written.specs.Declared.{BindingsAreDeclared};
ghost use Rattle.hir_def_collector_written.specs.Walked.{UsesAreImported};

/// Each leaf of an enabled `use` item that a run walks is among the imports that it came upon, in the item's module and at
/// the leaf's place in preorder; so is each enabled `extern crate` item. A run walks the items of the tree with which it
/// begins, of each module's file, of each expansion, and those inside modules and extern blocks that it walks. It walks no
/// item that still waits for an attribute, that an attribute's expansion stands in place of, or that is too deep.
pub fn uses_are_imported()
    ensures imported { UsesAreImported }
{}

/// What a name of a module stands for without an import, an enabled item of the module declares: under that name, with the
/// item's visibility as it was seen where the run came to it, and the module lists the definition. A `macro_rules` that is
/// marked `macro_export` the root binds for all, and doesn't list; a macro that a function of the root exports it binds for
/// all, under the macro's name. Of the root of a procedural-macro crate others see less.
pub fn bindings_are_declared()
    ensures declared { BindingsAreDeclared }
{}
