//! Namespaces, what a name stands for in each, and who may see it.
//!
//! A `PerNs` is what a name stands for: in types, in values and in macros at most one item each, with its definition, its
//! visibility and the import that bound it. A `Visibility` is a set of modules, over any `ModuleTree`.
//!
//! An `ItemScope` has the names of a module or a block, what it declares, and what each of its imports reached. The names are one
//! list of entries in their order, each name once, and no entry says nothing. So a look-up halves the list, and a walk over
//! names needs no memory.
//!
//! A push takes effect slot by slot. An explicit item replaces one that a glob brought, which `PerNsGlobImports` tells, and else
//! what stands there stays, unless its own import now reaches another definition. So what prevails can be said of the list of
//! pushes (`laws`). A push reserves all its memory before it writes: one that is refused changes nothing.
#![tactic(auto)]

pub use hir_per_ns::{
    import_conversions, imports, item_in_ns, laws, module_tree, per_ns, per_ns_items, visibility,
};
pub use hir_textual_scope;

pub mod glob_imports;
pub mod item_scope;
pub mod scopes;
pub mod walk_laws;
