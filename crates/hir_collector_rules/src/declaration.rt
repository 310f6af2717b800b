//! What items declare.

use hir_base::ids::ModuleDefId;
use hir_base::name::Name;
use hir_nameres::hir_scope::per_ns::PerNs;

/// A definition with its name, and what the name stands for.
#[derive(Drop)]
pub struct Declaration {
    pub name: Name,
    pub def: ModuleDefId,
    pub items: PerNs,
}
