//! The attributes that derives bring into scope.
ghost use Rattle.std.specs.Prelude.{◌≡◌};
ghost use Rattle.hir_collector_rules.specs.Attributes.{is_helper, is_named_by};

use hir_base::ast_id::AstId;
use hir_base::mod_path::{ModPath, PathKind};
use hir_base::name::Name;
use hir_collector_rules::hir_nameres::nameres::DefMap;
use hir_collector_rules::hir_nameres::nameres::derive_helpers::DeriveHelper;

/// Whether a name is that of one of these helpers.
fn is_named_by(helpers: &[DeriveHelper], name: &Name) -> bool
    ensures value { result ≡ is_named_by helpers.now name.now }
{
    for helper in helpers {
        if helper.name == *name {
            return true;
        }
    }
    false
}

/// Whether a path is that of a helper which a derive brought into scope on a node.
pub fn is_helper(map: &DefMap, node: AstId, path: &ModPath) -> bool
    ensures value { result ≡ is_helper map.now node path.now }
{
    match (path.kind(), path.segments()) {
        (PathKind::Plain, [name]) => match map.derive_helpers_in_scope(node) {
            Some(helpers) => is_named_by(helpers, name),
            None => false,
        },
        _ => false,
    }
}
