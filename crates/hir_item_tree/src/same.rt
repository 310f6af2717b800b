//! Tests of the values of which items are made, each exact.
ghost use Rattle.std.specs.Prelude.{◌≡◌, ◌↔◌, IsTrue};

use crate::raw_visibility::RawVisibility;
use crate::shape::ExternCrateName;
use hir_base::name::Name;
pub use hir_use_tree::eq::{same_alias, same_name, same_names, same_path};

/// Whether two visibilities are written alike.
pub fn same_visibility(a: &RawVisibility, b: &RawVisibility) -> bool
    ensures exact { IsTrue result ↔ (a.now ≡ b.now) }
{
    match (a, b) {
        (RawVisibility::Module(a, x), RawVisibility::Module(b, y)) => x == y && same_path(a, b),
        (RawVisibility::PubSelf(x), RawVisibility::PubSelf(y)) => x == y,
        (RawVisibility::PubCrate, RawVisibility::PubCrate) => true,
        (RawVisibility::Public, RawVisibility::Public) => true,
        _ => false,
    }
}

/// Whether two lists of visibilities are written alike.
pub fn same_visibilities(a: &[RawVisibility], b: &[RawVisibility]) -> bool
    ensures exact { IsTrue result ↔ (a.now ≡ b.now) }
{
    if a.len() != b.len() {
        return false;
    }
    for i in 0..a.len() {
        if !same_visibility(&a[i], &b[i]) {
            return false;
        }
    }
    true
}

/// Whether two extern crates are named alike.
pub fn same_crate_name(a: &ExternCrateName, b: &ExternCrateName) -> bool
    ensures exact { IsTrue result ↔ (a.now ≡ b.now) }
{
    match (a, b) {
        (ExternCrateName::SelfCrate, ExternCrateName::SelfCrate) => true,
        (ExternCrateName::Name(a), ExternCrateName::Name(b)) => same_name(a, b),
        _ => false,
    }
}

/// Whether two names are the same, or there is none in both.
pub fn same_optional_name(a: &Option<Name>, b: &Option<Name>) -> bool
    ensures exact { IsTrue result ↔ (a.now ≡ b.now) }
{
    match (a, b) {
        (None, None) => true,
        (Some(a), Some(b)) => same_name(a, b),
        _ => false,
    }
}
