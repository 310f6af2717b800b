//! Visibilities as they are written, after rust-analyzer's `RawVisibility`.
ghost use Rattle.std.specs.Prelude.{◌≡◌, ◌++◌, IfOk, OnOk};

use hir_base::mod_path::ModPath;
pub use hir_ids::explicitness::VisibilityExplicitness;
use std::alloc::{AllocError, Global};

/// A visibility as it is written.
#[derive(Drop)]
pub enum RawVisibility {
    /// `pub(in path)`.
    Module(ModPath, VisibilityExplicitness),
    /// `pub(self)`, or nothing.
    PubSelf(VisibilityExplicitness),
    PubCrate,
    Public,
}

impl RawVisibility {
    /// The same visibility again.
    pub fn clone(&self) -> Result<RawVisibility, AllocError>
        ensures value { IfOk result (λ v. v ≡ self.now) }
    {
        match self {
            RawVisibility::Module(path, explicitness) => {
                Ok(RawVisibility::Module(path.clone()?, *explicitness))
            }
            RawVisibility::PubSelf(explicitness) => Ok(RawVisibility::PubSelf(*explicitness)),
            RawVisibility::PubCrate => Ok(RawVisibility::PubCrate),
            RawVisibility::Public => Ok(RawVisibility::Public),
        }
    }
}

/// Adds visibilities at the end of a list.
pub fn push_visibilities(
    out: &mut Vec<RawVisibility>,
    more: &[RawVisibility],
) -> Result<(), AllocError>
    ensures ok { OnOk result (out.new.items ≡ out.old.items ++ more.now) }
{
    for visibility in more {
        out.push(visibility.clone()?)?;
    }
    Ok(())
}
