//! What is bound explicitly no glob has brought.
ghost use Rattle.std.specs.Prelude.{◌≡◌, OnOk, is_some};
ghost use Rattle.hir_glob_imports.specs.View.{View};
ghost use Rattle.hir_glob_imports.specs.Waves.{IsKept, brought_of};
ghost use Rattle.hir_import_rules.specs.Changes.{forgotten, forgotten_in};
ghost use Rattle.hir_import_growth.specs.Binding.{IsBound, MayBind};

use hir_base::name::Name;
use hir_glob_imports::{GlobImports, Key, Slot};
use hir_nameres::hir_scope::per_ns::PerNs;
use std::alloc::AllocError;

/// No glob has brought what stands in a slot any more, where something is bound there explicitly.
fn forget_in(globs: &mut GlobImports, home: u32, key: Key, binds: bool) -> Result<(), AllocError>
    ensures edges { OnOk result (globs.new.edges ≡ globs.old.edges) }
    ensures brought { OnOk result (brought_of globs.new ≡ forgotten_in home key binds (brought_of globs.old)) }
    ensures kept { OnOk result ((v w : View) → IsKept v globs.old → MayBind home key binds v w → IsKept w globs.new) }
{
    if binds {
        globs.changed(&Slot { at: home, key })
    } else {
        Ok(())
    }
}

/// Items were bound under a name of a module: no glob has brought what stands there any more, in each namespace in which
/// there is one, and the edges out of the module have to be looked at.
pub fn forget(
    globs: &mut GlobImports,
    home: u32,
    name: &Name,
    items: PerNs,
) -> Result<(), AllocError>
    ensures edges { OnOk result (globs.new.edges ≡ globs.old.edges) }
    ensures brought { OnOk result (brought_of globs.new ≡ forgotten home name.now items (brought_of globs.old)) }
    ensures kept { OnOk result ((v w : View) → IsKept v globs.old → IsBound home name.now items v w → IsKept w globs.new) }
{
    forget_in(
        globs,
        home,
        Key::Types(name.clone()?),
        items.types.is_some(),
    )?;
    forget_in(
        globs,
        home,
        Key::Values(name.clone()?),
        items.values.is_some(),
    )?;
    forget_in(
        globs,
        home,
        Key::Macros(name.clone()?),
        items.macros.is_some(),
    )
}
