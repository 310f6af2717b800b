//! The macros in textual scope in the modules of a map.
ghost use Rattle.std.specs.Prelude.{◌≡◌, ◌<◌, length, IfOk, OnOk};
ghost use Rattle.hir_collector_rules.specs.Macros.{textual_at, with_textual_macro, with_textual_scope};

use hir_base::macro_kind::MacroId;
use hir_base::name::Name;
use hir_collector_rules::hir_nameres::nameres::DefMap;
use hir_collector_rules::hir_textual_scope::TextualScope;
use std::alloc::{AllocError, Global};

/// Adds a macro to those in textual scope in a module: it comes last among those of its name.
pub fn define(map: &mut DefMap, home: u32, name: Name, makro: MacroId) -> Result<(), AllocError>
    requires in_range { home < length map.old.modules }
    ensures ok { OnOk result (map.new ≡ with_textual_macro map.old home name makro) }
{
    map.scope_mut(home).define_legacy_macro(name, makro)
}

/// The macros in textual scope in a module; nothing is copied.
fn scope(alloc: Global, map: &DefMap, home: u32) -> Result<TextualScope, AllocError>
    ensures value { IfOk result (λ macros. macros ≡ textual_at map.now home) }
{
    match map.scope(home) {
        Some(scope) => scope.textual_scope().clone(),
        None => Ok(TextualScope::new(alloc)),
    }
}

/// Puts these macros into textual scope in a module, in place of those before.
fn set(map: &mut DefMap, home: u32, macros: TextualScope)
    requires in_range { home < length map.old.modules }
    ensures value { map.new ≡ with_textual_scope map.old home macros }
{
    map.scope_mut(home).set_textual_scope(macros);
}

/// Lets a module take over the macros that are in textual scope in another.
pub fn take(alloc: Global, map: &mut DefMap, home: u32, from: u32) -> Result<(), AllocError>
    requires in_range { home < length map.old.modules }
    ensures ok { OnOk result (map.new ≡ with_textual_scope map.old home (textual_at map.old from)) }
{
    let macros = scope(alloc, map, from)?;
    set(map, home, macros);
    Ok(())
}
