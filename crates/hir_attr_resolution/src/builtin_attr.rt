//! The builtin attributes that are inert, after rust-analyzer's `INERT_ATTRIBUTES`.
ghost use Rattle.std.specs.Prelude.{◌≡◌};
ghost use Rattle.hir_collector_state.specs.HirIds.Display.{is_one_of};
ghost use Rattle.hir_collector_state.specs.HirCollectorRules.BuiltinAttributes.{testing_and_macros, lints_and_documentation, crate_properties, symbols_and_code, is_listed, is_builtin, is_inert};

use hir_base::mod_path::{ModPath, PathKind};

/// Attributes of tests, and of macros.
fn is_of_tests_or_macros(name: &str) -> bool
    ensures value { result ≡ is_one_of testing_and_macros name.now }
{
    match name {
        "automatically_derived"
        | "bench"
        | "ignore"
        | "macro_export"
        | "macro_use"
        | "proc_macro"
        | "proc_macro_attribute"
        | "proc_macro_derive"
        | "should_panic"
        | "test" => true,
        _ => false,
    }
}

/// Attributes of lints, and of documentation.
fn is_of_lints_or_documentation(name: &str) -> bool
    ensures value { result ≡ is_one_of lints_and_documentation name.now }
{
    match name {
        "allow" | "deny" | "deprecated" | "doc" | "expect" | "forbid" | "must_use" | "warn" => true,
        _ => false,
    }
}

/// Attributes of a crate as a whole.
fn is_crate_property(name: &str) -> bool
    ensures value { result ≡ is_one_of crate_properties name.now }
{
    match name {
        "crate_name"
        | "crate_type"
        | "debugger_visualizer"
        | "feature"
        | "global_allocator"
        | "no_builtins"
        | "no_core"
        | "no_implicit_prelude"
        | "no_link"
        | "no_main"
        | "no_std"
        | "panic_handler"
        | "prelude_import"
        | "recursion_limit"
        | "register_tool"
        | "type_length_limit"
        | "windows_subsystem" => true,
        _ => false,
    }
}

/// Attributes of symbols and linking, of layout, and of generated code.
fn is_of_symbols_or_code(name: &str) -> bool
    ensures value { result ≡ is_one_of symbols_and_code name.now }
{
    match name {
        "cold"
        | "export_name"
        | "inline"
        | "instruction_set"
        | "link"
        | "link_name"
        | "link_ordinal"
        | "link_section"
        | "naked"
        | "no_mangle"
        | "non_exhaustive"
        | "path"
        | "repr"
        | "target_feature"
        | "track_caller"
        | "used" => true,
        _ => false,
    }
}

/// Whether the language has an inert attribute of this name.
fn is_listed(name: &str) -> bool
    ensures value { result ≡ is_listed name.now }
{
    is_of_tests_or_macros(name)
        || is_of_lints_or_documentation(name)
        || is_crate_property(name)
        || is_of_symbols_or_code(name)
}

/// Whether an attribute of this name is builtin and inert: one that the language has, or one of the compiler's own.
pub fn is_builtin_attr(name: &str) -> bool
    ensures value { result ≡ is_builtin name.now }
{
    is_listed(name) || name.as_bytes().starts_with(b"rustc_")
}

/// Whether an attribute with this path is builtin and inert, so that nothing is looked up for it.
pub fn is_inert_by_name(path: &ModPath) -> bool
    ensures value { result ≡ is_inert path.now.kind path.now.segments }
{
    match (path.kind(), path.segments()) {
        (PathKind::Plain, [name]) => is_builtin_attr(name.as_str()),
        _ => false,
    }
}
