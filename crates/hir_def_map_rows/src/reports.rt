//! Diagnostics of each kind, as a map keeps them.
use crate::asks::asker_at;
use crate::build::{item, use_item};
use crate::shows::ModuleText;
use crate::stage::{Draft, Stage};
use crate::words;
use crate::words::Fault;
use hir_base::ast_id::{AstId, AstKind, AttrId};
use hir_base::cfg::CfgExpr;
use hir_base::cfg_options::CfgOptions;
use hir_base::ids::ModuleId;
use hir_base::macro_kind::MacroCallKind;
use hir_base::text::Text;
use hir_def_map::{DefDiagnostic, DefDiagnosticKind};
use std::alloc::Global;
use std::fmt::Write;

/// A diagnostic of a node, by the word of its kind.
fn of_item(alloc: Global, at: ModuleId, kind: &str, node: AstId) -> Result<DefDiagnostic, Fault> {
    match kind {
        "module" => Ok(DefDiagnostic::unresolved_module(at, node, Vec::new(alloc))),
        "extern_crate" => Ok(DefDiagnostic::unresolved_extern_crate(at, node)),
        "import" => Ok(DefDiagnostic::unresolved_import(at, use_item(at, node.id), 3)),
        "unconfigured" => Ok(DefDiagnostic::unconfigured_code(
            at,
            node,
            CfgExpr::Const(false),
            CfgOptions::new(alloc),
        )),
        "unimplemented" => Ok(DefDiagnostic::unimplemented_builtin_macro(at, node)),
        "derive_target" => Ok(DefDiagnostic::invalid_derive_target(at, node, AttrId(2))),
        "derive" => Ok(DefDiagnostic::malformed_derive(at, node, AttrId(2))),
        _ => of_macro(alloc, at, kind, node),
    }
}

/// One of a call or a macro.
fn of_macro(alloc: Global, at: ModuleId, kind: &str, node: AstId) -> Result<DefDiagnostic, Fault> {
    let path = words::path_of(alloc, "a::b")?;
    match kind {
        "call" => Ok(DefDiagnostic::unresolved_macro_call(
            at,
            MacroCallKind::FnLike { ast: node },
            path,
        )),
        "attribute" => Ok(DefDiagnostic::unresolved_macro_call(
            at,
            MacroCallKind::Attr {
                ast: node,
                attr: AttrId(2),
            },
            path,
        )),
        "derived" => Ok(DefDiagnostic::unresolved_macro_call(
            at,
            MacroCallKind::Derive {
                ast: node,
                attr: AttrId(2),
                index: 1,
            },
            path,
        )),
        "error" => Ok(DefDiagnostic::macro_error(at, node, path, Text::from_str(alloc, "absent")?)),
        _ => Err(Fault::Bad),
    }
}

/// Gives the open map a diagnostic of a node.
pub fn report(alloc: Global, draft: &mut Draft, words: &[&str]) -> Result<(), Fault> {
    let [at, kind, id] = words else {
        return Err(Fault::Bad);
    };
    let node = item(AstKind::Use, words::node_of(id)?);
    let diagnostic = of_item(alloc, words::module_id(at)?, kind, node)?;
    draft.map.add_diagnostic(diagnostic)?;
    Ok(())
}

fn kind_text(kind: &DefDiagnosticKind) -> &'static str {
    match kind {
        DefDiagnosticKind::UnresolvedModule { .. } => "unresolved module",
        DefDiagnosticKind::UnresolvedExternCrate { .. } => "unresolved extern crate",
        DefDiagnosticKind::UnresolvedImport { .. } => "unresolved import",
        DefDiagnosticKind::UnconfiguredCode { .. } => "unconfigured code",
        DefDiagnosticKind::UnresolvedMacroCall { .. } => "unresolved macro call",
        DefDiagnosticKind::UnimplementedBuiltinMacro { .. } => "unimplemented builtin macro",
        DefDiagnosticKind::InvalidDeriveTarget { .. } => "invalid derive target",
        DefDiagnosticKind::MalformedDerive { .. } => "malformed derive",
        DefDiagnosticKind::MacroDefError { .. } => "macro def error",
        DefDiagnosticKind::MacroError { .. } => "macro error",
    }
}

fn write_report(diagnostic: &DefDiagnostic, out: &mut String) -> Result<(), Fault> {
    out.push_str(" ")?;
    out.push_str(kind_text(&diagnostic.kind))?;
    let module = ModuleText(diagnostic.in_module);
    let node = diagnostic.kind.ast_id().id.hash;
    write!(out, " {module}#{node}")?;
    Ok(())
}

/// What a map's diagnostics are, in their order: the kind, the module, and the node.
pub fn reports(stage: &Stage, words: &[&str], out: &mut String) -> Result<(), Fault> {
    let [at] = words else {
        return Err(Fault::Bad);
    };
    let asker = asker_at(stage, at)?;
    out.push_str(" ->")?;
    let mut is_first = true;
    for diagnostic in asker.map.diagnostics().iter() {
        if !is_first {
            out.push_str(",")?;
        }
        write_report(diagnostic, out)?;
        is_first = false;
    }
    Ok(())
}
