//! The macros that functions of a procedural-macro crate export, and what others see of such a crate.
ghost use Rattle.std.specs.Prelude.{◌≡◌, ◌≤◌, [], IfOk, OnOk, Some, map as list_map, option_map};
ghost use Rattle.hir_collector_state.specs.HirItemTree.Attributes.{input_view};
ghost use Rattle.hir_collector_state.specs.HirItemTree.Collected.{numbered};
ghost use Rattle.hir_collector_state.specs.HirItemTree.KeptForest.{function, leaf};
ghost use Rattle.hir_collector_state.specs.HirCollectorRules.Attributes.{derive_export, export_at, export_of, first_derive};
ghost use Rattle.hir_collector_state.specs.HirCollectorRules.ItemIds.{function_id};
ghost use Rattle.hir_collector_state.specs.HirCollectorRules.Items.{value_declaration};
ghost use Rattle.hir_collector_state.specs.HirCollectorRules.Moves.{with_export};
ghost use Rattle.hir_collector_state.specs.HirCollectorRules.State.{core_in, counted};
ghost use Rattle.hir_collector_state.specs.HirCollectorRules.TreeReads.{head_of};
ghost use Rattle.hir_collector_state.specs.Waiting.{IsNoted};

use hir_base::ids::{FunctionId, ModuleDefId};
use hir_base::macro_kind::{MacroId, ProcMacroId, ProcMacroLoc, ProcMacroStyle};
use hir_base::name::Name;
use hir_collector_state::declare::{bind, declare};
use hir_collector_state::def_collector::DefCollector;
use hir_collector_state::hir_collector_rules::crate_attrs::{is_keyed, says};
use hir_collector_state::hir_collector_rules::declaration::Declaration;
use hir_collector_state::hir_collector_rules::exported::{Export, ExportedFunction};
use hir_collector_state::hir_collector_rules::names::cloned;
use hir_collector_state::hir_collector_rules::site::{ItemHead, Site};
use hir_collector_state::hir_collector_rules::start::{STEP_LIMIT, StepError};
use hir_collector_state::hir_nameres::nameres::macro_data::MacroData;
use hir_collector_state::hir_scope::per_ns::PerNs;
use hir_collector_state::hir_scope::visibility::Visibility;
use hir_item_tree::attrs::Attr;
use hir_item_tree::raw_attr::{AttrInput, TokenTree};
use std::alloc::{AllocError, Global};

/// A derive macro, with its own name and its helpers, if an attribute names one.
fn derive_export(alloc: Global, input: &Option<AttrInput>) -> Result<Option<Export>, AllocError>
    ensures value { IfOk result (λ export. export ≡ derive_export (option_map input_view input.now)) }
{
    let Some(AttrInput::TokenTree(TokenTree::Derive { name, helpers })) = input else {
        return Ok(None);
    };
    Ok(Some(Export {
        style: ProcMacroStyle::Derive,
        what: MacroData {
            name: name.clone()?,
            helpers: cloned(alloc, helpers)?,
        },
    }))
}

/// The derive macro of the first `proc_macro_derive` that names one.
fn first_derive(alloc: Global, attrs: &[Attr]) -> Result<Option<Export>, AllocError>
    ensures value { IfOk result (λ export. export ≡ first_derive (list_map numbered attrs.now)) }
{
    for attr in attrs {
        if is_keyed(attr, "proc_macro_derive") {
            let export = derive_export(alloc, &attr.meta.input)?;
            if export.is_some() {
                return Ok(export);
            }
        }
    }
    Ok(None)
}

/// A macro under the function's name.
fn under_name(
    alloc: Global,
    style: ProcMacroStyle,
    name: &Name,
) -> Result<Option<Export>, AllocError>
    ensures value { IfOk result (λ export. export ≡ Some (record { style = style; what = record { name = name.now; helpers = [] } })) }
{
    Ok(Some(Export {
        style,
        what: MacroData {
            name: name.clone()?,
            helpers: Vec::new(alloc),
        },
    }))
}

/// What the attributes of a function of this name export.
///
/// After rust-analyzer's `parse_proc_macro_decl`.
fn export_of(alloc: Global, name: &Name, attrs: &[Attr]) -> Result<Option<Export>, AllocError>
    ensures value { IfOk result (λ export. export ≡ export_of name.now (list_map numbered attrs.now)) }
{
    if says(attrs, "proc_macro") {
        return under_name(alloc, ProcMacroStyle::FnLike, name);
    }
    if says(attrs, "proc_macro_attribute") {
        return under_name(alloc, ProcMacroStyle::Attr, name);
    }
    first_derive(alloc, attrs)
}

/// What a function of a site exports.
pub fn export_at(
    run: &DefCollector,
    site: &Site,
    head: ItemHead<'_>,
    name: &Name,
) -> Result<Option<Export>, AllocError>
    ensures value { IfOk result (λ export. export
        ≡ export_at (core_in run.now).is_proc_macro (core_in run.now).map site.now (leaf (head_of head.entry) (function name.now))) }
{
    if !run.exports_from(site.home) {
        return Ok(None);
    }
    export_of(run.allocator(), name, head.attrs.attrs.as_slice())
}

/// Declares a function that exports a macro, and the macro, which everyone may see.
///
/// After rust-analyzer's `export_proc_macro`.
pub fn declare_exporting(
    run: &mut DefCollector,
    site: &Site,
    head: ItemHead<'_>,
    name: &Name,
    id: FunctionId,
    vis: Visibility,
    export: Export,
) -> Result<(), StepError>
    requires is_function { id ≡ function_id (core_in run.old).map site.now head.id }
    ensures ok { OnOk result (core_in run.new ≡ counted (with_export (core_in run.old) site.now (head_of head.entry) name.now
        (value_declaration name.now (ModuleDefId.FunctionId id) vis) export)) }
    ensures noted { OnOk result (IsNoted run.old run.new) }
    ensures many { result ≡ Err StepError.TooMany → STEP_LIMIT ≤ (core_in run.old).count }
{
    let exported = ProcMacroId {
        loc: ProcMacroLoc {
            container: run.module_id(site.home),
            file_id: site.tree.file,
            block: site.tree.block,
            id: head.id,
            style: export.style,
        },
    };
    let makro = MacroId::ProcMacroId(exported);
    let under = export.what.name.clone()?;
    run.export(
        ExportedFunction {
            name: name.clone()?,
            id,
        },
        exported,
    )?;
    run.describe_macro(makro, export.what)?;
    let def = ModuleDefId::FunctionId(id);
    let function = Declaration {
        name: name.clone()?,
        def,
        items: PerNs::values(def, vis, None),
    };
    bind(run, site.home, function)?;
    let declaration = Declaration {
        name: under,
        def: ModuleDefId::MacroId(makro),
        items: PerNs::macros(makro, Visibility::Public, None),
    };
    declare(run, site.home, declaration)?;
    Ok(())
}
