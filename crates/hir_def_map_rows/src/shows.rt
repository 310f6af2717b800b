//! How answers are written.
use hir_base::ast_id::SyntaxId;
use hir_base::ids::{AdtId, Crate, EnumVariantId, Lookup, MapId, ModuleDefId, ModuleId};
use hir_base::macro_kind::{MacroId, macro_styles_from_id};
use hir_def_map::{ReachedFixedPoint, ResolvePathResult, ResolvePathResultPrefixInfo};
use hir_item_tree::raw_visibility::VisibilityExplicitness;
use hir_scope::imports::{ImportOrExternCrate, ImportOrGlob};
use hir_scope::per_ns::PerNs;
use hir_scope::visibility::Visibility;
use std::fmt;
use std::fmt::{Display, Formatter, Write};

#[derive(Clone, Copy)]
pub struct MapText(pub MapId);

impl Display for MapText {
    fn fmt<W: Write>(&self, f: &mut Formatter<W>) -> fmt::Result {
        let krate = self.0.krate.0;
        match self.0.block {
            Some(block) => write!(f, "{krate}.{}", block.0),
            None => write!(f, "{krate}"),
        }
    }
}

#[derive(Clone, Copy)]
pub struct ModuleText(pub ModuleId);

impl Display for ModuleText {
    fn fmt<W: Write>(&self, f: &mut Formatter<W>) -> fmt::Result {
        write!(f, "{}:{}", MapText(self.0.map), self.0.index)
    }
}

/// A kind, a module and a node in it.
#[derive(Clone, Copy)]
struct NodeText(&'static str, ModuleId, SyntaxId);

impl Display for NodeText {
    fn fmt<W: Write>(&self, f: &mut Formatter<W>) -> fmt::Result {
        write!(f, "{} {}#{}", self.0, ModuleText(self.1), self.2.hash)
    }
}

fn adt_text(id: AdtId) -> NodeText {
    match id {
        AdtId::StructId(id) => NodeText("struct", id.loc.container, id.loc.id),
        AdtId::UnionId(id) => NodeText("union", id.loc.container, id.loc.id),
        AdtId::EnumId(id) => NodeText("enum", id.loc.container, id.loc.id),
    }
}

/// A variant by its node, behind its enum.
#[derive(Clone, Copy)]
struct VariantText(EnumVariantId);

impl Display for VariantText {
    fn fmt<W: Write>(&self, f: &mut Formatter<W>) -> fmt::Result {
        let loc = self.0.parent.loc;
        write!(
            f,
            "{}.{}",
            NodeText("variant", loc.container, loc.id),
            self.0.id.hash
        )
    }
}

fn macro_kind(id: MacroId) -> &'static str {
    let styles = macro_styles_from_id(id);
    if styles.fn_like && styles.attr {
        "both"
    } else if styles.fn_like {
        "bang"
    } else if styles.attr {
        "attr"
    } else {
        "derive"
    }
}

fn macro_text(id: MacroId) -> NodeText {
    let kind = macro_kind(id);
    match id {
        MacroId::Macro2Id(id) => NodeText(kind, id.loc.container, id.loc.id),
        MacroId::MacroRulesId(id) => NodeText(kind, id.loc.container, id.loc.id),
        MacroId::ProcMacroId(id) => NodeText(kind, id.loc.container, id.loc.id),
    }
}

#[derive(Clone, Copy)]
struct DefText(ModuleDefId);

impl Display for DefText {
    fn fmt<W: Write>(&self, f: &mut Formatter<W>) -> fmt::Result {
        match self.0 {
            ModuleDefId::ModuleId(id) => write!(f, "mod {}", ModuleText(id)),
            ModuleDefId::FunctionId(id) => write!(f, "{}", NodeText("fn", id.module(), id.loc.id)),
            ModuleDefId::AdtId(id) => write!(f, "{}", adt_text(id)),
            ModuleDefId::EnumVariantId(id) => write!(f, "{}", VariantText(id)),
            ModuleDefId::MacroId(id) => write!(f, "{}", macro_text(id)),
            ModuleDefId::BuiltinType(kind) => write!(f, "builtin {kind}"),
            _ => f.write_str("other"),
        }
    }
}

#[derive(Clone, Copy)]
pub struct VisibilityText(pub Visibility);

impl Display for VisibilityText {
    fn fmt<W: Write>(&self, f: &mut Formatter<W>) -> fmt::Result {
        match self.0 {
            Visibility::Public => f.write_str("pub"),
            Visibility::PubCrate(Crate(krate)) => write!(f, "crate={krate}"),
            Visibility::Module(id, VisibilityExplicitness::Implicit) => {
                write!(f, "in={}", ModuleText(id))
            }
            Visibility::Module(id, VisibilityExplicitness::Explicit) => {
                write!(f, "pub-in={}", ModuleText(id))
            }
        }
    }
}

/// What brought a name, by its node.
#[derive(Clone, Copy)]
struct By(&'static str, SyntaxId);

fn brought(import: Option<ImportOrExternCrate>) -> Option<By> {
    match import {
        Some(ImportOrExternCrate::Import(id)) => Some(By("import", id.use_.loc.id)),
        Some(ImportOrExternCrate::Glob(id)) => Some(By("glob", id.use_.loc.id)),
        Some(ImportOrExternCrate::ExternCrate(id)) => Some(By("extern", id.loc.id)),
        None => None,
    }
}

fn value_brought(import: Option<ImportOrGlob>) -> Option<By> {
    match import {
        Some(ImportOrGlob::Import(id)) => Some(By("import", id.use_.loc.id)),
        Some(ImportOrGlob::Glob(id)) => Some(By("glob", id.use_.loc.id)),
        None => None,
    }
}

/// What a name stands for in one namespace, and what brought it.
#[derive(Clone, Copy)]
struct ItemText(&'static str, ModuleDefId, Visibility, Option<By>);

impl Display for ItemText {
    fn fmt<W: Write>(&self, f: &mut Formatter<W>) -> fmt::Result {
        let vis = VisibilityText(self.2);
        write!(f, " {} {} {vis}", self.0, DefText(self.1))?;
        match self.3 {
            Some(By(kind, id)) => write!(f, " {kind}={}", id.hash),
            None => Ok(()),
        }
    }
}

/// What a name stands for, by namespace.
#[derive(Clone, Copy)]
pub struct ItemsText(pub PerNs);

impl Display for ItemsText {
    fn fmt<W: Write>(&self, f: &mut Formatter<W>) -> fmt::Result {
        let PerNs {
            types,
            values,
            macros,
        } = self.0;
        if self.0.is_none() {
            return f.write_str(" nothing");
        }
        if let Some(item) = types {
            let by = brought(item.import);
            write!(f, "{}", ItemText("type", item.def, item.vis, by))?;
        }
        if let Some(item) = values {
            let comma = if types.is_some() { "," } else { "" };
            let by = value_brought(item.import);
            write!(f, "{comma}{}", ItemText("value", item.def, item.vis, by))?;
        }
        if let Some(item) = macros {
            let is_first = types.is_none() && values.is_none();
            let comma = if is_first { "" } else { "," };
            let def = ModuleDefId::MacroId(item.def);
            let by = brought(item.import);
            write!(f, "{comma}{}", ItemText("macro", def, item.vis, by))?;
        }
        Ok(())
    }
}

/// Where a path stops, if it does.
#[derive(Clone, Copy)]
pub struct StopText(pub Option<usize>);

impl Display for StopText {
    fn fmt<W: Write>(&self, f: &mut Formatter<W>) -> fmt::Result {
        match self.0 {
            Some(index) => write!(f, ", stops at {index}"),
            None => Ok(()),
        }
    }
}

/// What a path leads through.
pub fn prefix_text(prefix: ResolvePathResultPrefixInfo) -> &'static str {
    match (prefix.differing_crate, prefix.enum_variant) {
        (false, false) => "directly",
        (true, false) => "through another crate",
        (false, true) => "through an enum",
        (true, true) => "through another crate and an enum",
    }
}

/// What a path leads to, where it stops, and whether that is final.
#[derive(Clone, Copy)]
pub struct ResultText(pub ResolvePathResult);

impl Display for ResultText {
    fn fmt<W: Write>(&self, f: &mut Formatter<W>) -> fmt::Result {
        let ResolvePathResult {
            resolved_def,
            segment_index,
            ..
        } = self.0;
        let status = match self.0.reached_fixedpoint {
            ReachedFixedPoint::Yes => "final",
            ReachedFixedPoint::No => "not final",
        };
        write!(
            f,
            "{}{}, {status}",
            ItemsText(resolved_def),
            StopText(segment_index)
        )
    }
}
