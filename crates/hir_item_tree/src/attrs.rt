//! What is left of attributes under a crate's options, after rust-analyzer's `attrs.rs`.
ghost use Rattle.std.specs.Prelude.{◌≡◌, IfOk, OnOk, map};
ghost use Rattle.hir_item_tree.specs.Attributes.{attribute_view, attributes_view};
ghost use Rattle.hir_base.specs.Cfg.{cfg_view};
ghost use Rattle.hir_base.specs.CfgOptions.{is_set};
ghost use Rattle.hir_item_tree.specs.Collected.{numbered, collected_of, collected, collect, collect_all, merge, empty, is_enabled, holds};

use crate::raw_attr::{Meta, RawAttr};
use hir_base::ast_id::AttrId;
use hir_base::cfg::CfgExpr;
use hir_base::cfg_options::CfgOptions;
use hir_use_tree::use_tree::place_after;
use std::alloc::{AllocError, Global};

/// An attribute that is kept.
#[derive(Drop)]
pub struct Attr {
    /// Its place in the preorder of the handed-in list, what `cfg_attr` holds included.
    pub id: AttrId,
    pub meta: Meta,
}

/// The attributes that are kept, and the first condition that doesn't hold, where there is one: then the attributes
/// are those before it.
#[derive(Drop)]
pub struct AttrsOrCfg {
    pub attrs: Vec<Attr>,
    pub disabled: Option<CfgExpr>,
}

impl AttrsOrCfg {
    /// No attribute.
    pub fn empty(alloc: Global) -> AttrsOrCfg
        ensures value { collected_of result ≡ empty }
    {
        AttrsOrCfg {
            attrs: Vec::new(alloc),
            disabled: None,
        }
    }

    /// The first where a condition of it doesn't hold, else the attributes of both.
    pub fn merge(self, other: AttrsOrCfg) -> Result<AttrsOrCfg, AllocError>
        ensures value { IfOk result (λ a. collected_of a ≡ merge (collected_of self) (collected_of other)) }
    {
        let AttrsOrCfg {
            mut attrs,
            disabled,
        } = self;
        if disabled.is_some() {
            return Ok(AttrsOrCfg { attrs, disabled });
        }
        let AttrsOrCfg {
            attrs: mut more,
            disabled,
        } = other;
        attrs.append(&mut more)?;
        Ok(AttrsOrCfg { attrs, disabled })
    }

    /// The same again.
    pub fn clone(&self) -> Result<AttrsOrCfg, AllocError>
        ensures value { IfOk result (λ a. collected_of a ≡ collected_of self.now) }
    {
        let disabled = match &self.disabled {
            Some(cfg) => Some(cfg.clone(*self.attrs.allocator())?),
            None => None,
        };
        let attrs = clone_attrs(&self.attrs)?;
        Ok(AttrsOrCfg { attrs, disabled })
    }

    /// Whether all conditions hold.
    pub fn is_enabled(&self) -> bool
        ensures value { result ≡ is_enabled (collected_of self.now) }
    {
        self.disabled.is_none()
    }
}

impl Attr {
    /// The same attribute again.
    pub fn clone(&self) -> Result<Attr, AllocError>
        ensures value { IfOk result (λ a. numbered a ≡ numbered self.now) }
    {
        Ok(Attr {
            id: self.id,
            meta: self.meta.clone()?,
        })
    }
}

/// What handed-in attributes leave under options: of those in order, `cfg` that holds nothing, `cfg_attr` that holds
/// what it holds, and the first `cfg` that doesn't hold ends it. A condition that can't be read counts as holding.
pub fn collected(
    alloc: Global,
    options: &CfgOptions,
    attrs: &Vec<RawAttr>,
) -> Result<AttrsOrCfg, AllocError>
    ensures value { IfOk result (λ a. collected_of a
        ≡ collected (is_set options.now) (attributes_view attrs.now.items)) }
{
    let mut all = AttrsOrCfg::empty(alloc);
    collect_all(alloc, options, &mut all, attrs, 0)?;
    Ok(all)
}

fn clone_attrs(attrs: &Vec<Attr>) -> Result<Vec<Attr>, AllocError>
    ensures value { IfOk result (λ copies. map numbered copies.items ≡ map numbered attrs.now.items) }
{
    let mut copies = Vec::new(*attrs.allocator());
    for attr in attrs {
        copies.push(attr.clone()?)?;
    }
    Ok(copies)
}

// Whether a condition counts as holding: one that can't be read does.
fn holds(options: &CfgOptions, cfg: &CfgExpr) -> bool
    ensures value { result ≡ holds (is_set options.now) (cfg_view cfg.now) }
{
    options.check(cfg).unwrap_or(true)
}

// Adds what one attribute leaves to what those before it left.
#[cycle(collect)]
fn collect(
    alloc: Global,
    options: &CfgOptions,
    out: &mut AttrsOrCfg,
    attr: &RawAttr,
    id: u32,
) -> Result<(), AllocError>
    ensures ok { OnOk result (collected_of out.new
        ≡ merge (collected_of out.old) (collect (is_set options.now) (attribute_view attr.now) id)) }
{
    if out.disabled.is_some() {
        return Ok(());
    }
    match attr {
        RawAttr::Meta(meta) => {
            out.attrs.push(Attr {
                id: AttrId(id),
                meta: meta.clone()?,
            })?;
            Ok(())
        }
        RawAttr::Cfg(cfg) => {
            if !holds(options, cfg) {
                out.disabled = Some(cfg.clone(alloc)?);
            }
            Ok(())
        }
        RawAttr::CfgAttr { cfg, attrs } => {
            if holds(options, cfg) {
                collect_all(alloc, options, out, attrs, place_after(id, 1))
            } else {
                Ok(())
            }
        }
    }
}

#[cycle(collect)]
fn collect_all(
    alloc: Global,
    options: &CfgOptions,
    out: &mut AttrsOrCfg,
    attrs: &Vec<RawAttr>,
    first: u32,
) -> Result<(), AllocError>
    ensures ok { OnOk result (collected_of out.new
        ≡ merge (collected_of out.old) (collect_all (is_set options.now) (attributes_view attrs.now.items) first)) }
{
    let mut id = first;
    for attr in attrs {
        collect(alloc, options, out, attr, id)?;
        id = place_after(id, attr.count());
    }
    Ok(())
}
