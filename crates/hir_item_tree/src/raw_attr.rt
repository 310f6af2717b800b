//! Attributes as they are handed in, after rust-analyzer's `RawAttrs`.
ghost use Rattle.std.specs.Prelude.{◌≡◌, ◌++◌, IfOk, OnOk};
ghost use Rattle.hir_item_tree.specs.Attributes.{meta_view, input_view, token_tree_view, attribute_view, attributes_view, attribute_size, attributes_size};
ghost use Rattle.hir_use_tree.specs.UseTree.{count_of};

use hir_base::cfg::CfgExpr;
use hir_base::mod_path::ModPath;
use hir_base::name::Name;
use hir_use_tree::use_tree::place_after;
use std::alloc::AllocError;

/// What stands in the parentheses of an attribute.
#[derive(Drop)]
pub enum TokenTree {
    /// `path(a, b::c)`.
    Paths(Vec<ModPath>),
    /// `path(..)`, of which only the text is known.
    Tokens(String),
    /// `proc_macro_derive(name, attributes(helpers))`.
    Derive { name: Name, helpers: Vec<Name> },
}

/// What stands behind the path of an attribute.
#[derive(Drop)]
pub enum AttrInput {
    /// `path = "literal"`.
    Literal(String),
    TokenTree(TokenTree),
}

/// An attribute that is no condition.
#[derive(Drop)]
pub struct Meta {
    pub path: ModPath,
    pub input: Option<AttrInput>,
}

/// An attribute as it is handed in.
#[derive(Drop)]
pub enum RawAttr {
    Meta(Meta),
    /// `cfg(condition)`.
    Cfg(CfgExpr),
    /// `cfg_attr(condition, attributes)`.
    CfgAttr { cfg: CfgExpr, attrs: Vec<RawAttr> },
}

impl Meta {
    /// The same again.
    pub fn clone(&self) -> Result<Meta, AllocError>
        ensures value { IfOk result (λ m. meta_view m ≡ meta_view self.now) }
    {
        let input = match &self.input {
            Some(input) => Some(input.clone()?),
            None => None,
        };
        Ok(Meta {
            path: self.path.clone()?,
            input,
        })
    }
}

impl AttrInput {
    /// The same again.
    pub fn clone(&self) -> Result<AttrInput, AllocError>
        ensures value { IfOk result (λ i. input_view i ≡ input_view self.now) }
    {
        match self {
            AttrInput::Literal(text) => Ok(AttrInput::Literal(text.clone()?)),
            AttrInput::TokenTree(tree) => Ok(AttrInput::TokenTree(tree.clone()?)),
        }
    }
}

impl TokenTree {
    /// The same again.
    pub fn clone(&self) -> Result<TokenTree, AllocError>
        ensures value { IfOk result (λ t. token_tree_view t ≡ token_tree_view self.now) }
    {
        match self {
            TokenTree::Paths(paths) => {
                let mut copies = Vec::new(*paths.allocator());
                push_paths(&mut copies, paths)?;
                Ok(TokenTree::Paths(copies))
            }
            TokenTree::Tokens(text) => Ok(TokenTree::Tokens(text.clone()?)),
            TokenTree::Derive { name, helpers } => {
                let mut copies = Vec::new(*helpers.allocator());
                push_names(&mut copies, helpers)?;
                Ok(TokenTree::Derive {
                    name: name.clone()?,
                    helpers: copies,
                })
            }
        }
    }
}

impl RawAttr {
    /// How many attributes there are in the attribute, itself included; `u32::MAX` where there are more.
    #[cycle(count)]
    pub fn count(&self) -> u32
        ensures value { result ≡ count_of (attribute_size (attribute_view self.now)) }
    {
        match self {
            RawAttr::Meta(_) | RawAttr::Cfg(_) => 1,
            RawAttr::CfgAttr { attrs, .. } => place_after(count_list(attrs), 1),
        }
    }
}

#[cycle(count)]
fn count_list(attrs: &Vec<RawAttr>) -> u32
    ensures value { result ≡ count_of (attributes_size (attributes_view attrs.now.items)) }
{
    let mut count = 0;
    for attr in attrs {
        count = place_after(count, attr.count());
    }
    count
}

fn push_paths(out: &mut Vec<ModPath>, more: &[ModPath]) -> Result<(), AllocError>
    ensures ok { OnOk result (out.new.items ≡ out.old.items ++ more.now) }
{
    for path in more {
        out.push(path.clone()?)?;
    }
    Ok(())
}

/// Adds names at the end of a list.
pub fn push_names(out: &mut Vec<Name>, more: &[Name]) -> Result<(), AllocError>
    ensures ok { OnOk result (out.new.items ≡ out.old.items ++ more.now) }
{
    for name in more {
        out.push(name.clone()?)?;
    }
    Ok(())
}
