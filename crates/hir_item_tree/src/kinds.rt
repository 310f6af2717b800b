//! The kinds of items as a tree lends them, after rust-analyzer's `ModItem` and its structs.
ghost use Rattle.std.specs.Prelude.{◌≡◌, IfSome, OnOk, OnErr};
ghost use Rattle.hir_item_tree.specs.Rows.{content_of};
ghost use Rattle.hir_item_tree.specs.Kinds.{kind_content, kind_visibility};
ghost use Rattle.hir_use_tree.specs.Calls.{HandsOut, HandsOutPartly};
ghost use Rattle.hir_use_tree.specs.Imports.{imports_of};
ghost use Rattle.hir_use_tree.specs.UseTree.{use_tree_view};

use crate::raw_visibility::RawVisibility;
use crate::rows::{ModItemId, Row, RowKind};
use crate::shape::{ExternCrateName, FieldsShape};
use hir_base::macro_kind::MacroExpander;
use hir_base::mod_path::ModPath;
use hir_base::name::Name;
use hir_use_tree::imports::{ImportAlias, ImportKind};
use hir_use_tree::shared_path::SharedPath;
use hir_use_tree::use_tree::UseTree;
use std::alloc::{AllocError, Global};

/// A visibility of a tree, by the number of the item that has it.
#[derive(Clone, Copy, Debug, PartialEq, Eq)]
pub struct RawVisibilityId(pub usize);

/// An item of a tree.
#[derive(Clone, Copy)]
pub enum ModItemKind<'a> {
    Use(Use<'a>),
    ExternCrate(ExternCrate<'a>),
    ExternBlock(ExternBlock<'a>),
    Function(Function<'a>),
    Struct(Struct<'a>),
    Union(Union<'a>),
    Enum(Enum<'a>),
    Const(Const<'a>),
    Static(Static<'a>),
    Trait(Trait<'a>),
    Impl(Impl),
    TypeAlias(TypeAlias<'a>),
    Mod(Mod<'a>),
    MacroCall(MacroCall<'a>),
    MacroRules(MacroRules<'a>),
    Macro2(Macro2<'a>),
}

/// A `use` item.
#[derive(Clone, Copy)]
pub struct Use<'a> {
    pub visibility: RawVisibilityId,
    pub use_tree: &'a UseTree,
}

impl Use<'_> {
    /// Hands out the imports of the item; see `UseTree::expand`.
    pub fn expand<
        F: FnMut(u32, SharedPath, ImportKind, Option<ImportAlias>) -> Result<(), AllocError>,
    >(&self, alloc: Global, cb: &mut F) -> Result<(), AllocError>
        requires callable { F.IsAlwaysCallable cb.old }
        ensures ok { OnOk result (HandsOut F.step cb.old (imports_of (use_tree_view self.now.use_tree.now)) cb.new) }
        ensures err { OnErr result (HandsOutPartly F.step cb.old (imports_of (use_tree_view self.now.use_tree.now)) cb.new) }
    {
        self.use_tree.expand(alloc, cb)
    }
}

/// An `extern crate` item.
#[derive(Clone, Copy)]
pub struct ExternCrate<'a> {
    pub name: &'a ExternCrateName,
    pub alias: &'a Option<ImportAlias>,
    pub visibility: RawVisibilityId,
}

/// An extern block.
#[derive(Clone, Copy)]
pub struct ExternBlock<'a> {
    pub children: &'a [ModItemId],
}

/// A function.
#[derive(Clone, Copy)]
pub struct Function<'a> {
    pub name: &'a Name,
    pub visibility: RawVisibilityId,
}

/// A struct. Its constructor has to meet its own visibility and its fields'.
#[derive(Clone, Copy)]
pub struct Struct<'a> {
    pub name: &'a Name,
    pub visibility: RawVisibilityId,
    pub shape: FieldsShape,
    pub fields: &'a [RawVisibility],
}

/// A union.
#[derive(Clone, Copy)]
pub struct Union<'a> {
    pub name: &'a Name,
    pub visibility: RawVisibilityId,
    pub fields: &'a [RawVisibility],
}

/// An enum, without its variants.
#[derive(Clone, Copy)]
pub struct Enum<'a> {
    pub name: &'a Name,
    pub visibility: RawVisibilityId,
}

/// A constant.
#[derive(Clone, Copy)]
pub struct Const<'a> {
    /// None for `const _`.
    pub name: &'a Option<Name>,
    pub visibility: RawVisibilityId,
}

/// A static.
#[derive(Clone, Copy)]
pub struct Static<'a> {
    pub name: &'a Name,
    pub visibility: RawVisibilityId,
}

/// A trait, without its items.
#[derive(Clone, Copy)]
pub struct Trait<'a> {
    pub name: &'a Name,
    pub visibility: RawVisibilityId,
}

/// An impl, without its items.
#[derive(Clone, Copy)]
pub struct Impl {
    /// Whether it is an impl of a trait.
    pub of_trait: bool,
}

/// A type alias.
#[derive(Clone, Copy)]
pub struct TypeAlias<'a> {
    pub name: &'a Name,
    pub visibility: RawVisibilityId,
}

/// A module.
#[derive(Clone, Copy)]
pub struct Mod<'a> {
    pub name: &'a Name,
    pub visibility: RawVisibilityId,
    pub kind: ModKind<'a>,
}

/// Where a module's items are.
#[derive(Clone, Copy)]
pub enum ModKind<'a> {
    /// `mod m { .. }`.
    Inline { items: &'a [ModItemId] },
    /// `mod m;`.
    Outline,
}

/// A macro call.
#[derive(Clone, Copy)]
pub struct MacroCall<'a> {
    pub path: &'a ModPath,
}

/// A `macro_rules!` macro, without its text.
#[derive(Clone, Copy)]
pub struct MacroRules<'a> {
    pub name: &'a Name,
    pub expander: MacroExpander,
    pub helpers: &'a [Name],
}

/// A `macro` item, without its text.
#[derive(Clone, Copy)]
pub struct Macro2<'a> {
    pub name: &'a Name,
    pub visibility: RawVisibilityId,
    pub expander: MacroExpander,
    pub helpers: &'a [Name],
}

/// The kind of a row, with this visibility where it has one.
pub fn kind_of_row(row: &Row, visibility: RawVisibilityId) -> ModItemKind<'_>
    ensures content { kind_content result ≡ content_of row.now.kind }
    ensures visibility { IfSome (kind_visibility result) (λ v. v ≡ visibility) }
{
    match &row.kind {
        RowKind::Use { use_tree } => ModItemKind::Use(Use {
            visibility,
            use_tree,
        }),
        RowKind::ExternCrate { name, alias } => ModItemKind::ExternCrate(ExternCrate {
            name,
            alias,
            visibility,
        }),
        RowKind::ExternBlock { children } => ModItemKind::ExternBlock(ExternBlock { children }),
        RowKind::Function { name } => ModItemKind::Function(Function { name, visibility }),
        RowKind::Struct {
            name,
            shape,
            fields,
        } => ModItemKind::Struct(Struct {
            name,
            visibility,
            shape: *shape,
            fields,
        }),
        RowKind::Union { name, fields } => ModItemKind::Union(Union {
            name,
            visibility,
            fields,
        }),
        RowKind::Enum { name } => ModItemKind::Enum(Enum { name, visibility }),
        RowKind::Const { name } => ModItemKind::Const(Const { name, visibility }),
        RowKind::Static { name } => ModItemKind::Static(Static { name, visibility }),
        RowKind::Trait { name } => ModItemKind::Trait(Trait { name, visibility }),
        RowKind::Impl { of_trait } => ModItemKind::Impl(Impl {
            of_trait: *of_trait,
        }),
        RowKind::TypeAlias { name } => ModItemKind::TypeAlias(TypeAlias { name, visibility }),
        RowKind::Mod { name, items } => ModItemKind::Mod(Mod {
            name,
            visibility,
            kind: ModKind::Inline { items },
        }),
        RowKind::OutlineMod { name } => ModItemKind::Mod(Mod {
            name,
            visibility,
            kind: ModKind::Outline,
        }),
        RowKind::MacroCall { path } => ModItemKind::MacroCall(MacroCall { path }),
        RowKind::MacroRules {
            name,
            expander,
            helpers,
        } => ModItemKind::MacroRules(MacroRules {
            name,
            expander: *expander,
            helpers,
        }),
        RowKind::Macro2 {
            name,
            expander,
            helpers,
        } => ModItemKind::Macro2(Macro2 {
            name,
            visibility,
            expander: *expander,
            helpers,
        }),
    }
}
