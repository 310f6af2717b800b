//! The kinds of items one by one, after rust-analyzer's `ItemTreeNode`.
use crate::kinds::{
    Const, Enum, ExternBlock, ExternCrate, Function, Impl, Macro2, MacroCall, MacroRules, Mod,
    ModItemKind, Static, Struct, Trait, TypeAlias, Union, Use,
};

/// A kind of item, as a tree lends it.
pub trait ItemTreeNode<'a> {
    ghost use Rattle.std.specs.Prelude.{◌≡◌, ◌↔◌, IfSome, IsSome};
    ghost use Rattle.hir_ids.specs.declared.ast_id.AstKind.{AstKind};
    ghost use Rattle.hir_item_tree.specs.declared.kinds.ModItemKind.{ModItemKind};
    ghost use Rattle.hir_item_tree.specs.Kinds.{kind_of};

    /// The kind of its nodes.
    ghost node_kind: { AstKind };

    /// It as one of all kinds.
    ghost as_kind: { Self → ModItemKind };

    /// The item, where it is of this kind.
    fn from_kind(kind: ModItemKind<'a>) -> Option<Self>
        ensures found { IfSome result (λ node. as_kind node ≡ kind.entry) }
        ensures exact { IsSome result ↔ (kind_of kind.entry ≡ node_kind) };
}

impl<'a> ItemTreeNode<'a> for Use<'a> {
    ghost use Rattle.hir_ids.specs.declared.ast_id.AstKind.TheVariants as nodes;
    ghost use Rattle.hir_item_tree.specs.declared.kinds.ModItemKind.TheVariants as kinds;

    ghost node_kind = { nodes.Use };

    ghost as_kind = { kinds.Use };

    fn from_kind(kind: ModItemKind<'a>) -> Option<Use<'a>> {
        match kind {
            ModItemKind::Use(node) => Some(node),
            _ => None,
        }
    }
}

impl<'a> ItemTreeNode<'a> for ExternCrate<'a> {
    ghost use Rattle.hir_ids.specs.declared.ast_id.AstKind.TheVariants as nodes;
    ghost use Rattle.hir_item_tree.specs.declared.kinds.ModItemKind.TheVariants as kinds;

    ghost node_kind = { nodes.ExternCrate };

    ghost as_kind = { kinds.ExternCrate };

    fn from_kind(kind: ModItemKind<'a>) -> Option<ExternCrate<'a>> {
        match kind {
            ModItemKind::ExternCrate(node) => Some(node),
            _ => None,
        }
    }
}

impl<'a> ItemTreeNode<'a> for ExternBlock<'a> {
    ghost use Rattle.hir_ids.specs.declared.ast_id.AstKind.TheVariants as nodes;
    ghost use Rattle.hir_item_tree.specs.declared.kinds.ModItemKind.TheVariants as kinds;

    ghost node_kind = { nodes.ExternBlock };

    ghost as_kind = { kinds.ExternBlock };

    fn from_kind(kind: ModItemKind<'a>) -> Option<ExternBlock<'a>> {
        match kind {
            ModItemKind::ExternBlock(node) => Some(node),
            _ => None,
        }
    }
}

impl<'a> ItemTreeNode<'a> for Function<'a> {
    ghost use Rattle.hir_ids.specs.declared.ast_id.AstKind.TheVariants as nodes;
    ghost use Rattle.hir_item_tree.specs.declared.kinds.ModItemKind.TheVariants as kinds;

    ghost node_kind = { nodes.Fn };

    ghost as_kind = { kinds.Function };

    fn from_kind(kind: ModItemKind<'a>) -> Option<Function<'a>> {
        match kind {
            ModItemKind::Function(node) => Some(node),
            _ => None,
        }
    }
}

impl<'a> ItemTreeNode<'a> for Struct<'a> {
    ghost use Rattle.hir_ids.specs.declared.ast_id.AstKind.TheVariants as nodes;
    ghost use Rattle.hir_item_tree.specs.declared.kinds.ModItemKind.TheVariants as kinds;

    ghost node_kind = { nodes.Struct };

    ghost as_kind = { kinds.Struct };

    fn from_kind(kind: ModItemKind<'a>) -> Option<Struct<'a>> {
        match kind {
            ModItemKind::Struct(node) => Some(node),
            _ => None,
        }
    }
}

impl<'a> ItemTreeNode<'a> for Union<'a> {
    ghost use Rattle.hir_ids.specs.declared.ast_id.AstKind.TheVariants as nodes;
    ghost use Rattle.hir_item_tree.specs.declared.kinds.ModItemKind.TheVariants as kinds;

    ghost node_kind = { nodes.Union };

    ghost as_kind = { kinds.Union };

    fn from_kind(kind: ModItemKind<'a>) -> Option<Union<'a>> {
        match kind {
            ModItemKind::Union(node) => Some(node),
            _ => None,
        }
    }
}

impl<'a> ItemTreeNode<'a> for Enum<'a> {
    ghost use Rattle.hir_ids.specs.declared.ast_id.AstKind.TheVariants as nodes;
    ghost use Rattle.hir_item_tree.specs.declared.kinds.ModItemKind.TheVariants as kinds;

    ghost node_kind = { nodes.Enum };

    ghost as_kind = { kinds.Enum };

    fn from_kind(kind: ModItemKind<'a>) -> Option<Enum<'a>> {
        match kind {
            ModItemKind::Enum(node) => Some(node),
            _ => None,
        }
    }
}

impl<'a> ItemTreeNode<'a> for Const<'a> {
    ghost use Rattle.hir_ids.specs.declared.ast_id.AstKind.TheVariants as nodes;
    ghost use Rattle.hir_item_tree.specs.declared.kinds.ModItemKind.TheVariants as kinds;

    ghost node_kind = { nodes.Const };

    ghost as_kind = { kinds.Const };

    fn from_kind(kind: ModItemKind<'a>) -> Option<Const<'a>> {
        match kind {
            ModItemKind::Const(node) => Some(node),
            _ => None,
        }
    }
}

impl<'a> ItemTreeNode<'a> for Static<'a> {
    ghost use Rattle.hir_ids.specs.declared.ast_id.AstKind.TheVariants as nodes;
    ghost use Rattle.hir_item_tree.specs.declared.kinds.ModItemKind.TheVariants as kinds;

    ghost node_kind = { nodes.Static };

    ghost as_kind = { kinds.Static };

    fn from_kind(kind: ModItemKind<'a>) -> Option<Static<'a>> {
        match kind {
            ModItemKind::Static(node) => Some(node),
            _ => None,
        }
    }
}

impl<'a> ItemTreeNode<'a> for Trait<'a> {
    ghost use Rattle.hir_ids.specs.declared.ast_id.AstKind.TheVariants as nodes;
    ghost use Rattle.hir_item_tree.specs.declared.kinds.ModItemKind.TheVariants as kinds;

    ghost node_kind = { nodes.Trait };

    ghost as_kind = { kinds.Trait };

    fn from_kind(kind: ModItemKind<'a>) -> Option<Trait<'a>> {
        match kind {
            ModItemKind::Trait(node) => Some(node),
            _ => None,
        }
    }
}

impl<'a> ItemTreeNode<'a> for Impl {
    ghost use Rattle.hir_ids.specs.declared.ast_id.AstKind.TheVariants as nodes;
    ghost use Rattle.hir_item_tree.specs.declared.kinds.ModItemKind.TheVariants as kinds;

    ghost node_kind = { nodes.Impl };

    ghost as_kind = { kinds.Impl };

    fn from_kind(kind: ModItemKind<'a>) -> Option<Impl> {
        match kind {
            ModItemKind::Impl(node) => Some(node),
            _ => None,
        }
    }
}

impl<'a> ItemTreeNode<'a> for TypeAlias<'a> {
    ghost use Rattle.hir_ids.specs.declared.ast_id.AstKind.TheVariants as nodes;
    ghost use Rattle.hir_item_tree.specs.declared.kinds.ModItemKind.TheVariants as kinds;

    ghost node_kind = { nodes.TypeAlias };

    ghost as_kind = { kinds.TypeAlias };

    fn from_kind(kind: ModItemKind<'a>) -> Option<TypeAlias<'a>> {
        match kind {
            ModItemKind::TypeAlias(node) => Some(node),
            _ => None,
        }
    }
}

impl<'a> ItemTreeNode<'a> for Mod<'a> {
    ghost use Rattle.hir_ids.specs.declared.ast_id.AstKind.TheVariants as nodes;
    ghost use Rattle.hir_item_tree.specs.declared.kinds.ModItemKind.TheVariants as kinds;

    ghost node_kind = { nodes.Module };

    ghost as_kind = { kinds.Mod };

    fn from_kind(kind: ModItemKind<'a>) -> Option<Mod<'a>> {
        match kind {
            ModItemKind::Mod(node) => Some(node),
            _ => None,
        }
    }
}

impl<'a> ItemTreeNode<'a> for MacroCall<'a> {
    ghost use Rattle.hir_ids.specs.declared.ast_id.AstKind.TheVariants as nodes;
    ghost use Rattle.hir_item_tree.specs.declared.kinds.ModItemKind.TheVariants as kinds;

    ghost node_kind = { nodes.MacroCall };

    ghost as_kind = { kinds.MacroCall };

    fn from_kind(kind: ModItemKind<'a>) -> Option<MacroCall<'a>> {
        match kind {
            ModItemKind::MacroCall(node) => Some(node),
            _ => None,
        }
    }
}

impl<'a> ItemTreeNode<'a> for MacroRules<'a> {
    ghost use Rattle.hir_ids.specs.declared.ast_id.AstKind.TheVariants as nodes;
    ghost use Rattle.hir_item_tree.specs.declared.kinds.ModItemKind.TheVariants as kinds;

    ghost node_kind = { nodes.MacroRules };

    ghost as_kind = { kinds.MacroRules };

    fn from_kind(kind: ModItemKind<'a>) -> Option<MacroRules<'a>> {
        match kind {
            ModItemKind::MacroRules(node) => Some(node),
            _ => None,
        }
    }
}

impl<'a> ItemTreeNode<'a> for Macro2<'a> {
    ghost use Rattle.hir_ids.specs.declared.ast_id.AstKind.TheVariants as nodes;
    ghost use Rattle.hir_item_tree.specs.declared.kinds.ModItemKind.TheVariants as kinds;

    ghost node_kind = { nodes.MacroDef };

    ghost as_kind = { kinds.Macro2 };

    fn from_kind(kind: ModItemKind<'a>) -> Option<Macro2<'a>> {
        match kind {
            ModItemKind::Macro2(node) => Some(node),
            _ => None,
        }
    }
}
