//! Balanced trees of macros that share their subtrees. What changes a tree copies the nodes above the change.
//!
//! Neither side of a node weighs more than three times the other, where a tree weighs one more than its macros.
ghost use Rattle.std.specs.Prelude.{◌≡◌, ◌+◌, [], ◌∷◌, ◌++◌, length, slice_get, IfOk, IfSome};
ghost use Rattle.std.specs.Option.{option_copied, option_eq};
ghost use Rattle.std.specs.Cmp.Lexicographic.{pointwise};
ghost use Rattle.hir_textual_scope.specs.Node.{macros_under, count_before, with_named, IsInOrder};
ghost use Rattle.hir_textual_scope.specs.Macros.{last_of};

use crate::textual_scope::TextualMacro;
use hir_ids::macro_kind::MacroId;
use hir_ids::name::Name;
use std::alloc::{AllocError, Global};
use std::cmp::Ordering;
use std::marker::Model;
use std::rc::Rc;

/// A macro, between those on its left and those on its right.
#[derive(Drop)]
pub(crate) struct Node {
    left: Link,
    entry: TextualMacro,
    right: Link,
    /// How many macros there are.
    len: usize,
}

/// A tree, which may have no node.
pub(crate) type Link = Option<Rc<Node>>;

impl Model for Node {
    ghost use Rattle.std.specs.Prelude.{◌≡◌, ◌∷◌, ◌++◌, List, length};
    ghost use Rattle.hir_textual_scope.specs.declared.textual_scope.TextualMacro.{TextualMacro};

    ghost Value = { List TextualMacro };

    ghost use Rattle.hir_textual_scope.specs.Node.{macros_under};

    ghost view = { λ n. macros_under n.left ++ n.entry ∷ macros_under n.right };

    ghost invariant = { λ n. n.len ≡ length (macros_under n.left ++ n.entry ∷ macros_under n.right) };

    ghost size = { length };

    ghost use Rattle.std.proofs.Common.{arith, length-append};

    ghost size_decreases = { λ n h. Prim.grind (arith, length-append) };
}

/// How many macros a tree has.
pub(crate) fn len(tree: &Link) -> usize
    ensures value { result ≡ length (macros_under tree.now) }
{
    match tree {
        Some(node) => {
            let node: &Node = &**node;
            node.len
        }
        None => 0,
    }
}

/// The same tree, without a copy.
pub(crate) fn share(tree: &Link) -> Result<Link, AllocError>
    ensures ok { IfOk result (λ copy. macros_under copy ≡ macros_under tree.now) }
{
    match tree {
        Some(node) => Ok(Some(node.clone()?)),
        None => Ok(None),
    }
}

/// How many macros a node would have, unless they are too many to be counted.
fn len_around(left: &Link, right: &Link) -> Option<usize>
    ensures value { IfSome result (λ len. len ≡ length (macros_under left.now) + length (macros_under right.now) + 1) }
{
    let sides = len(left).checked_add(len(right))?;
    sides.checked_add(1)
}

/// A macro between two trees.
fn fork(alloc: Global, left: Link, entry: TextualMacro, right: Link) -> Result<Rc<Node>, AllocError>
    ensures ok { IfOk result (λ node. node.value ≡ macros_under left ++ entry ∷ macros_under right) }
{
    let Some(len) = len_around(&left, &right) else {
        return Err(AllocError);
    };
    let node = Node {
        left,
        entry,
        right,
        len,
    };
    Ok(Rc::new(alloc, node)?)
}

/// Two macros with a tree between them.
fn parted(
    alloc: Global,
    left: Link,
    first: TextualMacro,
    middle: &Rc<Node>,
    last: TextualMacro,
    right: Link,
) -> Result<Rc<Node>, AllocError>
    ensures ok { IfOk result (λ node. node.value
        ≡ macros_under left ++ first ∷ (middle.now.value ++ last ∷ macros_under right)) }
{
    let middle: &Node = &**middle;
    let front = fork(alloc, left, first, share(&middle.left)?)?;
    let back = fork(alloc, share(&middle.right)?, last, right)?;
    fork(alloc, Some(front), middle.entry.clone()?, Some(back))
}

/// Whether a tree weighs more than three times another.
fn outweighs(tree: &Link, other: &Link) -> bool {
    len(tree).saturating_add(1) > len(other).saturating_add(1).saturating_mul(3)
}

/// Whether the inner side of a tree that outweighs its neighbour weighs so much that it has to be parted.
fn leans_inward(inner: &Link, outer: &Link) -> bool {
    len(inner).saturating_add(1) >= len(outer).saturating_add(1).saturating_mul(2)
}

/// A macro behind a tree that outweighs the one on the other side.
fn turned_right(
    alloc: Global,
    left: &Rc<Node>,
    entry: TextualMacro,
    right: Link,
) -> Result<Rc<Node>, AllocError>
    ensures ok { IfOk result (λ node. node.value ≡ left.now.value ++ entry ∷ macros_under right) }
{
    let left: &Node = &**left;
    if leans_inward(&left.right, &left.left) {
        if let Some(inner) = &left.right {
            return parted(
                alloc,
                share(&left.left)?,
                left.entry.clone()?,
                inner,
                entry,
                right,
            );
        }
    }
    let back = fork(alloc, share(&left.right)?, entry, right)?;
    fork(alloc, share(&left.left)?, left.entry.clone()?, Some(back))
}

/// A macro before a tree that outweighs the one on the other side.
fn turned_left(
    alloc: Global,
    left: Link,
    entry: TextualMacro,
    right: &Rc<Node>,
) -> Result<Rc<Node>, AllocError>
    ensures ok { IfOk result (λ node. node.value ≡ macros_under left ++ entry ∷ right.now.value) }
{
    let right: &Node = &**right;
    if leans_inward(&right.left, &right.right) {
        if let Some(inner) = &right.left {
            return parted(
                alloc,
                left,
                entry,
                inner,
                right.entry.clone()?,
                share(&right.right)?,
            );
        }
    }
    let front = fork(alloc, left, entry, share(&right.left)?)?;
    fork(
        alloc,
        Some(front),
        right.entry.clone()?,
        share(&right.right)?,
    )
}

/// A macro between two trees, one of which may have become too large by one macro.
fn balanced(
    alloc: Global,
    left: Link,
    entry: TextualMacro,
    right: Link,
) -> Result<Rc<Node>, AllocError>
    ensures ok { IfOk result (λ node. node.value ≡ macros_under left ++ entry ∷ macros_under right) }
{
    if outweighs(&left, &right) {
        if let Some(node) = &left {
            return turned_right(alloc, node, entry, right);
        }
    }
    if outweighs(&right, &left) {
        if let Some(node) = &right {
            return turned_left(alloc, left, entry, node);
        }
    }
    fork(alloc, left, entry, right)
}

/// A tree with one macro more, the last of its name.
pub(crate) fn with_named(
    alloc: Global,
    tree: &Link,
    new: TextualMacro,
) -> Result<Rc<Node>, AllocError>
    requires in_order { IsInOrder (macros_under tree.now) }
    ensures ok { IfOk result (λ node. node.value ≡ with_named (macros_under tree.now) new.name new.makro) }
{
    let Some(node) = tree else {
        return fork(alloc, None, new, None);
    };
    let node: &Node = &**node;
    if new.name < node.entry.name {
        let left = with_named(alloc, &node.left, new)?;
        balanced(alloc, Some(left), node.entry.clone()?, share(&node.right)?)
    } else {
        let right = with_named(alloc, &node.right, new)?;
        balanced(alloc, share(&node.left)?, node.entry.clone()?, Some(right))
    }
}

/// A tree with one macro more, the last of all.
pub(crate) fn with_last(
    alloc: Global,
    tree: &Link,
    new: TextualMacro,
) -> Result<Rc<Node>, AllocError>
    ensures ok { IfOk result (λ node. node.value ≡ macros_under tree.now ++ new ∷ []) }
{
    let Some(node) = tree else {
        return fork(alloc, None, new, None);
    };
    let node: &Node = &**node;
    let right = with_last(alloc, &node.right, new)?;
    balanced(alloc, share(&node.left)?, node.entry.clone()?, Some(right))
}

/// The last macro of a name.
pub(crate) fn last_of(tree: &Link, name: &Name) -> Option<MacroId>
    requires in_order { IsInOrder (macros_under tree.now) }
    ensures value { result ≡ last_of (macros_under tree.now) name.now }
{
    let Some(node) = tree else {
        return None;
    };
    let node: &Node = &**node;
    match name.cmp(&node.entry.name) {
        Ordering::Less => last_of(&node.left, name),
        Ordering::Equal => last_of(&node.right, name).or(Some(node.entry.makro)),
        Ordering::Greater => last_of(&node.right, name),
    }
}

/// How many macros have a name before this one.
pub(crate) fn count_before(tree: &Link, name: &Name) -> usize
    requires in_order { IsInOrder (macros_under tree.now) }
    ensures value { result ≡ count_before (macros_under tree.now) name.now }
{
    let Some(node) = tree else {
        return 0;
    };
    let node: &Node = &**node;
    if node.entry.name < *name {
        let before = node.len - len(&node.right);
        before + count_before(&node.right, name)
    } else {
        count_before(&node.left, name)
    }
}

/// The macro at a position, counted from the left.
pub(crate) fn get(tree: &Link, index: usize) -> Option<&TextualMacro>
    ensures value { option_copied result ≡ slice_get (macros_under tree.now) index }
{
    let Some(node) = tree else {
        return None;
    };
    let node: &Node = &**node;
    let before = len(&node.left);
    if index < before {
        get(&node.left, index)
    } else if index == before {
        Some(&node.entry)
    } else {
        get(&node.right, index - before - 1)
    }
}

/// Whether two trees have the same macro at a position, under the same name.
fn same_at(tree: &Link, other: &Link, index: usize) -> bool
    ensures value { result ≡ option_eq ⟦<TextualMacro as PartialEq>⟧.eq
        (slice_get (macros_under tree.now) index) (slice_get (macros_under other.now) index) }
{
    match get(tree, index) {
        Some(entry) => match get(other, index) {
            Some(beside) => *entry == *beside,
            None => false,
        },
        None => get(other, index).is_none(),
    }
}

/// Whether two trees have the same macros under the same names, in the same order.
pub(crate) fn same(tree: &Link, other: &Link) -> bool
    ensures value { result ≡ pointwise ⟦<TextualMacro as PartialEq>⟧.eq (macros_under tree.now) (macros_under other.now) }
{
    let count = len(tree);
    if count != len(other) {
        return false;
    }
    for i in 0..count {
        if !same_at(tree, other, i) {
            return false;
        }
    }
    true
}

/// Whether no path down a tree has more nodes than this.
#[cfg(test)]
pub(crate) fn is_within(depth: u32, tree: &Link) -> bool {
    let Some(node) = tree else {
        return true;
    };
    let node: &Node = &**node;
    if depth == 0 {
        return false;
    }
    is_within(depth - 1, &node.left) && is_within(depth - 1, &node.right)
}
