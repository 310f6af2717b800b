//! The imports of a use tree, one by one, after rust-analyzer's `UseTree::expand`.
//!
//! Each leaf is handed out as it is met, and only the lists that are open are remembered. A tree of many lists with long
//! paths would take many times its size if the whole paths of all its leaves were there at once: so a leaf has its own
//! part, and shares what stands before it with those beside it.
ghost use Rattle.std.specs.Prelude.{◌≡◌, ℕ, ◌++◌, ◌+◌, ◌*◌, ◌<◌, ◌≤◌, ◌∷◌, [], IfOk, OnOk, OnErr, MatchOption};
ghost use Rattle.std.specs.Option.{option_copied, option_to_list};
ghost use Rattle.hir_use_tree.specs.Calls.{HandsOut, HandsOutPartly};
ghost use Rattle.hir_use_tree.specs.Imports.{imports_of, imports_at, single_imports, glob_imports, joined_glob};
ghost use Rattle.hir_use_tree.specs.Inner.Leaves.{level_imports, pending, step_imports, level_weight, weight, step_weight};
ghost use Rattle.hir_use_tree.specs.SharedPath.{path_before};
ghost use Rattle.hir_use_tree.specs.UseTree.{use_tree_view, tree_size};

use crate::imports::{Import, ImportAlias, ImportKind};
use crate::joined_path::{JoinedPath, join_path};
use crate::shared_path::{Prefix, SharedPath, behind};
use crate::use_tree::{UseTree, UseTreeKind, place_after};
use hir_base::mod_path::ModPath;
use std::alloc::{AllocError, Global};
use std::collections::VecDeque;
use std::rc::Rc;

/// A list that is open: its trees that are left, the place of the first of them, and the path before them.
#[derive(Drop)]
struct Level<'a> {
    trees: &'a [UseTree],
    place: u32,
    prefix: Option<Rc<Prefix>>,
}

/// What a tree is.
#[derive(Drop)]
enum Step<'a> {
    /// It imports nothing.
    Nothing,
    Leaf(Import),
    List(Level<'a>),
}

impl UseTree {
    /// Calls back once for each import, in the order of the leaves, with the place of its leaf in the tree's preorder,
    /// its whole path, what it brings, and its alias. Where memory runs out, or the callback answers so, a beginning of
    /// the imports was handed out.
    pub fn expand<
        F: FnMut(u32, SharedPath, ImportKind, Option<ImportAlias>) -> Result<(), AllocError>,
    >(&self, alloc: Global, cb: &mut F) -> Result<(), AllocError>
        requires callable { F.IsAlwaysCallable cb.old }
        ensures ok { OnOk result (HandsOut F.step cb.old (imports_of (use_tree_view self.now)) cb.new) }
        ensures err { OnErr result (HandsOutPartly F.step cb.old (imports_of (use_tree_view self.now)) cb.new) }
    {
        let levels = opened(alloc, self)?;
        hand_out(alloc, levels, cb)
    }
}

// The lists that are open at the beginning.
fn opened(alloc: Global, tree: &UseTree) -> Result<VecDeque<Level<'_>>, AllocError>
    ensures value { IfOk result (λ levels. pending levels.items ≡ imports_of (use_tree_view tree.now)) }
{
    let mut levels = VecDeque::new(alloc);
    levels.push_front(Level {
        trees: std::slice::from_ref(tree),
        place: 0,
        prefix: None,
    })?;
    Ok(levels)
}

fn hand_out<F: FnMut(u32, SharedPath, ImportKind, Option<ImportAlias>) -> Result<(), AllocError>>(
    alloc: Global,
    mut levels: VecDeque<Level<'_>>,
    cb: &mut F,
) -> Result<(), AllocError>
    requires callable { F.IsAlwaysCallable cb.old }
    ensures ok { OnOk result (HandsOut F.step cb.old (pending levels.entry.items) cb.new) }
    ensures err { OnErr result (HandsOutPartly F.step cb.old (pending levels.entry.items) cb.new) }
{
    while let Some(import) = next_import(alloc, &mut levels)? {
        let Import {
            place,
            path,
            kind,
            alias,
        } = import;
        cb(place, path, kind, alias)?;
    }
    Ok(())
}

// Takes the next import.
fn next_import(
    alloc: Global,
    levels: &mut VecDeque<Level<'_>>,
) -> Result<Option<Import>, AllocError>
    ensures value { IfOk result (λ i. MatchOption i (pending levels.old.items ≡ [])
        (λ import. pending levels.old.items ≡ import ∷ pending levels.new.items)) }
    ensures fewer { IfOk result (λ i. MatchOption i (Unit {0}) (λ _. weight levels.new.items < weight levels.old.items)) }
{
    while let Some(level) = levels.pop_front() {
        if let Some(import) = advance(alloc, levels, level)? {
            return Ok(Some(import));
        }
    }
    Ok(None)
}

// Goes on in the innermost list, which was taken from the others: to its next tree, if there is one.
fn advance<'a>(
    alloc: Global,
    levels: &mut VecDeque<Level<'a>>,
    level: Level<'a>,
) -> Result<Option<Import>, AllocError>
    ensures value { IfOk result (λ i. option_to_list i ++ pending levels.new.items
        ≡ level_imports level.entry ++ pending levels.old.items) }
    ensures fewer { OnOk result (weight levels.new.items < level_weight level.entry + weight levels.old.items) }
{
    let Level {
        trees,
        place,
        prefix,
    } = level;
    let Some((tree, rest)) = trees.split_first() else {
        return Ok(None);
    };
    let step = step_of(alloc, place, prefix.as_ref(), tree)?;
    let place = place_after(place, tree.count());
    levels.push_front(Level {
        trees: rest,
        place,
        prefix,
    })?;
    enter(levels, step)
}

// Gives the import of a leaf, and opens a list.
fn enter<'a>(levels: &mut VecDeque<Level<'a>>, step: Step<'a>) -> Result<Option<Import>, AllocError>
    ensures value { IfOk result (λ i. option_to_list i ++ pending levels.new.items
        ≡ step_imports step.entry ++ pending levels.old.items) }
    ensures weight { OnOk result (weight levels.new.items ≤ step_weight step.entry + weight levels.old.items) }
{
    match step {
        Step::Nothing => Ok(None),
        Step::Leaf(import) => Ok(Some(import)),
        Step::List(level) => {
            levels.push_front(level)?;
            Ok(None)
        }
    }
}

// What a tree at a place is, behind a prefix.
fn step_of<'a>(
    alloc: Global,
    place: u32,
    prefix: Option<&Rc<Prefix>>,
    tree: &'a UseTree,
) -> Result<Step<'a>, AllocError>
    ensures value { IfOk result (λ s. step_imports s
        ≡ imports_at place (path_before (option_copied prefix.entry)) (use_tree_view tree.now)) }
    ensures fewer { IfOk result (λ s. step_weight s < 2 * tree_size (use_tree_view tree.now)) }
{
    match &tree.kind {
        UseTreeKind::Single { path, alias } => {
            let joined = join_path(alloc, prefix, path)?;
            single_step(place, joined, alias)
        }
        UseTreeKind::Glob { path } => {
            let joined = glob_path(alloc, prefix, path)?;
            Ok(glob_step(place, joined))
        }
        UseTreeKind::Prefixed { prefix: None, list } => {
            let prefix = share(prefix)?;
            Ok(Step::List(Level {
                trees: list.as_slice(),
                place: place_after(place, 1),
                prefix,
            }))
        }
        UseTreeKind::Prefixed {
            prefix: Some(path),
            list,
        } => match join_path(alloc, prefix, path)? {
            JoinedPath::Whole(path) => Ok(Step::List(Level {
                trees: list.as_slice(),
                place: place_after(place, 1),
                prefix: Some(Prefix::new(alloc, path)?),
            })),
            JoinedPath::Nothing | JoinedPath::Itself(_) => Ok(Step::Nothing),
        },
    }
}

// The same prefix, without a copy.
fn share(prefix: Option<&Rc<Prefix>>) -> Result<Option<Rc<Prefix>>, AllocError>
    ensures value { IfOk result (λ p. path_before p ≡ path_before (option_copied prefix.entry)) }
{
    match prefix {
        Some(prefix) => Ok(Some(prefix.clone()?)),
        None => Ok(None),
    }
}

// The import of one path, where it has one.
fn single_step<'a>(
    place: u32,
    joined: JoinedPath,
    alias: &Option<ImportAlias>,
) -> Result<Step<'a>, AllocError>
    ensures value { IfOk result (λ s. step_imports s ≡ single_imports place joined alias.now) }
    ensures weight { IfOk result (λ s. step_weight s ≡ 0) }
{
    let (path, kind) = match joined {
        JoinedPath::Nothing => return Ok(Step::Nothing),
        JoinedPath::Whole(path) => (path, ImportKind::Plain),
        JoinedPath::Itself(path) => (path, ImportKind::TypeOnly),
    };
    let alias = match alias {
        Some(alias) => Some(alias.clone()?),
        None => None,
    };
    Ok(Step::Leaf(Import {
        place,
        path,
        kind,
        alias,
    }))
}

// The path of all names: its own, or the prefix.
fn glob_path(
    alloc: Global,
    prefix: Option<&Rc<Prefix>>,
    path: &Option<ModPath>,
) -> Result<JoinedPath, AllocError>
    ensures value { IfOk result (λ j. (place : ℕ) → joined_glob place j
        ≡ glob_imports place (path_before (option_copied prefix.entry)) path.now) }
{
    match (path, prefix) {
        (Some(path), _) => join_path(alloc, prefix, path),
        (None, Some(prefix)) => Ok(JoinedPath::Itself(behind(alloc, prefix, &[])?)),
        (None, None) => Ok(JoinedPath::Nothing),
    }
}

// The import of all names, where it has a path.
fn glob_step<'a>(place: u32, joined: JoinedPath) -> Step<'a>
    ensures value { step_imports result ≡ joined_glob place joined }
    ensures weight { step_weight result ≡ 0 }
{
    match joined {
        JoinedPath::Nothing => Step::Nothing,
        JoinedPath::Whole(path) | JoinedPath::Itself(path) => Step::Leaf(Import {
            place,
            path,
            kind: ImportKind::Glob,
            alias: None,
        }),
    }
}
