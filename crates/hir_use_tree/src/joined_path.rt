//! Paths of a use tree behind the paths that stand before them, after rust-analyzer's `concat_mod_paths`.
ghost use Rattle.std.specs.Prelude.{◌≡◌, ◌++◌, IfOk, OnOk};
ghost use Rattle.std.specs.Option.{option_copied};
ghost use Rattle.hir_use_tree.specs.Imports.{joined_path, rooted_behind};
ghost use Rattle.hir_use_tree.specs.SharedPath.{path_before};

use crate::shared_path::{Prefix, SharedPath, behind};
use hir_base::mod_path::{ModPath, PathKind};
use hir_base::name::Name;
use smallvec::SmallVec;
use std::alloc::{AllocError, Global};
use std::rc::Rc;

/// A path behind a prefix.
#[derive(Drop)]
pub enum JoinedPath {
    /// The path can't stand there.
    Nothing,
    /// The whole path.
    Whole(SharedPath),
    /// The prefix, which `self` names.
    Itself(SharedPath),
}

/// A path as it goes on behind a prefix, or as it is written where there is none.
pub fn join_path(
    alloc: Global,
    prefix: Option<&Rc<Prefix>>,
    path: &ModPath,
) -> Result<JoinedPath, AllocError>
    ensures value { IfOk result (λ j. j ≡ joined_path (path_before (option_copied prefix.entry)) path.now) }
{
    match prefix {
        None => Ok(JoinedPath::Whole(SharedPath::alone(path.clone()?))),
        Some(prefix) => join_behind(alloc, prefix, path),
    }
}

fn join_behind(alloc: Global, prefix: &Rc<Prefix>, path: &ModPath) -> Result<JoinedPath, AllocError>
    ensures value { IfOk result (λ j. j ≡ rooted_behind prefix.now.value path.now.kind path.now.segments) }
{
    match path.kind() {
        PathKind::Plain => Ok(JoinedPath::Whole(behind(alloc, prefix, path.segments())?)),
        PathKind::Super(0) if path.segments().is_empty() => {
            Ok(JoinedPath::Itself(behind(alloc, prefix, &[])?))
        }
        PathKind::Super(0) => Ok(JoinedPath::Nothing),
        PathKind::Super(more) => match prefix.kind() {
            PathKind::Super(levels) if prefix.is_empty() => {
                match levels.checked_add(more) {
                    Some(levels) => {
                        let mut segments = SmallVec::new(alloc);
                        push_names(&mut segments, path.segments())?;
                        Ok(JoinedPath::Whole(SharedPath::alone(ModPath::from_segments(
                            PathKind::Super(levels),
                            segments,
                        ))))
                    }
                    None => Ok(JoinedPath::Nothing),
                }
            }
            _ => Ok(JoinedPath::Nothing),
        },
        PathKind::Crate | PathKind::Abs | PathKind::DollarCrate(_) => Ok(JoinedPath::Nothing),
    }
}

/// Adds copies of names; no text is copied.
pub(crate) fn push_names(out: &mut SmallVec<Name, 1>, more: &[Name]) -> Result<(), AllocError>
    ensures ok { OnOk result (out.new.items ≡ out.old.items ++ more.now) }
{
    for name in more {
        out.push(name.clone()?)?;
    }
    Ok(())
}
