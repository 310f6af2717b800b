//! What the errors of sessions say.

use hir_base::ast_id::{AstKind, SyntaxId};
use hir_base::ids::Crate;
use hir_base::limit::Limit;
use hir_session_state::error::{
    EditError, ImplItemsError, ModulesError, NewSessionError, QueryError, RefreshError,
    TraitItemsError, TreeTextError,
};
use std::alloc::Global;
use std::fmt::Display;
use std::process::Abort;
use std::test::Fail;

/// Compares the text of an error with the one that is wanted.
fn says(rt: &impl Abort, alloc: Global, error: &impl Display, text: &str) -> Result<(), Fail> {
    let said = format!(in alloc; "{error}")?;
    assert_eq!(rt; said.as_str(), text);
    Ok(())
}

#[test]
fn errors_of_new_sessions_have_texts(rt: HostRuntime) -> Result<(), Fail> {
    let order = NewSessionError::DependencyOrder(Crate(3));
    let late = "crate 3 depends on one that doesn't come before it";
    says(&rt, rt.alloc(), &order, late)?;
    let many = NewSessionError::TooLarge(Limit::Crates);
    let long = "the number of crates is above the limit";
    says(&rt, rt.alloc(), &many, long)
}

#[test]
fn errors_of_edits_have_texts(rt: HostRuntime) -> Result<(), Fail> {
    let twice = EditError::DuplicateId {
        kind: AstKind::Fn,
        id: SyntaxId { hash: 7, index: 2 },
    };
    let repeated = "two nodes of kind Fn have the id [7, 2]";
    says(&rt, rt.alloc(), &twice, repeated)?;
    let modules = EditError::TooLarge(Limit::Modules);
    let deep = "the depth of modules is above the limit";
    says(&rt, rt.alloc(), &modules, deep)?;
    let order = EditError::DependencyOrder(Crate(3));
    let late = "crate 3 depends on one that doesn't come before it";
    says(&rt, rt.alloc(), &order, late)
}

#[test]
fn errors_of_queries_have_texts(rt: HostRuntime) -> Result<(), Fail> {
    let rows = [
        (
            QueryError::StalePlace,
            "what is kept of the place may be out of date",
        ),
        (
            QueryError::UnknownPlace,
            "there is no such crate, module or block",
        ),
        (QueryError::Memory, "out of memory"),
    ];
    for (error, text) in rows {
        says(&rt, rt.alloc(), &error, text)?;
    }
    Ok(())
}

#[test]
fn other_errors_have_texts(rt: HostRuntime) -> Result<(), Fail> {
    let many = "a run took more steps, or made more modules, than are counted";
    says(&rt, rt.alloc(), &RefreshError::TooMany, many)?;
    let absent = "there is no such crate";
    says(&rt, rt.alloc(), &TreeTextError::UnknownCrate, absent)?;
    let traitless = "the path names no trait";
    says(&rt, rt.alloc(), &TraitItemsError::NotATrait, traitless)?;
    let past = "the module has no impl of that number";
    says(&rt, rt.alloc(), &ImplItemsError::NoSuchImpl, past)?;
    says(&rt, rt.alloc(), &ModulesError::UnknownCrate, absent)?;
    let stale = "what is kept of the crate may be out of date";
    says(&rt, rt.alloc(), &ModulesError::StalePlace, stale)
}
