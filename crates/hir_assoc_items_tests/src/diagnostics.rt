//! What is told beside a list.

use crate::readers::{CALLS, MODULE};
use hir_map_parts::diagnostics::{DefDiagnostic, DefDiagnostics};
use std::alloc::Global;
use std::process::Abort;
use std::test::Fail;

/// One for each call.
fn told(alloc: Global) -> Result<DefDiagnostics, Fail> {
    let mut diagnostics = Vec::new(alloc);
    for (node, _) in CALLS {
        diagnostics.push(DefDiagnostic::unimplemented_builtin_macro(MODULE, node))?;
    }
    Ok(DefDiagnostics::new(diagnostics))
}

fn are_told(rt: &impl Abort, diagnostics: &DefDiagnostics) -> Result<(), Fail> {
    let mut found = diagnostics.iter();
    for (node, _) in CALLS {
        let diagnostic = found.next().ok_or("another diagnostic")?;
        assert!(rt; diagnostic.in_module == MODULE);
        assert!(rt; diagnostic.kind.ast_id() == node);
    }
    assert!(rt; found.next().is_none());
    Ok(())
}

/// Diagnostics are walked in the order in which they were handed in.
#[test]
fn in_their_order(rt: HostRuntime) -> Result<(), Fail> {
    let diagnostics = told(rt.alloc())?;
    are_told(&rt, &diagnostics)
}
