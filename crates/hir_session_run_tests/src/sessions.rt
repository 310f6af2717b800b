//! A session over lines, and its replies.

use hir_session::run;
use std::alloc::Global;
use std::process::Abort;
use std::test::Fail;

/// Runs a session over the lines, and compares the replies with those that are wanted.
pub fn converse(
    rt: &impl Abort,
    alloc: Global,
    label: &str,
    lines: &str,
    replies: &str,
) -> Result<(), Fail> {
    let mut reader = lines.as_bytes();
    let mut taken = Vec::new(alloc);
    run(alloc, &mut reader, &mut taken)?;
    let written = String::from_utf8(taken)?;
    assert!(rt; written.as_str() == replies, "{label}");
    Ok(())
}
