//! Bytes as they come, cut into lines, each answered by a session that runs the collector.
ghost use Rattle.hir_session_server.specs.Runs.{Converses};

use crate::collector::Collector;
use hir_session_machine::hir_lines::output::Fault;
use hir_session_server::server::run_by;
use std::alloc::Global;
use std::io::{Read, Write};

/// Reads lines, and writes a reply and a line end for each.
///
/// A line ends with `\n` or with the input. A line above the limit is skipped as it comes, and is
/// answered that it is too large; one that finds no memory is skipped and answered that.
pub fn run<R: Read, W: Write>(alloc: Global, reader: &mut R, writer: &mut W) -> Result<(), Fault>
    ensures converses { Converses result (R.remaining reader.old) (R.remaining reader.new)
        (W.contents writer.old) (W.contents writer.new) }
{
    run_by::<Collector, R, W>(alloc, reader, writer)
}
