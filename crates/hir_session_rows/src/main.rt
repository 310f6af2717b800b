//! Serves the sessions of standard input, one after another, and writes what they answer.
//!
//! A line that begins with `# ` is a label: it is written again, and the lines below it, up to the
//! next label, are a session of their own.
#![tactic(auto)]

ghost use Rattle.std.specs.Prelude.{◌≡◌, ◌++◌, ◌<◌, length};

use hir_session::{Fault, run};
use memchr::{memchr, memmem};
use std::alloc::Global;
use std::io;
use std::io::{Read, Write};
use std::process::ExitCode;

/// The first session with its label, and what follows them.
fn split_session(bytes: &[u8]) -> (&[u8], &[u8])
    ensures whole { bytes.now ≡ result.0.now ++ result.1.now }
    ensures fewer { 0 < length bytes.now → length result.1.now < length bytes.now }
{
    match memmem::find(bytes, b"\n# ") {
        Some(end) => bytes.split_at(end + 1),
        None => bytes.split_at(bytes.len()),
    }
}

/// The first line with its end, and what follows it.
fn split_line(bytes: &[u8]) -> (&[u8], &[u8])
    ensures whole { bytes.now ≡ result.0.now ++ result.1.now }
{
    match memchr(b'\n', bytes) {
        Some(end) => bytes.split_at(end + 1),
        None => bytes.split_at(bytes.len()),
    }
}

/// Writes the label of a session, and a reply for each of its lines.
fn serve<W: Write>(alloc: Global, session: &[u8], writer: &mut W) -> Result<(), Fault> {
    let (label, lines) = split_line(session);
    if writer.write_all(label).is_err() {
        return Err(Fault::WriteFault);
    }
    let mut reader = lines;
    run(alloc, &mut reader, writer)
}

/// Serves each session.
fn serve_all<W: Write>(alloc: Global, input: &[u8], writer: &mut W) -> Result<(), Fault> {
    let mut rest = input;
    'next: while !rest.is_empty() {
        let (session, more) = split_session(rest);
        serve(alloc, session, writer)?;
        rest = more;
    }
    Ok(())
}

fn main(rt: HostRuntime) -> ExitCode {
    let mut input = Vec::new(rt.alloc());
    if rt.reader().read_to_end(&mut input).is_err() {
        return ExitCode::FAILURE;
    }
    match serve_all(rt.alloc(), input.as_slice(), &mut io::writer(&rt)) {
        Ok(()) => ExitCode::SUCCESS,
        Err(_) => ExitCode::FAILURE,
    }
}
