//! Serves one session: reads commands from standard input, and writes a reply for each.
#![tactic(auto)]

ghost use Rattle.std.specs.Prelude.{◌<◌, ◌^◌};

mod limits;

use hir_session::{Fault, run};
use limits::{OutputFile, stack_limit};
use std::alloc::Allocator;
use std::fs::Files;
use std::io::{self, Eprint, ErrorKind, Print, Write};
use std::process::ExitCode;
use std::rt::Env;

/// More stack than a session takes (docs/RELIABILITY.md).
const STACK: usize = 1 << 20;

/// Whether the stack may become so large, and there is memory for it: as much is allocated, and given back.
fn has_room<A: Allocator + Drop>(alloc: A, files: &impl Files) -> bool {
    let may_grow = match stack_limit(files) {
        Some(limit) => limit / 2 >= STACK as u64,
        None => true,
    };
    may_grow && Vec::<u8, A>::with_capacity(alloc, STACK).is_ok()
}

/// Makes the stack grow by an array, before the heap takes the room: the system is asked to read an argument into it that isn't there.
/// In the frame of its caller the array would take that room for good.
#[inline(never)]
fn reserve<const SIZE: usize>(rt: &impl Env)
    requires { SIZE < 2 ^ 63 }
{
    let mut room = [0; SIZE];
    let _ = rt.arg(usize::MAX, &mut room);
}

/// Standard output, a write to which fails where the file is at the limit of its size.
#[derive(Drop)]
struct Output<'a, R> {
    rt: &'a R,
    file: OutputFile,
}

impl<R: Files + Print> Write for Output<'_, R> {
    fn write(&mut self, buf: &[u8]) -> io::Result<usize> {
        if self.file.is_full(self.rt) {
            return Err(io::Error::from(ErrorKind::FileTooLarge));
        }
        self.rt.write_some(buf)
    }

    fn flush(&mut self) -> io::Result<()> {
        Ok(())
    }
}

fn end_with<R: Files + Eprint>(rt: &R, words: &str) -> ExitCode {
    if !OutputFile::standard_error(rt).is_full(rt) {
        let _ = rt.eprintln(words);
    }
    ExitCode::FAILURE
}

fn main(rt: HostRuntime) -> ExitCode {
    if !has_room(rt.alloc(), &rt) {
        return end_with(&rt, "stack fault");
    }
    reserve::<STACK>(&rt);
    let mut reader = rt.reader();
    let file = OutputFile::standard_output(&rt);
    let mut writer = Output { rt: &rt, file };
    match run(rt.alloc(), &mut reader, &mut writer) {
        Ok(()) => ExitCode::SUCCESS,
        Err(Fault::ReadFault) => end_with(&rt, "read fault"),
        Err(Fault::WriteFault) => end_with(&rt, "write fault"),
    }
}
