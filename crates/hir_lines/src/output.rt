// Writing a reply.
ghost use Rattle.std.specs.Prelude.{◌≡◌, ◌++◌, ◌∷◌, [], OnOk, IfErr};
ghost use Rattle.std.specs.Io.KnownBytes.{Appends};
ghost use Rattle.hir_wire.specs.Replies.{text_of};
ghost use Rattle.hir_messages.specs.declared.reply.Reply.TheVariants as reply;
ghost use Rattle.hir_lines.specs.Output.{WritesPart, WritesReply, WritesReplyPart};

use hir_wire::{Reply, fixed_text, reply_text};
use std::alloc::Global;
use std::io::Write;
use thiserror::Error;

/// What ended a run early.
#[derive(Clone, Copy, Debug, Drop, PartialEq, Eq, Error)]
pub enum Fault {
    /// A read failed, or there were too many of them.
    #[error("read fault")]
    ReadFault,
    /// A write failed, or took nothing.
    #[error("write fault")]
    WriteFault,
}

/// Writes all of the bytes, by as many calls as it takes. A call that takes nothing is a fault.
pub fn send<W: Write>(writer: &mut W, bytes: &[u8]) -> Result<(), Fault>
    ensures ok { OnOk result (Appends (W.contents writer.old) (W.contents writer.new) bytes.now) }
    ensures err { IfErr result (λ e. (e ≡ Fault.WriteFault)
        × WritesPart (W.contents writer.old) (W.contents writer.new) bytes.now) }
{
    let mut rest = bytes;
    while !rest.is_empty() {
        match writer.write(rest) {
            Ok(n) => {
                if n == 0 {
                    return Err(Fault::WriteFault);
                }
                rest = &rest[n..];
            }
            Err(_) => return Err(Fault::WriteFault),
        }
    }
    Ok(())
}

/// Writes a line and its end.
pub fn write_line<W: Write>(writer: &mut W, text: &[u8]) -> Result<(), Fault>
    ensures ok { OnOk result
        (Appends (W.contents writer.old) (W.contents writer.new) (text.now ++ 10 ∷ [])) }
    ensures err { IfErr result (λ e. (e ≡ Fault.WriteFault)
        × WritesPart (W.contents writer.old) (W.contents writer.new) (text.now ++ 10 ∷ [])) }
{
    match send(writer, text) {
        Ok(()) => send(writer, b"\n"),
        Err(fault) => Err(fault),
    }
}

/// Writes a reply and its line end.
///
/// A reply whose text finds no memory is told as want of memory.
pub fn write_reply<W: Write>(alloc: Global, reply: &Reply, writer: &mut W) -> Result<(), Fault>
    ensures ok { OnOk result
        (WritesReply (W.contents writer.old) (W.contents writer.new) reply.now) }
    ensures err { IfErr result (λ e. (e ≡ Fault.WriteFault)
        × WritesReplyPart (W.contents writer.old) (W.contents writer.new) reply.now) }
{
    if let Some(text) = fixed_text(reply) {
        return write_line(writer, text.as_bytes());
    }
    match reply_text(alloc, reply) {
        Ok(text) => write_line(writer, text.as_bytes()),
        Err(_) => write_line(writer, memory_text().as_bytes()),
    }
}

/// The text of the reply that there was no memory.
fn memory_text() -> &'static str
    ensures value { result.now ≡ text_of reply.Memory }
{
    fixed_text(&Reply::Memory).unwrap()
}
