// Bytes as they come, cut into lines, each answered.
ghost use Rattle.hir_session_server.specs.Runs.{Converses};

use hir_base::limit::Limit;
use hir_session_machine::hir_lines::open_line::{Fate, OpenLine, split_line};
use hir_session_machine::hir_lines::output::{Fault, write_reply};
use hir_session_machine::hir_session_core::hir_session_invalidation::sources::CollectDefs;
use hir_session_machine::hir_wire::Reply;
use hir_session_machine::server_state::Machine;
use std::alloc::Global;
use std::io::{Read, Write};

/// After so many reads, a run ends as one that failed to read.
pub const MOST_READS: u64 = 4_294_967_296;

/// So many bytes are asked for at a read.
const READ_SIZE: usize = 65_536;

/// A machine, and the line that is being read.
#[derive(Drop)]
pub struct Server {
    machine: Machine,
    line: OpenLine,
}

impl Server {
    ghost use Rattle.std.specs.Prelude.{◌≡◌, ◌++◌, ◌∷◌, [], List, ℕ, false, OnOk, IfErr};
    ghost use Rattle.hir_session_machine.specs.HirWire.Replies.{is_fixed};
    ghost use Rattle.hir_session_machine.specs.HirMessages.declared.reply.Reply.TheVariants as reply;
    ghost use Rattle.hir_session_machine.specs.Machine.{first_state};
    ghost use Rattle.hir_session_machine.specs.HirLines.Lines.{HasNoEnd, cut_from, with_last};
    ghost use Rattle.hir_session_machine.specs.AnsweredLines.{AnswersInput};
    ghost use Rattle.hir_session_server.specs.Runs.{BrokenAt, Converses};
    ghost use Rattle.hir_session_server.specs.Serving.{Told, BreaksOff, Fed, Finished};
    ghost use Rattle.hir_session_machine.specs.HirLines.OpenLines.{Holds};

    pub fn new(alloc: Global) -> Server
        ensures open { Holds result.line [] }
        ensures first { result.machine ≡ first_state }
    {
        Server {
            machine: Machine::new(alloc),
            line: OpenLine::new(alloc),
        }
    }

    /// The line has ended, and is answered.
    fn answer<C: CollectDefs>(&mut self, alloc: Global) -> Reply
        ensures step { (line : List ℕ) → Holds self.old.line line
            → AnswersInput self.old.machine line result self.new.machine }
        ensures or_memory { (line : List ℕ) → Holds self.old.line line → is_fixed result ≡ false
            → AnswersInput self.old.machine line reply.Memory self.new.machine }
        ensures open { Holds self.new.line [] }
    {
        let reply = match self.line.fate {
            Fate::Kept => self
                .machine
                .answer_by::<C>(alloc, self.line.kept.as_slice()),
            Fate::Refused => Reply::Memory,
            Fate::TooLarge => Reply::TooLarge(Limit::Line),
        };
        self.line.clear();
        reply
    }

    /// Answers the line and writes the reply.
    fn tell<C: CollectDefs, W: Write>(&mut self, alloc: Global, writer: &mut W) -> Result<(), Fault>
        ensures ok { (line : List ℕ) → Holds self.old.line line → OnOk result
            (Told self.old line self.new (W.contents writer.old) (W.contents writer.new)) }
        ensures err { (line : List ℕ) → Holds self.old.line line → IfErr result
            (λ e. (e ≡ Fault.WriteFault)
            × BreaksOff self.old line (W.contents writer.old) (W.contents writer.new)) }
    {
        let reply = self.answer::<C>(alloc);
        let written = write_reply(alloc, &reply, writer);
        drop(reply);
        written
    }

    /// The last piece of a line, whose end follows.
    fn end_line<C: CollectDefs, W: Write>(
        &mut self,
        alloc: Global,
        piece: &[u8],
        writer: &mut W,
    ) -> Result<(), Fault>
        ensures ok { (part : List ℕ) → Holds self.old.line part → HasNoEnd piece.now → OnOk result
            (Fed self.old part (piece.now ++ 10 ∷ []) self.new
            (W.contents writer.old) (W.contents writer.new)) }
        ensures err { (part : List ℕ) → Holds self.old.line part → HasNoEnd piece.now → IfErr result
            (λ e. (e ≡ Fault.WriteFault)
            × BrokenAt self.old.machine (cut_from part (piece.now ++ 10 ∷ [])).0
            (W.contents writer.old) (W.contents writer.new)) }
    {
        self.line.extend(alloc, piece);
        self.tell::<C, W>(alloc, writer)
    }

    /// Some bytes of the input.
    pub fn feed<C: CollectDefs, W: Write>(
        &mut self,
        alloc: Global,
        bytes: &[u8],
        writer: &mut W,
    ) -> Result<(), Fault>
        ensures ok { (part : List ℕ) → Holds self.old.line part → OnOk result
            (Fed self.old part bytes.now self.new (W.contents writer.old) (W.contents writer.new)) }
        ensures err { (part : List ℕ) → Holds self.old.line part → IfErr result
            (λ e. (e ≡ Fault.WriteFault)
            × BrokenAt self.old.machine (cut_from part bytes.now).0
            (W.contents writer.old) (W.contents writer.new)) }
    {
        let mut rest = bytes;
        while let Some((line, more)) = split_line(rest) {
            match self.end_line::<C, W>(alloc, line, writer) {
                Ok(()) => {}
                Err(fault) => return Err(fault),
            }
            rest = more;
        }
        self.line.extend(alloc, rest);
        Ok(())
    }

    /// The input has ended: what is left of it is a line too.
    pub fn finish<C: CollectDefs, W: Write>(
        &mut self,
        alloc: Global,
        writer: &mut W,
    ) -> Result<(), Fault>
        ensures ok { (part : List ℕ) → Holds self.old.line part → OnOk result
            (Finished self.old.machine part (W.contents writer.old) (W.contents writer.new)) }
        ensures err { (part : List ℕ) → Holds self.old.line part → IfErr result
            (λ e. (e ≡ Fault.WriteFault) × BrokenAt self.old.machine (with_last [] part)
            (W.contents writer.old) (W.contents writer.new)) }
    {
        if self.line.is_started() {
            self.tell::<C, W>(alloc, writer)
        } else {
            Ok(())
        }
    }

    /// Reads lines until the input ends, and writes a reply for each.
    fn converse<C: CollectDefs, R: Read, W: Write>(
        &mut self,
        alloc: Global,
        reader: &mut R,
        writer: &mut W,
    ) -> Result<(), Fault>
        ensures converses { Holds self.old.line [] → self.old.machine ≡ first_state
            → Converses result (R.remaining reader.old) (R.remaining reader.new)
            (W.contents writer.old) (W.contents writer.new) }
    {
        let mut buffer = [0u8; READ_SIZE];
        for _turn in 0..MOST_READS {
            let count = match reader.read(&mut buffer) {
                Ok(count) => count,
                Err(_) => return Err(Fault::ReadFault),
            };
            if count == 0 {
                return self.finish::<C, W>(alloc, writer);
            }
            match self.feed::<C, W>(alloc, &buffer[..count], writer) {
                Ok(()) => {}
                Err(fault) => return Err(fault),
            }
        }
        Err(Fault::ReadFault)
    }
}

/// Reads lines, and writes a reply and a line end for each.
///
/// A line ends with `\n` or with the input. A line above the limit is skipped as it comes, and is
/// answered that it is too large; one that finds no memory is skipped and answered that.
pub fn run_by<C: CollectDefs, R: Read, W: Write>(
    alloc: Global,
    reader: &mut R,
    writer: &mut W,
) -> Result<(), Fault>
    ensures converses { Converses result (R.remaining reader.old) (R.remaining reader.new)
        (W.contents writer.old) (W.contents writer.new) }
{
    let mut server = Server::new(alloc);
    let ended = server.converse::<C, R, W>(alloc, reader, writer);
    drop(server);
    ended
}
