//! What answers lines, with the collector that refreshes its session.
ghost use Rattle.std.specs.Prelude.{◌≡◌, false};
ghost use Rattle.hir_session_machine.specs.HirWire.Replies.{is_fixed};
ghost use Rattle.hir_session_machine.specs.HirMessages.declared.reply.Reply.TheVariants as reply;
ghost use Rattle.hir_session_machine.specs.Machine.{first_state, AnswersLine};

use crate::collector::Collector;
use hir_session_machine::hir_wire::reply::Reply;
use hir_session_machine::server_state::Machine as MachineCore;
use std::alloc::Global;
use std::marker::Model;

/// A session, or none before the first that is made.
#[derive(Drop)]
pub struct Machine {
    core: MachineCore,
}

impl Model for Machine {
    ghost use Rattle.hir_session_machine.specs.Machine.{MachineState};
    ghost use Rattle.hir_session_machine.specs.MachineCodes.{coded_machine};

    ghost Value = { MachineState };

    ghost coded = { coded_machine };

    ghost view = { λ m. m.core };
}

impl Machine {
    /// Before the first line.
    pub fn new(alloc: Global) -> Machine
        ensures first { result ≡ first_state }
    {
        Machine {
            core: MachineCore::new(alloc),
        }
    }

    /// Answers one line.
    ///
    /// A reply whose text takes memory may be told as want of memory.
    pub fn answer(&mut self, alloc: Global, line: &[u8]) -> Reply
        ensures step { AnswersLine self.old line.now result self.new }
        ensures or_memory { is_fixed result ≡ false
            → AnswersLine self.old line.now reply.Memory self.new }
    {
        self.core.answer_by::<Collector>(alloc, line)
    }
}
