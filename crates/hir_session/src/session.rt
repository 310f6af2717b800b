//! Sessions that the collector refreshes.
//!
//! What a session is, and how edits, refreshes and queries go, stands in `hir_session_core`, which knows of the collector what
//! it promises alone.
ghost use Rattle.std.specs.Prelude.{◌≡◌, ◌≢◌, ◌⊎◌, ◌<◌, ℕ, map, length, false, IfOk, IfErr, OnOk, OnErr, Ok, Err};
ghost use Rattle.std.specs.Borrow.{sem};
ghost use Rattle.hir_session_machine.specs.HirBase.Place.{PlaceValue};
ghost use Rattle.hir_session_machine.specs.HirMessages.CommandValue.{crate_input_view};
ghost use Rattle.hir_session_machine.specs.HirMessages.declared.reply.Status.TheVariants as status;
ghost use Rattle.hir_session_machine.specs.HirSessionState.Beginning.{Begins};
ghost use Rattle.hir_session_machine.specs.HirSessionState.Changes.{Refreshes, RefreshesPartly};
ghost use Rattle.hir_session_machine.specs.HirSessionState.Crates.{id_of};
ghost use Rattle.hir_session_machine.specs.HirSessionState.Due.{HasOverlongRun};
ghost use Rattle.hir_session_machine.specs.HirSessionState.Refusals.{verdict_of_new, IsNewMemory};
ghost use Rattle.hir_session_machine.specs.HirSessionState.SessionState.{is_marked};
ghost use Rattle.hir_session_machine.specs.HirSessionAnswers.Status.{status_of};
ghost use Rattle.hir_session.specs.Lending.{LendsCore};

use crate::collector::Collector;
use hir_base::place::Place;
use hir_session_machine::hir_session_core::hir_session_state::error::{
    NewSessionError, RefreshError,
};
pub use hir_session_machine::hir_session_core::session::MAX_CRATES;
use hir_session_machine::hir_session_core::session::Session as SessionCore;
use hir_session_machine::hir_wire::command::CrateInput;
use std::alloc::Global;
use std::marker::Model;
use std::ops::{Deref, DerefMut};

/// Crates and sources as they were handed in, and for each place that was resolved what its names stand for.
///
/// Its edits and queries are those of the session within.
#[derive(Drop)]
pub struct Session {
    core: SessionCore,
}

impl Model for Session {
    ghost use Rattle.hir_session_machine.specs.HirSessionState.SessionState.{SessionState};
    ghost use Rattle.hir_session_machine.specs.HirSessionState.Codes.{coded_session};

    ghost Value = { SessionState };

    ghost coded = { coded_session };

    ghost view = { λ s. s.core };
}

impl Session {
    /// A session over these crates, numbered in this order, without sources.
    pub fn new(alloc: Global, inputs: Vec<CrateInput>) -> Result<Session, NewSessionError>
        ensures begins { IfOk result (λ s. Begins (map crate_input_view inputs.items) s) }
        ensures accepted { OnOk result (verdict_of_new (map crate_input_view inputs.items) ≡ Ok tt) }
        ensures refused { IfErr result (λ e. IsNewMemory e ⊎ (verdict_of_new (map crate_input_view inputs.items) ≡ Err e)) }
    {
        match SessionCore::new(alloc, inputs) {
            Ok(core) => Ok(Session { core }),
            Err(error) => Err(error),
        }
    }

    /// Resolves what is marked, in order, and lists it.
    pub fn refresh(&mut self, alloc: Global) -> Result<Vec<Place>, RefreshError>
        ensures refreshes { IfOk result (λ done. Refreshes self.old done.items self.new) }
        ensures none_stale { OnOk result ((k : ℕ) → k < length self.new.crates → is_marked self.new (id_of k) ≡ false) }
        ensures nowhere_stale { OnOk result ((place : PlaceValue) → status_of self.new place ≢ status.Stale) }
        ensures err { OnErr result (RefreshesPartly self.old self.new) }
        ensures many { result ≡ Err RefreshError.TooMany → HasOverlongRun self.new }
    {
        self.core.refresh_by::<Collector>(alloc)
    }
}

impl Deref for Session {
    type Target = SessionCore;

    ghost deref_gives = { λ s core. core ≡ s };

    fn deref(&self) -> &SessionCore {
        &self.core
    }
}

impl DerefMut for Session {
    ghost deref_mut_gives = { λ s core. core ≡ s };

    fn deref_mut(&mut self) -> &mut SessionCore
        ensures* lends { sem 𝓛 (LendsCore self.entry result) }
        ensures shows { result.now ≡ self.old }
    {
        &mut self.core
    }
}
