//! Positions that are tried in passes.
ghost use Rattle.std.specs.Prelude.{◌≡◌, ◌==◌, ◌<◌, ◌≤◌, ◌↔◌, ℕ, [], IsTrue, IfSome, IfNone, OnOk, OnErr};
ghost use Rattle.hir_worklist.specs.Queue.{count_of, is_unfinished, IsIdle};
ghost use Rattle.hir_worklist.specs.Moves.{closed, empty_queue, opened, Appends, Finishes, Takes, Wakes};
ghost use Rattle.hir_worklist.specs.Waking.{IsLonger, IsSamePass, KeepsQueued};

use std::alloc::{AllocError, Global};
use std::collections::BTreeSet;
use std::marker::Model;
use std::mem;

/// Things at the positions from 0 on, which are tried in passes. No call takes longer than the logarithm of their number.
#[derive(Drop)]
pub struct Worklist {
    /// Of each thing, whether it's never tried again.
    finished: Vec<bool>,
    /// What is still to be taken in the pass.
    current: BTreeSet<usize>,
    /// What is to be taken in the next pass.
    later: BTreeSet<usize>,
    /// The first position that the pass has not reached.
    next: usize,
    /// Where the pass ends; 0 outside a pass.
    end: usize,
}

impl Model for Worklist {
    ghost use Rattle.hir_worklist.specs.Queue.{Queue, IsInOrder};

    ghost Value = { Queue };

    ghost view = { λ w. record { finished = w.finished.items; current = w.current.keys; later = w.later.keys; next = w.next; end = w.end } };

    ghost invariant = { λ w. IsInOrder (record { finished = w.finished.items; current = w.current.keys; later = w.later.keys; next = w.next; end = w.end }) };
}

impl Worklist {
    /// No things.
    pub fn new(alloc: Global) -> Worklist
        ensures value { result ≡ empty_queue }
    {
        Worklist {
            finished: Vec::new(alloc),
            current: BTreeSet::new(alloc),
            later: BTreeSet::new(alloc),
            next: 0,
            end: 0,
        }
    }

    /// How many things there are.
    pub fn len(&self) -> usize
        ensures value { result ≡ count_of self.now }
    {
        self.finished.len()
    }

    /// Whether there are none.
    pub fn is_empty(&self) -> bool
        ensures value { IsTrue result ↔ (count_of self.now ≡ 0) }
    {
        self.finished.is_empty()
    }

    /// Whether nothing is queued, so that all that isn't finished is idle.
    pub fn is_settled(&self) -> bool
        ensures current { IsTrue result → self.now.current ≡ [] }
        ensures later { IsTrue result → self.now.later ≡ [] }
        ensures queued { self.now.current ≡ [] → self.now.later ≡ [] → IsTrue result }
    {
        self.current.is_empty() && self.later.is_empty()
    }

    /// Whether there is a thing at a position that isn't finished.
    pub fn is_unfinished(&self, position: usize) -> bool
        ensures value { result ≡ is_unfinished self.now position }
    {
        match self.finished.get(position) {
            Some(finished) => !*finished,
            None => false,
        }
    }

    /// Appends a thing, which is to be taken in the next pass.
    pub fn push(&mut self) -> Result<(), AllocError>
        ensures ok { OnOk result (Appends self.old self.new) }
        ensures err { OnErr result (self.new ≡ self.old) }
    {
        let position = self.finished.len();
        self.finished.push(false)?;
        match self.later.insert(position) {
            Ok(_) => Ok(()),
            Err(_) => {
                let _ = self.finished.pop();
                Err(AllocError)
            }
        }
    }

    /// Appends things until there are so many.
    pub fn append_to(&mut self, count: usize) -> Result<(), AllocError>
        ensures longer { OnOk result (IsLonger self.old self.new) }
        ensures count { OnOk result (count_of self.old ≤ count → count_of self.new ≡ count) }
    {
        'things: while self.len() < count {
            self.push()?;
        }
        Ok(())
    }

    /// Begins a pass over what was to be taken in the next one.
    pub fn open(&mut self)
        requires taken { self.old.current ≡ [] }
        ensures value { self.new ≡ opened self.old }
    {
        mem::swap(&mut self.current, &mut self.later);
        self.next = 0;
        self.end = self.finished.len();
    }

    /// Takes the least position that is left of the pass. Where none is, the pass is over.
    pub fn take(&mut self) -> Option<usize>
        ensures some { IfSome result (Takes self.old self.new) }
        ensures over { IfNone result (self.old.current ≡ []) }
        ensures none { IfNone result (self.new ≡ closed self.old) }
    {
        match self.current.pop_first() {
            Some(position) => {
                self.next = position + 1;
                Some(position)
            }
            None => {
                self.next = 0;
                self.end = 0;
                None
            }
        }
    }

    /// Queues a thing that is idle: for this pass where that has still to come to it, else for the next. Others stay as they are.
    pub fn wake(&mut self, position: usize) -> Result<(), AllocError>
        ensures ok { OnOk result (Wakes self.old self.new (λ p. position == p)) }
        ensures err { OnErr result (self.new ≡ self.old) }
    {
        if !self.is_unfinished(position) {
            return Ok(());
        }
        if self.next <= position && position < self.end {
            self.current.insert(position)?;
        } else {
            self.later.insert(position)?;
        }
        Ok(())
    }

    /// Queues all that is idle.
    pub fn wake_all(&mut self) -> Result<(), AllocError>
        ensures none { OnOk result ((p : ℕ) → ¬ IsIdle self.new p) }
        ensures pass { OnOk result (IsSamePass self.old self.new) }
        ensures queued { OnOk result (KeepsQueued self.old self.new) }
    {
        for position in 0..self.len() {
            self.wake(position)?;
        }
        Ok(())
    }

    /// Finishes a thing: it's taken no more, even if it was queued.
    pub fn finish(&mut self, position: usize)
        requires within { position < count_of self.old }
        ensures finishes { Finishes self.old self.new position }
    {
        self.current.remove(&position);
        self.later.remove(&position);
        self.finished[position] = true;
    }
}
