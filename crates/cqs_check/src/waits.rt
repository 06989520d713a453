//! The waits by number: which stand in the line, and which were served.

ghost use Rattle.std.specs.Prelude.{◌≡◌, ℕ, ◌+◌, ◌<◌, ◌≤◌, ◌^◌, MatchOption, length, take, slice_get, vec_len, vec_capacity, Some, IsSomeAnd, IsTrue, IfOk, []};
ghost use mathlib.Core.Logic.{◌↔◌};
ghost use Rattle.cqs_check.specs.declared.waits.WaitState.TheVariants as became;
ghost use Rattle.cqs_core.specs.QueueWaiters.{Waits};
ghost use Rattle.cqs_check.specs.Trees.{IsTree, size_of};
ghost use Rattle.cqs_check.specs.Lines.{HasRoom, IsTable, line_of, Becomes, Enters, PassesOver, flag};

use crate::counts::Counts;
use std::alloc::{AllocError, Global};

/// What became of a wait.
#[derive(Clone, Copy)]
pub enum WaitState {
    /// It stands in the line.
    Waiting(u32),
    /// It was served, and what came wasn't looked at.
    Served(u32),
    /// It was served, and what came was looked at.
    Closed(u32),
    /// It left, or its number was broken.
    Gone,
}

/// The waits by number, with a tree that counts those in the line.
#[derive(Drop)]
pub struct Table {
    pub waits: Vec<WaitState>,
    pub counts: Counts,
}

impl Table {
    /// What became of a wait; none where the number wasn't drawn.
    fn state(&self, wait: u64) -> Option<WaitState>
        ensures { result ≡ slice_get self.now.waits.items wait }
    {
        self.waits.get(wait as usize).copied()
    }

    /// The caller of this wait, where it is among the first `way` of the line.
    pub fn among_first(&self, way: u32, wait: u64) -> Option<u32>
        requires { IsTable self.now }
        ensures { MatchOption result
            ((c : ℕ) → ¬ Waits wait c (take way (line_of self.now)))
            (λ c. Waits wait c (take way (line_of self.now))) }
    {
        match self.state(wait) {
            Some(WaitState::Waiting(caller)) => {
                if self.counts.before(wait as usize) < way {
                    Some(caller)
                } else {
                    None
                }
            }
            Some(WaitState::Served(_)) => None,
            Some(WaitState::Closed(_)) => None,
            Some(WaitState::Gone) => None,
            None => None,
        }
    }

    /// A table for so many numbers, none of which was drawn.
    pub fn new(alloc: Global, most: u32) -> Result<Self, AllocError>
        ensures { IfOk result (λ t. IsTable t × (t.waits.items ≡ [])) }
    {
        let counts = Counts::new(alloc, most)?;
        let waits = Vec::with_capacity(alloc, most as usize)?;
        Ok(Table { waits, counts })
    }

    /// Whether there is room for one more number.
    pub fn has_room(&self) -> bool
        ensures { IsTrue result → HasRoom self.now }
    {
        let many = self.waits.len();
        many < self.counts.size() && many < self.waits.capacity() && many < 4_294_967_295
    }

    /// The wait is this caller's, and stands in the line.
    pub fn waits_for(&self, caller: u32, wait: u64) -> bool
        ensures { IsTrue result
            ↔ (slice_get self.now.waits.items wait ≡ Some (became.Waiting caller)) }
    {
        match self.state(wait) {
            Some(WaitState::Waiting(found)) => found == caller,
            _ => false,
        }
    }

    /// The wait is this caller's, was served, and what came wasn't looked at.
    pub fn served_for(&self, caller: u32, wait: u64) -> bool
        ensures { IsTrue result
            ↔ (slice_get self.now.waits.items wait ≡ Some (became.Served caller)) }
    {
        match self.state(wait) {
            Some(WaitState::Served(found)) => found == caller,
            _ => false,
        }
    }

    /// The next number is this caller's, who stands at the end of the line.
    pub fn enter(&mut self, caller: u32)
        requires table { IsTable self.old }
        requires low { vec_len self.old.waits < size_of self.old.counts }
        requires few { vec_len self.old.waits + 1 < 2 ^ 32 }
        requires spare { vec_len self.old.waits < vec_capacity self.old.waits }
        ensures { Enters self.old caller self.new }
    {
        let number = self.waits.len();
        self.counts.raise(number);
        self.waits.push_reserved(WaitState::Waiting(caller));
    }

    /// The next number was broken before it was drawn: nobody stands in the line under it.
    pub fn pass_over(&mut self)
        requires table { IsTable self.old }
        requires low { vec_len self.old.waits < size_of self.old.counts }
        requires few { vec_len self.old.waits + 1 < 2 ^ 32 }
        requires spare { vec_len self.old.waits < vec_capacity self.old.waits }
        ensures { PassesOver self.old self.new }
    {
        self.waits.push_reserved(WaitState::Gone);
    }

    /// A wait of the line stands there no longer.
    pub fn take_out(&mut self, wait: usize, state: WaitState)
        requires table { IsTable self.old }
        requires stands { IsSomeAnd (slice_get self.old.waits.items wait) (λ w. flag (Some w) ≡ 1) }
        requires gone { flag (Some state) ≡ 0 }
        ensures { Becomes self.old wait state self.new }
    {
        self.counts.lower(wait);
        self.waits[wait] = state;
    }

    /// A wait that doesn't stand in the line becomes another that doesn't.
    pub fn change(&mut self, wait: usize, state: WaitState)
        requires table { IsTable self.old }
        requires stands { IsSomeAnd (slice_get self.old.waits.items wait) (λ w. flag (Some w) ≡ 0) }
        requires gone { flag (Some state) ≡ 0 }
        ensures { Becomes self.old wait state self.new }
    {
        self.waits[wait] = state;
    }
}
