//! How the owner of a wait sleeps until its cell changes, and how it is woken. Neither is a step of
//! the queue.

ghost use Rattle.std.specs.Prelude.{◌≡◌};
ghost use Rattle.cqs_rule.specs.Passes.{pass_view, IsInTable, IsOf};
ghost use Rattle.cqs_rule.specs.Waits.{HasWait};

use crate::queue::{Pass, Queue, Wait};
use cqs_rule_laws::{ClientWords, Place};
use cqs_words::{CellState, CellWord};
use std::sync::Wait as MayWait;

impl<C: ClientWords> Queue<C> {
    /// Parks the caller as long as the waiter stands in the cell of its wait. It may return for no
    /// reason, too, so one looks at the wait again after it.
    pub fn park_wait<R: MayWait>(&self, rt: &R, pass: &mut Pass<C>, wait: &Wait)
        requires belongs { IsOf self.now pass.old }
        requires has { HasWait (pass_view pass.old) wait.now }
        ensures same { pass.new ≡ pass.old }
    {
        let waiter = CellWord::bare(wait.number, CellState::Waiter).low_half();
        self.parked.enter();
        self.table.shared.park(rt, wait.word as usize, waiter);
        self.parked.leave();
    }

    /// Wakes the caller that parks on this cell, if there is one. Whoever changed the cell calls it
    /// after that.
    #[inline(always)]
    pub fn wake_cell(&self, at: Place)
        requires inside { IsInTable self.now at }
    {
        if self.parked.any() {
            C::wake(&self.table.shared, at.word as usize);
        }
    }
}
