//! How a party sleeps while it waits.

ghost use Rattle.std.specs.Prelude.{◌≡◌};
ghost use Rattle.cqs_rule.specs.Passes.{pass_view};
ghost use Rattle.cqs_rule.specs.Waits.{HasWait};
ghost use Rattle.cqs_barrier.specs.Calls.{IsMine};
ghost use Rattle.cqs_barrier.specs.Waits.{wait_in};

use crate::answers::PartyWait;
use crate::barrier::{Barrier, BarrierPass};
use cqs_rule::Carries;
use std::sync::Wait;

impl<T: Carries + Send> Barrier<T> {
    /// Parks the party as long as it stands in the line. It may return for no reason, too, so one
    /// polls the wait after it.
    pub fn park_wait<R: Wait>(&self, rt: &R, pass: &mut BarrierPass<T>, wait: &PartyWait)
        requires belongs { IsMine self.now pass.old }
        requires has { HasWait (pass_view pass.old) (wait_in wait.now) }
        ensures same { pass.new ≡ pass.old }
    {
        self.queue.park_wait(rt, pass, &wait.wait);
    }
}
