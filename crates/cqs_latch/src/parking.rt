//! How a caller sleeps while it waits.

ghost use Rattle.std.specs.Prelude.{◌≡◌};
ghost use Rattle.cqs_rule.specs.Passes.{pass_view};
ghost use Rattle.cqs_rule.specs.Waits.{HasWait};
ghost use Rattle.cqs_latch.specs.Calls.{IsMine};

use crate::latch::{Latch, LatchPass};
use cqs_rule::{Carries, Wait};
use std::sync::Wait as MayWait;

impl<T: Carries + Send> Latch<T> {
    /// Parks the caller as long as it stands in the line. It may return for no reason, too, so one
    /// polls the wait after it.
    pub fn park_wait<R: MayWait>(&self, rt: &R, pass: &mut LatchPass<T>, wait: &Wait)
        requires belongs { IsMine self.now pass.old }
        requires has { HasWait (pass_view pass.old) wait.now }
        ensures same { pass.new ≡ pass.old }
    {
        self.queue.park_wait(rt, pass, wait);
    }
}
