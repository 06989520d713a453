//! The look at a wait.

ghost use Rattle.std.specs.Prelude.{◌≡◌, true, []};
ghost use Rattle.cqs_latch.specs.Alone.{IsPlainPoll};
ghost use Rattle.cqs_latch.specs.Answers.{IsPolled};
ghost use Rattle.cqs_rule_laws.specs.CallRule.{IsReady};
ghost use Rattle.cqs_latch.specs.Calls.{IsMine, CallRule, KeepsOtherWaits};
ghost use Rattle.cqs_latch.specs.Entries.{polled_entries};
ghost use Rattle.cqs_rule.specs.Passes.{pass_view};
ghost use Rattle.cqs_rule.specs.Waits.{place_of, HasWait};

use crate::answers::LatchPolled;
use crate::client::LatchClient;
use crate::latch::{Latch, LatchPass};
use cqs_cell::look_for_grant;
use cqs_rule::{Carries, Wait};

impl<T: Carries + Send> Latch<T> {
    /// Looks whether the wait was served.
    #[inline]
    pub fn poll(&self, pass: &mut LatchPass<T>, wait: Wait) -> LatchPolled
        requires belongs { IsMine self.now pass.old }
        requires ready { IsReady (pass_view pass.old).facts }
        requires has { HasWait (pass_view pass.old) wait }
        ensures belongs { IsMine self.now pass.new }
        ensures called { CallRule (pass_view pass.old)
            (polled_entries (pass_view pass.old).number (place_of wait).index result) []
            (pass_view pass.new) }
        ensures polled { IsPolled wait (pass_view pass.old) result (pass_view pass.new) }
        ensures ready { IsReady (pass_view pass.new).facts }
        ensures keeps { KeepsOtherWaits (place_of wait).index (pass_view pass.old)
            (pass_view pass.new) }
        ensures alone { (pass_view pass.old).alone ≡ true
            → IsPlainPoll (place_of wait).index (pass_view pass.old) result }
    {
        let at = self.queue.spend_wait(pass, wait);
        match look_for_grant(&self.queue, pass, at) {
            Some(_) => LatchPolled::Through,
            None => LatchPolled::Pending(self.queue.wait_of(pass, at)),
        }
    }
}
