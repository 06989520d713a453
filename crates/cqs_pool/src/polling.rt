//! The look at a wait.

ghost use Rattle.std.specs.Prelude.{◌≡◌, [], true};
ghost use Rattle.cqs_rule.specs.Passes.{pass_view};
ghost use Rattle.cqs_rule.specs.Waits.{place_of, HasWait};
ghost use Rattle.cqs_pool.specs.Alone.{IsPlainPoll, PollsNew};
ghost use Rattle.cqs_pool.specs.Answers.{IsPolled};
ghost use Rattle.cqs_rule_laws.specs.CallRule.{IsReady};
ghost use Rattle.cqs_pool.specs.Calls.{IsMine, CallRule};
ghost use Rattle.cqs_pool.specs.Entries.{polled_entries};

use crate::answers::PoolPolled;
use crate::client::PoolClient;
use crate::element::Element;
use crate::pool::{Pool, PoolPass};
use cqs_cell::look_for_grant;
use cqs_rule::{Carries, Wait};

impl<T: Carries + Send> Pool<T> {
    /// Looks whether the wait was served.
    pub fn poll(&self, pass: &mut PoolPass<T>, wait: Wait) -> PoolPolled
        requires belongs { IsMine self.now pass.old }
        requires ready { IsReady (pass_view pass.old).facts }
        requires has { HasWait (pass_view pass.old) wait }
        ensures belongs { IsMine self.now pass.new }
        ensures called { CallRule (pass_view pass.old)
            (polled_entries (pass_view pass.old).number (place_of wait).index result) []
            (pass_view pass.new) }
        ensures polled { IsPolled wait (pass_view pass.old) result (pass_view pass.new) }
        ensures ready { IsReady (pass_view pass.new).facts }
        ensures alone { (pass_view pass.old).alone ≡ true
            → IsPlainPoll (place_of wait).index (pass_view pass.old) result }
        ensures new { PollsNew (pass_view pass.old) result }
    {
        let at = self.queue.spend_wait(pass, wait);
        match look_for_grant(&self.queue, pass, at) {
            Some(number) => PoolPolled::Granted(Element {
                number,
                wait: at.index,
            }),
            None => PoolPolled::Pending(self.queue.wait_of(pass, at)),
        }
    }
}
