//! The look at a wait.

ghost use Rattle.std.specs.Prelude.{◌≡◌, [], true};
ghost use Rattle.cqs_rule.specs.Passes.{pass_view, IsOf};
ghost use Rattle.cqs_rule.specs.Waits.{place_of, HasWait};
ghost use Rattle.cqs_semaphore.specs.Alone.{IsPlainPoll};
ghost use Rattle.cqs_semaphore.specs.Answers.{IsPolled};
ghost use Rattle.cqs_rule_laws.specs.CallRule.{IsReady};
ghost use Rattle.cqs_semaphore.specs.Calls.{IsMine, CallRule};
ghost use Rattle.cqs_semaphore.specs.Entries.{polled_entries};

use crate::answers::{Permit, Polled};
use crate::semaphore::{SemPass, Semaphore};
use cqs_cell::look_for_grant;
use cqs_rule::{Carries, Queue, Wait};
use cqs_semaphore_client::SemClient;

impl<T: Carries + Send> Semaphore<T> {
    /// Looks whether the wait was served.
    #[inline(always)]
    pub fn poll(&self, pass: &mut SemPass<T>, wait: Wait) -> Polled
        requires belongs { IsMine self.now pass.old }
        requires ready { IsReady (pass_view pass.old).facts }
        requires has { HasWait (pass_view pass.old) wait }
        ensures belongs { IsMine self.now pass.new }
        ensures called { CallRule (pass_view pass.old)
            (polled_entries (pass_view pass.old).number (place_of wait).index result) []
            (pass_view pass.new) }
        ensures polled { IsPolled wait (pass_view pass.old) result (pass_view pass.new) }
        ensures ready { IsReady (pass_view pass.new).facts }
        ensures alone { (pass_view pass.old).alone ≡ true
            → IsPlainPoll (place_of wait).index (pass_view pass.old) result }
    {
        poll_wait(&self.queue, pass, wait)
    }
}

/// Looks whether the wait was served, at a semaphore on this queue, synchronous or not.
#[inline(always)]
pub fn poll_wait<T: Carries + Send>(
    queue: &Queue<SemClient<T>>,
    pass: &mut SemPass<T>,
    wait: Wait,
) -> Polled
    requires belongs { IsOf queue.now pass.old }
    requires ready { IsReady (pass_view pass.old).facts }
    requires has { HasWait (pass_view pass.old) wait }
    ensures belongs { IsOf queue.now pass.new }
    ensures called { CallRule (pass_view pass.old)
        (polled_entries (pass_view pass.old).number (place_of wait).index result) []
        (pass_view pass.new) }
    ensures polled { IsPolled wait (pass_view pass.old) result (pass_view pass.new) }
    ensures ready { IsReady (pass_view pass.new).facts }
    ensures alone { (pass_view pass.old).alone ≡ true
        → IsPlainPoll (place_of wait).index (pass_view pass.old) result }
{
    let at = queue.spend_wait(pass, wait);
    match look_for_grant(queue, pass, at) {
        Some(_) => Polled::Granted(Permit {
            number: Some(at.index),
        }),
        None => Polled::Pending(queue.wait_of(pass, at)),
    }
}
