//! The calls that are those of a `Semaphore`: the try, the look at a wait, and the state.

ghost use Rattle.std.specs.Prelude.{◌≡◌, [], ◌∷◌, true};
ghost use Rattle.cqs_core.specs.SemaphoreShown.{state_of};
ghost use Rattle.cqs_rule_laws.specs.CallRule.{IsReady};
ghost use Rattle.cqs_rule.specs.Passes.{pass_view};
ghost use Rattle.cqs_rule.specs.Waits.{place_of, HasWait};
ghost use Rattle.cqs_semaphore.specs.Alone.{IsPlainPoll, IsPlainTry};
ghost use Rattle.cqs_semaphore.specs.Answers.{IsPolled, Tries};
ghost use Rattle.cqs_semaphore.specs.Calls.{CallRule, Rests, plain_after};
ghost use Rattle.cqs_semaphore.specs.Causes.{FoundJust, StateWas};
ghost use Rattle.cqs_semaphore.specs.Entries.{polled_entries, tried_entries};
ghost use Rattle.cqs_sync_semaphore.specs.Calls.{IsMine};

use crate::sync_semaphore::SyncSemaphore;
use cqs_rule::{Carries, Wait};
use cqs_semaphore::{Polled, SemPass, Tried, poll_wait, state_now, try_permit};

impl<T: Carries + Send> SyncSemaphore<T> {
    /// A permit where one is free. It never waits.
    #[inline(always)]
    pub fn try_acquire(&self, pass: &mut SemPass<T>) -> Tried
        requires belongs { IsMine self.now pass.old }
        requires ready { IsReady (pass_view pass.old).facts }
        ensures belongs { IsMine self.now pass.new }
        ensures called { CallRule (pass_view pass.old)
            (tried_entries (pass_view pass.old).number result) [] (pass_view pass.new) }
        ensures tries { Tries (pass_view pass.old) result (pass_view pass.new) }
        ensures ready { IsReady (pass_view pass.new).facts }
        ensures alone { (pass_view pass.old).alone ≡ true
            → IsPlainTry (pass_view pass.old) result }
    {
        try_permit(&self.queue, pass)
    }

    /// Looks whether the wait was served.
    #[inline(always)]
    pub fn poll(&self, pass: &mut SemPass<T>, wait: Wait) -> Polled
        requires belongs { IsMine self.now pass.old }
        requires ready { IsReady (pass_view pass.old).facts }
        requires has { HasWait (pass_view pass.old) wait }
        ensures belongs { IsMine self.now pass.new }
        ensures called { CallRule (pass_view pass.old)
            (polled_entries (pass_view pass.old).number (place_of wait).index result) []
            (pass_view pass.new) }
        ensures polled { IsPolled wait (pass_view pass.old) result (pass_view pass.new) }
        ensures ready { IsReady (pass_view pass.new).facts }
        ensures alone { (pass_view pass.old).alone ≡ true
            → IsPlainPoll (place_of wait).index (pass_view pass.old) result }
    {
        poll_wait(&self.queue, pass, wait)
    }

    /// The state: the free permits, less those who wait with none on its way.
    pub fn state(&self, pass: &mut SemPass<T>) -> i64
        requires belongs { IsMine self.now pass.old }
        requires ready { IsReady (pass_view pass.old).facts }
        ensures belongs { IsMine self.now pass.new }
        ensures state { result ≡ state_of (plain_after (pass_view pass.new)) }
        ensures was { StateWas (pass_view pass.old) (state_of (plain_after (pass_view pass.new)))
            (pass_view pass.new).seen [] (pass_view pass.new) }
        ensures once { FoundJust (state_of (plain_after (pass_view pass.new)) ∷ [])
            (pass_view pass.old) (pass_view pass.new) }
        ensures called { CallRule (pass_view pass.old) [] [] (pass_view pass.new) }
        ensures rests { Rests (pass_view pass.old) (pass_view pass.old).facts.has.held
            (pass_view pass.old).facts.waits (pass_view pass.new) }
    {
        state_now(&self.queue, pass)
    }
}
