//! The reader of the state.

ghost use Rattle.std.specs.Prelude.{◌≡◌, []};
ghost use Rattle.cqs_core.specs.SemaphoreShown.{state_of};
ghost use Rattle.cqs_rule.specs.Passes.{pass_view};
ghost use Rattle.cqs_rule_laws.specs.CallRule.{IsReady};
ghost use Rattle.cqs_semaphore.specs.Calls.{Rests, CallRule, plain_after};
ghost use Rattle.cqs_semaphore.specs.Causes.{StateWas};
ghost use Rattle.cqs_mutex.specs.Mutexes.{Belongs};

use crate::mutex::{Mutex, MutexPass};

impl<T: Send + Drop> Mutex<T> {
    /// The state: 1 where the mutex is free, and else less those who wait with it not on its way.
    pub fn state(&self, pass: &mut MutexPass<T>) -> i64
        requires belongs { Belongs self.now pass.old }
        requires ready { IsReady (pass_view pass.old).facts }
        ensures belongs { Belongs self.now pass.new }
        ensures state { result ≡ state_of (plain_after (pass_view pass.new)) }
        ensures was { StateWas (pass_view pass.old) (state_of (plain_after (pass_view pass.new)))
            (pass_view pass.new).seen [] (pass_view pass.new) }
        ensures called { CallRule (pass_view pass.old) [] [] (pass_view pass.new) }
        ensures rests { Rests (pass_view pass.old) (pass_view pass.old).facts.has.held
            (pass_view pass.old).facts.waits (pass_view pass.new) }
    {
        self.semaphore.state(pass)
    }
}
