//! What a caller does with a wait.

ghost use Rattle.std.specs.Prelude.{◌≡◌};
ghost use Rattle.cqs_rule_laws.specs.Crew.{IsBetween};
ghost use Rattle.cqs_rule_laws.specs.Lists.{Has};
ghost use Rattle.cqs_rule.specs.Passes.{pass_view};
ghost use Rattle.cqs_rule_laws.specs.Placed.{KnowsPlace};
ghost use Rattle.cqs_rule.specs.Waits.{HasWait, pass_of, place_of};
ghost use Rattle.cqs_rule_laws.specs.CallRule.{IsReady};
ghost use Rattle.cqs_mutex.specs.Calls.{HasPolled, HasLeft, PolledHolds, LeftHolds};
ghost use Rattle.cqs_mutex.specs.Guards.{wait_in};
ghost use Rattle.cqs_mutex.specs.Mutexes.{Belongs};

use crate::answers::{LockLeft, PolledLock};
use crate::guard::LockWait;
use crate::mutex::{Mutex, MutexPass};
use cqs_rule::Place;
use cqs_semaphore::{CancelAnswer, Polled};
use std::sync::Wait;

impl<T: Send + Drop> Mutex<T> {
    /// The token of a wait that the pass has. It makes no step.
    #[inline(always)]
    pub fn wait_of(&self, pass: &mut MutexPass<T>, at: Place) -> LockWait
        requires belongs { Belongs self.now pass.old }
        requires wait { Has at.index (pass_view pass.old).facts.waits }
        requires place { KnowsPlace (pass_view pass.old) at }
        ensures place { place_of (wait_in result) ≡ at }
        ensures pass { pass_of (wait_in result) ≡ (pass_view pass.old).number }
        ensures has { HasWait (pass_view pass.new) (wait_in result) }
        ensures same { pass.new ≡ pass.old }
    {
        LockWait {
            wait: self.semaphore.queue().wait_of(pass, at),
        }
    }

    /// Takes the token back, and says where its cell stands. It makes no step.
    #[inline(always)]
    pub fn spend_wait(&self, pass: &mut MutexPass<T>, wait: LockWait) -> Place
        requires belongs { Belongs self.now pass.old }
        requires has { HasWait (pass_view pass.old) (wait_in wait) }
        ensures place { result ≡ place_of (wait_in wait) }
        ensures same { pass.new ≡ pass.old }
    {
        let LockWait { wait } = wait;
        self.semaphore.queue().spend_wait(pass, wait)
    }

    /// Looks whether the mutex came.
    pub fn poll(&self, pass: &mut MutexPass<T>, wait: LockWait) -> PolledLock<T>
        requires belongs { Belongs self.now pass.old }
        requires ready { IsReady (pass_view pass.old).facts }
        requires has { HasWait (pass_view pass.old) (wait_in wait) }
        ensures belongs { Belongs self.now pass.new }
        ensures polled { HasPolled (wait_in wait) (pass_view pass.old) result (pass_view pass.new) }
        ensures holds { PolledHolds result (pass_view pass.new) }
        ensures ready { IsReady (pass_view pass.new).facts }
    {
        let LockWait { wait } = wait;
        match self.semaphore.poll(pass, wait) {
            Polled::Granted(permit) => PolledLock::Granted(self.take(pass, permit)),
            Polled::Pending(wait) => PolledLock::Pending(LockWait { wait }),
        }
    }

    /// Sleeps as long as the caller waits in line, as far as the queue's `park_wait` does: it may
    /// return for no reason, and whoever comes back polls.
    pub fn park_wait<R: Wait>(&self, rt: &R, pass: &mut MutexPass<T>, wait: &LockWait)
        requires belongs { Belongs self.now pass.old }
        requires has { HasWait (pass_view pass.old) (wait_in wait.now) }
        ensures same { pass.new ≡ pass.old }
    {
        self.semaphore.queue().park_wait(rt, pass, &wait.wait);
    }

    /// Ends a wait: the caller leaves the line, or has the mutex that had come before. Where the
    /// mutex was left to the caller who leaves, it goes on to the next one.
    pub fn cancel(&self, pass: &mut MutexPass<T>, wait: LockWait) -> LockLeft<T>
        requires belongs { Belongs self.now pass.old }
        requires ready { IsReady (pass_view pass.old).facts }
        requires has { HasWait (pass_view pass.old) (wait_in wait) }
        ensures belongs { Belongs self.now pass.new }
        ensures left { HasLeft (wait_in wait) (pass_view pass.old) result (pass_view pass.new) }
        ensures holds { LeftHolds result (pass_view pass.new) }
        ensures between { IsBetween (pass_view pass.new).facts }
    {
        let LockWait { wait } = wait;
        match self.semaphore.cancel(pass, wait) {
            CancelAnswer::Cancelled(under) => LockLeft::Cancelled(under),
            CancelAnswer::TooLate(permit) => LockLeft::TooLate(self.take(pass, permit)),
        }
    }
}
