//! A lock that is polled.

ghost use Rattle.std.specs.Prelude.{◌≡◌, ◌⊎◌, true, Some, None, IsSome, IsSomeAnd};
ghost use mathlib.Core.Logic.{◌↔◌};
ghost use Rattle.cqs_rule_laws.specs.Crew.{IsBetween};
ghost use Rattle.cqs_rule.specs.Passes.{pass_view};
ghost use Rattle.futures.specs.Poll.{IfReady, OnPending};
ghost use Rattle.futures.specs.Task.{Covers, Keeps};
ghost use Rattle.cqs_rule_laws.specs.CallRule.{IsReady};
ghost use Rattle.cqs_mutex.specs.Calls.{LockedHolds};
ghost use Rattle.cqs_mutex.specs.Mutexes.{Belongs};
ghost use Rattle.cqs_waiter.specs.Futures.{CanPoll, GivesUp};
ghost use Rattle.cqs_waiter.specs.LockFutures.{CanPollLock, EndsLockWait, GivesLock, IsOfMutex, LeadsTo, LockPended, WaitsForLock};
ghost use Rattle.cqs_waiter.specs.Locks.{LockBegins};

use cqs_core::Entry;
use cqs_mutex::{Guard, LockLeft, LockWait, Locked, Mutex, MutexPass, PolledLock};
use cqs_rule::{AcquireError, ClientWords, Kept};
use cqs_semaphore_client::SemClient;
use futures::task::{Context, Poll};

/// What the future comes to: its pass again, and a guard, or that no further number may be drawn.
#[derive(Drop)]
pub struct LockOutcome<T: Drop>
where
    SemClient<Kept<T>>: ClientWords<Slot = Kept<T>, Entry = Entry>,
{
    pub pass: MutexPass<T>,
    pub got: Result<Guard<T>, AcquireError>,
}

/// A future that locks a mutex. Its first poll locks, and where a wait came of that, looks at it
/// too; each later poll looks. A poll whose look is pending asks to be polled again at once, so an
/// executor that has nothing else to do keeps its processor busy.
///
/// A future that is dropped leaves its wait in the line, and its pass is gone with it: a mutex that
/// comes to that wait stays locked for good. `give_up` ends the wait and hands the pass back.
///
/// Its `poll` has the contract of a `Future`, and an executor polls it in a `Future` of its user's
/// own, for the value that this user has. For every value at once Rattle has no such `impl`: a
/// trait's method may not call what sends a `T: Drop` to other threads.
#[derive(Drop)]
pub struct LockFuture<'a, T: Drop>
where
    SemClient<Kept<T>>: ClientWords<Slot = Kept<T>, Entry = Entry>,
{
    mutex: &'a Mutex<T>,
    pass: Option<MutexPass<T>>,
    wait: Option<LockWait>,
}

impl<'a, T: Send + Drop> LockFuture<'a, T> {
    /// A future that hasn't begun. The pass comes back with what it locked.
    pub fn new(mutex: &'a Mutex<T>, pass: MutexPass<T>) -> LockFuture<'a, T>
        requires belongs { Belongs mutex.now pass }
        requires ready { IsReady (pass_view pass).facts }
        ensures can_poll { CanPollLock result }
        ensures mutex { result.mutex.now ≡ mutex.now }
        ensures pass { result.pass ≡ Some pass }
        ensures no_wait { result.wait ≡ None }
    {
        LockFuture {
            mutex,
            pass: Some(pass),
            wait: None,
        }
    }

    /// Locks or looks. It is pending where the look was, or an earlier poll was ready.
    pub fn poll(&mut self, cx: &mut Context<'_>) -> Poll<LockOutcome<T>>
        requires can_poll { CanPollLock self.old }
        ensures value { IfReady result (GivesLock self.old) }
        ensures again { OnPending result (CanPollLock self.new) }
        ensures same { OnPending result (LeadsTo self.old self.new) }
        ensures registered { OnPending result (Covers cx.new (λ _. ⊥)) }
        ensures kept { Keeps cx.old cx.new }
        ensures pending { (result ≡ Poll.Pending)
            ↔ ((self.old.pass ≡ None) ⊎ LockPended self.old self.new) }
        ensures yields { OnPending result (cx.new.is_woken ≡ true) }
    {
        let Some(mut pass) = self.pass.take() else {
            return cx.yield_now();
        };
        let wait = match begin(self.mutex, &mut pass, self.wait.take()) {
            Ok(Locked::Later(wait)) => wait,
            Ok(Locked::Now(guard)) => {
                let got = Ok(guard);
                return Poll::Ready(LockOutcome { pass, got });
            }
            Err(refused) => {
                let got = Err(refused);
                return Poll::Ready(LockOutcome { pass, got });
            }
        };
        match self.mutex.poll(&mut pass, wait) {
            PolledLock::Granted(guard) => {
                let got = Ok(guard);
                Poll::Ready(LockOutcome { pass, got })
            }
            PolledLock::Pending(wait) => {
                self.pass = Some(pass);
                self.wait = Some(wait);
                cx.yield_now()
            }
        }
    }

    /// Ends the wait, if there is one, and hands the pass back.
    pub fn give_up(self) -> (MutexPass<T>, Option<LockLeft<T>>)
        requires not_ready { IsSome self.pass }
        requires can_poll { CanPollLock self }
        ensures belongs { Belongs self.entry.mutex.now result.0 }
        ensures between { IsBetween (pass_view result.0).facts }
        ensures gave_up { IsSomeAnd self.entry.pass
            (λ pass. GivesUp EndsLockWait pass self.entry.wait result.0 result.1) }
        ensures none { (result.1 ≡ None) ↔ (self.entry.wait ≡ None) }
    {
        let LockFuture { mutex, pass, wait } = self;
        let Some(mut pass) = pass else { unreachable!() };
        match wait {
            None => (pass, None),
            Some(wait) => {
                let answer = mutex.cancel(&mut pass, wait);
                (pass, Some(answer))
            }
        }
    }
}

// The wait that the future has, or what its lock gets.
#[tactic(auto, using(crate::proofs::Locks::lock_begins))]
fn begin<T: Send + Drop>(
    mutex: &Mutex<T>,
    pass: &mut MutexPass<T>,
    wait: Option<LockWait>,
) -> Result<Locked<T>, AcquireError>
    requires can_poll { CanPoll (IsOfMutex mutex.now) WaitsForLock (Some pass.old) wait }
    ensures belongs { Belongs mutex.now pass.new }
    ensures ready { IsReady (pass_view pass.new).facts }
    ensures begins { LockBegins (pass_view pass.old) wait result (pass_view pass.new) }
    ensures waits { LockedHolds result (pass_view pass.new) }
{
    match wait {
        Some(wait) => Ok(Locked::Later(wait)),
        None => mutex.lock(pass),
    }
}
