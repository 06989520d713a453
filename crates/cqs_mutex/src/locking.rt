//! The lock, and the try.

ghost use Rattle.std.specs.Prelude.{◌≡◌, true, IsErrOf};
ghost use Rattle.cqs_rule.specs.Passes.{ample_of, pass_view};
ghost use Rattle.cqs_rule_laws.specs.CallRule.{IsReady};
ghost use Rattle.cqs_mutex.specs.Calls.{HasLocked, HasTried, LockedHolds, TriedHolds};
ghost use Rattle.cqs_mutex.specs.Mutexes.{Belongs};

use crate::answers::{Locked, TriedLock};
use crate::guard::LockWait;
use crate::mutex::{Mutex, MutexPass};
use cqs_rule::AcquireError;
use cqs_semaphore::{Acquired, Tried};

impl<T: Send + Drop> Mutex<T> {
    /// The guard where the mutex is free, or else a wait for it. It is refused as worn where as
    /// many numbers were drawn as the limit allows, even if the mutex is free; and as crowded where
    /// the pass has fewer than two slots spare and each slot was seen not free.
    pub fn lock(&self, pass: &mut MutexPass<T>) -> Result<Locked<T>, AcquireError>
        requires belongs { Belongs self.now pass.old }
        requires ready { IsReady (pass_view pass.old).facts }
        ensures belongs { Belongs self.now pass.new }
        ensures locked { HasLocked (pass_view pass.old) result (pass_view pass.new) }
        ensures never_crowded { ample_of self.now.semaphore.queue ≡ true
            → ¬ IsErrOf result AcquireError.Crowded }
        ensures holds { LockedHolds result (pass_view pass.new) }
        ensures ready { IsReady (pass_view pass.new).facts }
    {
        match self.semaphore.acquire(pass) {
            Ok(Acquired::Now(permit)) => Ok(Locked::Now(self.take(pass, permit))),
            Ok(Acquired::Later(wait)) => Ok(Locked::Later(LockWait { wait })),
            Err(error) => Err(error),
        }
    }

    /// The guard where the mutex is free. It never waits.
    pub fn try_lock(&self, pass: &mut MutexPass<T>) -> TriedLock<T>
        requires belongs { Belongs self.now pass.old }
        requires ready { IsReady (pass_view pass.old).facts }
        ensures belongs { Belongs self.now pass.new }
        ensures tried { HasTried (pass_view pass.old) result (pass_view pass.new) }
        ensures holds { TriedHolds result (pass_view pass.new) }
        ensures ready { IsReady (pass_view pass.new).facts }
    {
        match self.semaphore.try_acquire(pass) {
            Tried::Got(permit) => TriedLock::Got(self.take(pass, permit)),
            Tried::Busy => TriedLock::Busy,
            Tried::Contended { saw, found } => TriedLock::Contended { saw, found },
        }
    }
}
