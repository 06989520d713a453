//! A call that comes back with the mutex.

ghost use Rattle.std.specs.Prelude.{◌≡◌, None};
ghost use Rattle.cqs_rule.specs.Passes.{pass_view};
ghost use Rattle.cqs_rule.specs.Waits.{HasWait};
ghost use Rattle.cqs_rule_laws.specs.CallRule.{IsReady};
ghost use Rattle.cqs_mutex.specs.Guards.{wait_in};
ghost use Rattle.cqs_mutex.specs.Mutexes.{Belongs};
ghost use Rattle.cqs_waiter.specs.Locks.{LockArrives};

use crate::looks::Looks;
use cqs_mutex::{Guard, LockWait, Locked, Mutex, MutexPass, PolledLock};
use cqs_rule::AcquireError;
use std::sync::Wait;

/// Locks, and where a wait came of that, looks a while and then may sleep until the mutex has come.
/// The thread parks on the cell of its wait; whoever serves the wait is to wake it. It is refused
/// as `lock` is, and then no wait was made.
pub fn lock_wait<R: Wait, T: Send + Drop>(
    rt: &R,
    mutex: &Mutex<T>,
    pass: &mut MutexPass<T>,
) -> Result<Guard<T>, AcquireError>
    requires belongs { Belongs mutex.now pass.old }
    requires ready { IsReady (pass_view pass.old).facts }
    ensures belongs { Belongs mutex.now pass.new }
    ensures ready { IsReady (pass_view pass.new).facts }
    ensures arrives { LockArrives (pass_view pass.old) None result (pass_view pass.new) }
{
    let mut wait = match mutex.lock(pass) {
        Ok(Locked::Later(wait)) => wait,
        Ok(Locked::Now(guard)) => return Ok(guard),
        Err(refused) => return Err(refused),
    };
    let mut looks = Looks::new();
    for _ in rt.forever() {
        match mutex.poll(pass, wait) {
            PolledLock::Granted(guard) => return Ok(guard),
            PolledLock::Pending(again) => wait = again,
        }
        pause(rt, mutex, pass, &wait, &mut looks);
    }
    unreachable!()
}

// Before the next look: a pause, or a sleep once the looks before it are used up.
fn pause<R: Wait, T: Send + Drop>(
    rt: &R,
    mutex: &Mutex<T>,
    pass: &mut MutexPass<T>,
    wait: &LockWait,
    looks: &mut Looks,
)
    requires belongs { Belongs mutex.now pass.old }
    requires has { HasWait (pass_view pass.old) (wait_in wait.now) }
    ensures same { pass.new ≡ pass.old }
{
    if !looks.once_more() {
        mutex.park_wait(rt, pass, wait);
    }
}
