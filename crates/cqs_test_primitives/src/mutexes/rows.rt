//! One pass on a mutex, call by call.

ghost use Rattle.cqs_mutex.specs.Mutexes.{Belongs};
ghost use Rattle.cqs_rule.specs.Passes.{pass_view};
ghost use Rattle.cqs_rule_laws.specs.CallRule.{IsReady};

use cqs_mutex::{LockLeft, Locked, Mutex, MutexPass, TriedLock};
use cqs_rule::{Config, MakeError};
use cqs_semaphore::Released;
use std::process::Abort;
use std::test::Fail;

const CONFIG: Config = Config {
    passes: 1,
    limit: 4,
    slots: 4,
};

#[test]
fn mutex_of_five(rt: HostRuntime) -> Result<(), Fail> {
    let Ok((mutex, mut pass)) = Mutex::new(rt.alloc(), 5u64, CONFIG) else {
        return Ok(());
    };
    lock_wait_and_cancel(&rt, &mutex, &mut pass);
    Ok(())
}

// One pass locks, waits, unlocks for itself, and would leave too late.
fn lock_wait_and_cancel(rt: &impl Abort, mutex: &Mutex<u64>, pass: &mut MutexPass<u64>)
    requires belongs { Belongs mutex.now pass.old }
    requires ready { IsReady (pass_view pass.old).facts }
{
    let Ok(Locked::Now(mut guard)) = mutex.lock(pass) else {
        panic!(rt; "the mutex is free");
    };
    assert!(rt; *guard.get() == 5);
    *guard.get_mut() = 6;
    let Ok(Locked::Later(wait)) = mutex.lock(pass) else {
        panic!(rt; "the mutex is held");
    };
    assert!(rt; wait.number() == 0);
    let TriedLock::Busy = mutex.try_lock(pass) else {
        panic!(rt; "the mutex is held");
    };
    let Ok(Released::Sent(number)) = mutex.unlock(pass, guard) else {
        panic!(rt; "a caller waits");
    };
    assert!(rt; number == 0);
    let LockLeft::TooLate(guard) = mutex.cancel(pass, wait) else {
        panic!(rt; "the mutex had come");
    };
    assert!(rt; *guard.get() == 6);
    let Ok(Released::Freed) = mutex.unlock(pass, guard) else {
        panic!(rt; "nobody waits");
    };
}

#[test]
fn the_value_comes_back_where_no_mutex_is_made(rt: HostRuntime) -> Result<(), Fail> {
    let config = Config {
        passes: 33,
        limit: 4,
        slots: 68,
    };
    let Err((value, error)) = Mutex::new(rt.alloc(), 5u64, config) else {
        panic!(rt; "so many passes are out of range");
    };
    assert!(rt; value == 5);
    assert!(rt; error == MakeError::BadConfig);
    match Mutex::new(rt.alloc(), 5u64, CONFIG) {
        Ok(_) => {}
        Err((value, error)) => {
            assert!(rt; value == 5);
            assert!(rt; error == MakeError::Memory);
        }
    }
    Ok(())
}
