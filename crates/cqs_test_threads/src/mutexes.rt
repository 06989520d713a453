//! Threads add to a counter behind a mutex, which is a plain number and no atomic. Some of their
//! waits are given up and made again, and the sum is exact all the same.

ghost use Rattle.std.specs.Prelude.{◌≡◌, ◌<◌, Ok, IfSome};
ghost use Rattle.cqs_rule.specs.Passes.{pass_view};
ghost use Rattle.cqs_rule.specs.Waits.{HasWait};
ghost use Rattle.cqs_rule_laws.specs.CallRule.{IsReady};
ghost use Rattle.cqs_mutex.specs.Calls.{LockedHolds, Owes};
ghost use Rattle.cqs_mutex.specs.Guards.{wait_in};
ghost use Rattle.cqs_mutex.specs.Mutexes.{Belongs};
ghost use Rattle.cqs_test_threads.specs.Comes.{AreAtRest, HaveAdded, HoldsWith};

use cqs_mutex::{Guard, LockLeft, LockWait, Locked, Mutex, MutexPass, PolledLock};
use cqs_rule::{AcquireError, Config, Under};
use cqs_semaphore::Released;
use std::sync::Wait;
use std::thread::{self, Threads};

/// A pass for each of six threads.
const PASSES: u32 = 6;

/// The fewest slots for so many passes: they are used again.
const CONFIG: Config = Config {
    passes: PASSES,
    limit: 1 << 36,
    slots: 2 * PASSES + 2,
};

/// So often each thread adds 1.
const ROUNDS: u32 = 400;

/// In each third round a thread that has to wait leaves the line at once, and comes again.
const PATIENT_ROUNDS: u32 = 3;

/// Adds 1 in each round, and says in how many it did.
fn add_all<R: Wait>(rt: &R, mutex: &Mutex<u64>, pass: MutexPass<u64>) -> (MutexPass<u64>, u32)
    requires belongs { Belongs mutex.now pass }
    requires ready { IsReady (pass_view pass).facts }
    ensures belongs { Belongs mutex.now result.0 }
    ensures ready { IsReady (pass_view result.0).facts }
{
    let mut pass = pass;
    for round in 0..ROUNDS {
        match come(rt, mutex, &mut pass, round % PATIENT_ROUNDS != 0) {
            None => return (pass, round),
            Some(guard) => {
                let mut guard = guard;
                let count = guard.get_mut();
                *count = count.wrapping_add(1);
                leave(rt, mutex, &mut pass, guard);
            }
        }
    }
    (pass, ROUNDS)
}

/// The mutex, as soon as it comes; nothing where no further wait may be made.
fn come<R: Wait>(
    rt: &R,
    mutex: &Mutex<u64>,
    pass: &mut MutexPass<u64>,
    patient: bool,
) -> Option<Guard<u64>>
    requires belongs { Belongs mutex.now pass.old }
    requires ready { IsReady (pass_view pass.old).facts }
    ensures belongs { Belongs mutex.now pass.new }
    ensures ready { IsReady (pass_view pass.new).facts }
    ensures holds { HoldsWith result pass.new }
{
    match lock(rt, mutex, pass)? {
        Locked::Now(guard) => Some(guard),
        Locked::Later(wait) => {
            if patient {
                look_on(mutex, pass, wait)
            } else {
                come_again(rt, mutex, pass, wait)
            }
        }
    }
}

/// Locks, as soon as there are slots for that; nothing where no further wait may be made.
fn lock<R: Wait>(rt: &R, mutex: &Mutex<u64>, pass: &mut MutexPass<u64>) -> Option<Locked<u64>>
    requires belongs { Belongs mutex.now pass.old }
    requires ready { IsReady (pass_view pass.old).facts }
    ensures belongs { Belongs mutex.now pass.new }
    ensures ready { IsReady (pass_view pass.new).facts }
    ensures holds { IfSome result (λ locked. LockedHolds (Ok locked) (pass_view pass.new)) }
{
    for _ in rt.forever() {
        match mutex.lock(pass) {
            Ok(locked) => return Some(locked),
            Err(AcquireError::Worn) => return None,
            Err(AcquireError::Crowded) => thread::yield_now(),
        }
    }
    unreachable!()
}

/// Leaves the line, and waits anew where the mutex hadn't come.
fn come_again<R: Wait>(
    rt: &R,
    mutex: &Mutex<u64>,
    pass: &mut MutexPass<u64>,
    wait: LockWait,
) -> Option<Guard<u64>>
    requires belongs { Belongs mutex.now pass.old }
    requires ready { IsReady (pass_view pass.old).facts }
    requires has { HasWait (pass_view pass.old) (wait_in wait) }
    ensures belongs { Belongs mutex.now pass.new }
    ensures ready { IsReady (pass_view pass.new).facts }
    ensures holds { HoldsWith result pass.new }
{
    if let Some(guard) = give_up(rt, mutex, pass, wait) {
        return Some(guard);
    }
    match lock(rt, mutex, pass)? {
        Locked::Now(guard) => Some(guard),
        Locked::Later(wait) => look_on(mutex, pass, wait),
    }
}

/// Looks at the wait until the mutex has come.
fn look_on(mutex: &Mutex<u64>, pass: &mut MutexPass<u64>, wait: LockWait) -> Option<Guard<u64>>
    requires belongs { Belongs mutex.now pass.old }
    requires ready { IsReady (pass_view pass.old).facts }
    requires has { HasWait (pass_view pass.old) (wait_in wait) }
    ensures belongs { Belongs mutex.now pass.new }
    ensures ready { IsReady (pass_view pass.new).facts }
    ensures holds { HoldsWith result pass.new }
{
    let mut wait = wait;
    for _ in 0..u64::MAX {
        match mutex.poll(pass, wait) {
            PolledLock::Granted(guard) => return Some(guard),
            PolledLock::Pending(again) => {
                wait = again;
                thread::yield_now();
            }
        }
    }
    None
}

/// Leaves the line. There is a guard where the mutex had come before.
fn give_up<R: Wait>(
    rt: &R,
    mutex: &Mutex<u64>,
    pass: &mut MutexPass<u64>,
    wait: LockWait,
) -> Option<Guard<u64>>
    requires belongs { Belongs mutex.now pass.old }
    requires ready { IsReady (pass_view pass.old).facts }
    requires has { HasWait (pass_view pass.old) (wait_in wait) }
    ensures belongs { Belongs mutex.now pass.new }
    ensures ready { IsReady (pass_view pass.new).facts }
    ensures holds { HoldsWith result pass.new }
{
    match mutex.cancel(pass, wait) {
        LockLeft::Cancelled(None) => None,
        LockLeft::Cancelled(Some(under)) => {
            finish(rt, mutex, pass, under);
            None
        }
        LockLeft::TooLate(guard) => Some(guard),
    }
}

/// Gives the mutex back, as soon as there is a slot for that.
fn leave<R: Wait>(rt: &R, mutex: &Mutex<u64>, pass: &mut MutexPass<u64>, guard: Guard<u64>)
    requires belongs { Belongs mutex.now pass.old }
    requires ready { IsReady (pass_view pass.old).facts }
    requires holds { 0 < (pass_view pass.old).facts.has.held }
    ensures belongs { Belongs mutex.now pass.new }
    ensures ready { IsReady (pass_view pass.new).facts }
{
    let mut guard = guard;
    for _ in rt.forever() {
        match mutex.unlock(pass, guard) {
            Ok(Released::Under(under)) => return finish(rt, mutex, pass, under),
            Ok(_) => return,
            Err((back, _)) => {
                guard = back;
                thread::yield_now();
            }
        }
    }
    unreachable!()
}

/// More waiters had left than one call passes over, or there was no slot: goes on until the mutex
/// has arrived.
fn finish<R: Wait>(rt: &R, mutex: &Mutex<u64>, pass: &mut MutexPass<u64>, under: Under)
    requires belongs { Belongs mutex.now pass.old }
    requires owes { Owes under (pass_view pass.old) }
    ensures belongs { Belongs mutex.now pass.new }
    ensures ready { IsReady (pass_view pass.new).facts }
{
    let mut under = under;
    for _ in rt.forever() {
        match mutex.finish(pass, under) {
            Released::Under(again) => {
                under = again;
                thread::yield_now();
            }
            Released::Freed => return,
            Released::Sent(_) => return,
            Released::Left(_) => return,
            Released::Void(_) => return,
        }
    }
    unreachable!()
}

/// A pass that came back from its thread, and how often that added.
type Added = (MutexPass<u64>, u32);

/// Two threads add.
fn two<R: Threads + Wait + Sync>(
    rt: &R,
    mutex: &Mutex<u64>,
    passes: (MutexPass<u64>, MutexPass<u64>),
) -> (Added, Added)
    requires rest { AreAtRest mutex.now passes }
    ensures added { HaveAdded mutex.now result }
{
    let (first, second) = passes;
    thread::join(
        rt,
        || add_all(rt, mutex, first),
        || add_all(rt, mutex, second),
    )
}

/// And four.
fn four<R: Threads + Wait + Sync>(
    rt: &R,
    mutex: &Mutex<u64>,
    early: (MutexPass<u64>, MutexPass<u64>),
    late: (MutexPass<u64>, MutexPass<u64>),
) -> ((Added, Added), (Added, Added))
    requires early { AreAtRest mutex.now early }
    requires late { AreAtRest mutex.now late }
    ensures added { HaveAdded mutex.now result.0 }
    ensures added_too { HaveAdded mutex.now result.1 }
{
    thread::join(
        rt,
        ||
            requires { AreAtRest mutex.now early }
        { two(rt, mutex, early) },
        ||
            requires { AreAtRest mutex.now late }
        { two(rt, mutex, late) },
    )
}

/// The value of the mutex now, which is free.
fn value<R: Wait>(rt: &R, mutex: &Mutex<u64>, pass: &mut MutexPass<u64>) -> Option<u64>
    requires belongs { Belongs mutex.now pass.old }
    requires ready { IsReady (pass_view pass.old).facts }
    ensures belongs { Belongs mutex.now pass.new }
    ensures ready { IsReady (pass_view pass.new).facts }
{
    let guard = come(rt, mutex, pass, true)?;
    let value = *guard.get();
    leave(rt, mutex, pass, guard);
    Some(value)
}

/// Takes a pass in, and says whether it could.
fn take_in(mutex: &Mutex<u64>, pass: &mut MutexPass<u64>, given: MutexPass<u64>) -> bool
    requires belongs { Belongs mutex.now pass.old }
    requires ready { IsReady (pass_view pass.old).facts }
    requires given_belongs { Belongs mutex.now given }
    requires given_ready { IsReady (pass_view given).facts }
    ensures belongs { Belongs mutex.now pass.new }
    ensures ready { IsReady (pass_view pass.new).facts }
{
    mutex.meet(pass, given).is_ok()
}

/// Two threads add, and then four at a time.
pub fn run_mutexes<R: Threads + Wait + Sync + Print + AllocGlobal>(rt: &R) -> anyhow::Result<()> {
    let Ok((mutex, mut pass)) = Mutex::new(rt.alloc(), 0u64, CONFIG) else {
        anyhow::bail!("no memory for the mutex");
    };
    let Ok(first) = mutex.split(&mut pass) else {
        anyhow::bail!("no further pass may be made");
    };
    let Ok(second) = mutex.split(&mut pass) else {
        anyhow::bail!("no further pass may be made");
    };
    let Ok(third) = mutex.split(&mut pass) else {
        anyhow::bail!("no further pass may be made");
    };
    let Ok(fourth) = mutex.split(&mut pass) else {
        anyhow::bail!("no further pass may be made");
    };
    let ((first, _), (second, _)) = two(rt, &mutex, (first, second));
    if let Some(count) = value(rt, &mutex, &mut pass) {
        println!(rt; "2 threads added {ROUNDS} each: {count}")?;
    }
    let (((first, _), (second, _)), ((third, _), (fourth, _))) = four(
        rt,
        &mutex,
        (first, second),
        (third, fourth),
    );
    if let Some(count) = value(rt, &mutex, &mut pass) {
        println!(rt; "4 threads added {ROUNDS} each: {count}")?;
    }
    let first = take_in(&mutex, &mut pass, first);
    let second = take_in(&mutex, &mut pass, second);
    let third = take_in(&mutex, &mut pass, third);
    let fourth = take_in(&mutex, &mut pass, fourth);
    println!(rt;
        "all passes were taken in: {}",
        first && second && third && fourth
    )?;
    println!(rt; "one pass is left: {}", mutex.sole(&mut pass))?;
    Ok(())
}
