//! How a permit gets from one thread to another, and is never out of sight on its way: the giver
//! gives it until it is gone, and the taker comes until it is there.

ghost use Rattle.cqs_sync_semaphore.specs.Callers.{HasGiven, IsAtRest, IsWaiting};

use cqs_rule::Wait;
use cqs_semaphore::{Permit, Polled, SemPass};
use cqs_sync_semaphore::{SyncAcquired, SyncReleased, SyncSemaphore};
use std::sync::Wait as MayWait;
use std::thread::{self, Threads};

/// The giver and the taker have a thread each. Their passes come back, and the permit with the
/// taker's.
pub fn hand_over<R: Threads + MayWait + Sync>(
    rt: &R,
    semaphore: &SyncSemaphore,
    giver: SemPass,
    permit: Permit,
    taker: SemPass,
) -> (SemPass, (SemPass, Permit))
    requires giver { IsAtRest semaphore.now 1 giver }
    requires taker { IsAtRest semaphore.now 0 taker }
    ensures giver { IsAtRest semaphore.now 0 result.0 }
    ensures taker { IsAtRest semaphore.now 1 result.1.0 }
{
    thread::join(
        rt,
        || give(rt, semaphore, giver, permit),
        || take(rt, semaphore, taker),
    )
}

// Gives the permit as soon as somebody waits, and again where it comes back: its taker was late.
fn give<R: MayWait>(rt: &R, semaphore: &SyncSemaphore, giver: SemPass, permit: Permit) -> SemPass
    requires rest { IsAtRest semaphore.now 1 giver }
    ensures rest { IsAtRest semaphore.now 0 result }
{
    let mut giver = giver;
    await_taker(rt, semaphore, &mut giver);
    let mut given = release(rt, semaphore, &mut giver, permit);
    for _ in rt.forever() {
        thread::yield_now();
        match given {
            SyncReleased::Freed | SyncReleased::Sent(_) | SyncReleased::Void(_) => return giver,
            SyncReleased::Broke(_, permit) => {
                given = release(rt, semaphore, &mut giver, permit);
            }
            SyncReleased::Handling(_, under) | SyncReleased::Under(under) => {
                given = semaphore.finish(&mut giver, under);
            }
        }
    }
    unreachable!()
}

// Below 0 the state tells that somebody waits.
fn await_taker<R: MayWait>(rt: &R, semaphore: &SyncSemaphore, giver: &mut SemPass)
    requires rest { IsAtRest semaphore.now 1 giver.old }
    ensures rest { IsAtRest semaphore.now 1 giver.new }
{
    for _ in rt.forever() {
        if semaphore.state(giver) < 0 {
            return;
        }
        thread::yield_now();
    }
    unreachable!()
}

// Gives the permit as soon as a slot is free for that.
fn release<R: MayWait>(
    rt: &R,
    semaphore: &SyncSemaphore,
    giver: &mut SemPass,
    permit: Permit,
) -> SyncReleased
    requires rest { IsAtRest semaphore.now 1 giver.old }
    ensures given { HasGiven semaphore.now 0 result giver.new }
{
    let mut permit = permit;
    for _ in rt.forever() {
        match semaphore.release(giver, permit) {
            Ok(given) => return given,
            Err((back, _)) => permit = back,
        }
        thread::yield_now();
    }
    unreachable!()
}

// Acquires, and again where the number was broken: the taker was late.
fn take<R: MayWait>(rt: &R, semaphore: &SyncSemaphore, taker: SemPass) -> (SemPass, Permit)
    requires rest { IsAtRest semaphore.now 0 taker }
    ensures rest { IsAtRest semaphore.now 1 result.0 }
{
    let mut taker = taker;
    for _ in rt.forever() {
        match semaphore.acquire(&mut taker) {
            Ok(SyncAcquired::Now(permit)) => return (taker, permit),
            Ok(SyncAcquired::Later(wait)) => return look_for(rt, semaphore, taker, wait),
            Ok(SyncAcquired::Broke(_)) | Err(_) => thread::yield_now(),
        }
    }
    unreachable!()
}

// Looks at the wait until it is served.
fn look_for<R: MayWait>(
    rt: &R,
    semaphore: &SyncSemaphore,
    taker: SemPass,
    wait: Wait,
) -> (SemPass, Permit)
    requires waits { IsWaiting semaphore.now 0 wait taker }
    ensures rest { IsAtRest semaphore.now 1 result.0 }
{
    let mut taker = taker;
    let mut wait = wait;
    for _ in rt.forever() {
        match semaphore.poll(&mut taker, wait) {
            Polled::Granted(permit) => return (taker, permit),
            Polled::Pending(again) => wait = again,
        }
        thread::yield_now();
    }
    unreachable!()
}
