//! How a permit is given back, until it is gone.

ghost use Rattle.std.specs.Prelude.{◌≡◌, ◌-◌, ◌<◌, IfOk, OnErr};
ghost use Rattle.cqs_sync_semaphore.specs.Callers.{HasGiven, IsAtRest};
ghost use Rattle.cqs_test_sync.specs.Callers.{end_of, held_by, HasPassed};

use crate::counts::{Counts, count};
use cqs_semaphore::{Permit, SemPass};
use cqs_sync_semaphore::{SyncReleased, SyncSemaphore, Under};
use std::sync::Wait;
use std::thread;

/// Gives the permit away, and again where it comes back, as soon as a slot is free for that.
pub fn give_back<R: Wait>(
    rt: &R,
    semaphore: &SyncSemaphore,
    pass: &mut SemPass,
    permit: Permit,
    counts: &mut Counts,
)
    requires rest { IsAtRest semaphore.now (held_by pass.old) pass.old }
    requires holds { 0 < held_by pass.old }
    ensures rest { IsAtRest semaphore.now (held_by pass.old - 1) pass.new }
{
    let mut permit = permit;
    for _ in rt.forever() {
        permit = match give_once(rt, semaphore, pass, permit, counts) {
            None => return,
            Some(back) => back,
        };
        thread::yield_now();
    }
    unreachable!()
}

// Gives it away once, and passes it on until it is gone, or back again. Who is about to leave gets
// time for that.
fn give_once<R: Wait>(
    rt: &R,
    semaphore: &SyncSemaphore,
    pass: &mut SemPass,
    permit: Permit,
    counts: &mut Counts,
) -> Option<Permit>
    requires rest { IsAtRest semaphore.now (held_by pass.old) pass.old }
    requires holds { 0 < held_by pass.old }
    ensures passed { HasPassed semaphore.now (held_by pass.old - 1) result pass.new }
{
    let mut given = match release(semaphore, pass, permit) {
        Ok(given) => given,
        Err(back) => return Some(back),
    };
    for _ in rt.forever() {
        match end_of(given, counts) {
            Ok(back) => return back,
            Err(under) => {
                thread::yield_now();
                given = semaphore.finish(pass, under);
            }
        }
    }
    unreachable!()
}

// The permit comes back where no slot is free.
fn release(
    semaphore: &SyncSemaphore,
    pass: &mut SemPass,
    permit: Permit,
) -> Result<SyncReleased, Permit>
    requires rest { IsAtRest semaphore.now (held_by pass.old) pass.old }
    requires holds { 0 < held_by pass.old }
    ensures given { IfOk result (λ given.
        HasGiven semaphore.now (held_by pass.old - 1) given pass.new) }
    ensures back { OnErr result (IsAtRest semaphore.now (held_by pass.old) pass.new) }
{
    match semaphore.release(pass, permit) {
        Ok(given) => Ok(given),
        Err((back, _)) => Err(back),
    }
}

// Whether the permit came back, or what is still to be passed on.
fn end_of(given: SyncReleased, counts: &mut Counts) -> Result<Option<Permit>, Under>
    ensures { result ≡ end_of given }
{
    match given {
        SyncReleased::Freed | SyncReleased::Void(_) => Ok(None),
        SyncReleased::Sent(_) => {
            count(&mut counts.sent);
            Ok(None)
        }
        SyncReleased::Broke(_, back) => {
            count(&mut counts.broke);
            Ok(Some(back))
        }
        SyncReleased::Handling(_, under) => {
            count(&mut counts.handling);
            Err(under)
        }
        SyncReleased::Under(under) => Err(under),
    }
}
