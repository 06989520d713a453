//! What one thread does with its pass.

ghost use Rattle.cqs_rule.specs.Owed.{HasUnder};
ghost use Rattle.cqs_rule.specs.Passes.{pass_view};
ghost use Rattle.cqs_semaphore.specs.Calls.{IsMine};
ghost use Rattle.std.specs.Prelude.{◌≡◌, IfSome};
ghost use Rattle.cqs_semaphore.specs.Callers.{IsHolder, IsIdle};

use cqs_rule::{AcquireError, Under};
use cqs_semaphore::{Permit, Released, SemPass, Semaphore};
use cqs_waiter::acquire_wait;
use std::sync::Wait;
use std::{hint, thread};

/// So many pauses of the processor are made while a permit is held: twice as many as a caller makes
/// between its looks.
const PAUSES: u32 = 4096;

/// Sleeps for a permit so often, and gives it back each time after other threads may have run, and
/// have come to sleep. It answers how often one came.
pub fn sleep_all<R: Wait>(
    rt: &R,
    semaphore: &Semaphore,
    pass: SemPass,
    rounds: u32,
) -> (SemPass, u64)
    requires { IsIdle semaphore.now pass }
    ensures { IsIdle semaphore.now result.0 }
{
    let mut pass = pass;
    let mut came = 0u64;
    for _ in 0..rounds {
        if let Some(permit) = come(rt, semaphore, &mut pass) {
            came = came.saturating_add(1);
            stay();
            give_back(rt, semaphore, &mut pass, permit);
        }
    }
    (pass, came)
}

// Lets others run, and those who wait come to sleep.
fn stay() {
    thread::yield_now();
    for _ in 0..PAUSES {
        hint::spin_loop();
    }
}

// Sleeps until a permit comes, and comes again where no slot was free for its wait. There is none
// where no further number may be drawn.
fn come<R: Wait>(rt: &R, semaphore: &Semaphore, pass: &mut SemPass) -> Option<Permit>
    requires idle { IsIdle semaphore.now pass.old }
    ensures idle { IsIdle semaphore.now pass.new }
    ensures holder { IfSome result (λ _. IsHolder semaphore.now pass.new) }
{
    for _ in rt.forever() {
        match acquire_wait(rt, semaphore, pass) {
            Ok(permit) => return Some(permit),
            Err(AcquireError::Worn) => return None,
            Err(AcquireError::Crowded) => thread::yield_now(),
        }
    }
    unreachable!()
}

/// Gives a permit back, as soon as a slot is free for that.
pub fn give_back<R: Wait>(rt: &R, semaphore: &Semaphore, pass: &mut SemPass, permit: Permit)
    requires holder { IsHolder semaphore.now pass.old }
    ensures idle { IsIdle semaphore.now pass.new }
{
    let mut permit = permit;
    for _ in rt.forever() {
        match semaphore.release(pass, permit) {
            Ok(Released::Under(under)) => return finish(rt, semaphore, pass, under),
            Ok(_) => return,
            Err((back, _)) => {
                permit = back;
                thread::yield_now();
            }
        }
    }
    unreachable!()
}

// More waiters had left than one call passes over, or there was no slot: goes on until the permit
// has arrived.
fn finish<R: Wait>(rt: &R, semaphore: &Semaphore, pass: &mut SemPass, under: Under)
    requires belongs { IsMine semaphore.now pass.old }
    requires owes { HasUnder (pass_view pass.old).facts under }
    requires further { (pass_view pass.old).facts.has.further ≡ 0 }
    ensures idle { IsIdle semaphore.now pass.new }
{
    let mut under = under;
    for _ in rt.forever() {
        match semaphore.finish(pass, under) {
            Released::Under(again) => under = again,
            Released::Freed => return,
            Released::Sent(_) => return,
            Released::Left(_) => return,
            Released::Void(_) => return,
        }
    }
    unreachable!()
}
