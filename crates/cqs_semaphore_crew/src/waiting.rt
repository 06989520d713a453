//! How a wait ends: by a look that finds it served, or by a cancel.

ghost use Rattle.std.specs.Prelude.{[], ◌∷◌};
ghost use Rattle.cqs_rule.specs.Passes.{pass_view};
ghost use Rattle.cqs_rule.specs.Waits.{place_of};
ghost use Rattle.cqs_semaphore.specs.Calls.{Course};
ghost use Rattle.cqs_semaphore_crew.specs.Sums.{KeepsCalls};
ghost use Rattle.cqs_semaphore_crew.specs.Tallies.{Adds, LooksUntil, WaitsUntil, given_up};
ghost use Rattle.cqs_semaphore.specs.Callers.{held_by, IsWaiting, HasLooked, HasEnded};

use crate::counts::{Counts, count};
use crate::giving::finish_all;
use cqs_rule::Wait;
use cqs_semaphore::{CancelAnswer, Permit, Polled, SemPass, Semaphore};
use std::sync::Wait as MayWait;
use std::thread;

// A worker looks so often at a wait before it gives it up.
const LOOKS: u32 = 64;

// Looks at the wait until it was served, but no more than 64 times. Between two looks another
// thread may run.
fn look_on(semaphore: &Semaphore, pass: &mut SemPass, wait: Wait, counts: &mut Counts) -> Polled
    requires waits { IsWaiting semaphore.now (held_by pass.old) wait pass.old }
    ensures looked { HasLooked semaphore.now (held_by pass.old) result pass.new }
    ensures adds { Adds 0 0 (pass_view pass.old) counts.old (pass_view pass.new) counts.new }
    ensures keeps { KeepsCalls counts.old counts.new }
    ensures looks { LooksUntil (place_of wait).index (pass_view pass.old) result
        (pass_view pass.new) }
{
    let mut wait = wait;
    for _ in 0..LOOKS {
        match semaphore.poll(pass, wait) {
            Polled::Granted(permit) => {
                count(&mut counts.polls.granted);
                return Polled::Granted(permit);
            }
            Polled::Pending(again) => {
                count(&mut counts.polls.pending);
                wait = again;
                thread::yield_now();
            }
        }
    }
    Polled::Pending(wait)
}

/// Looks at the wait for a while, and then gives it up.
pub fn wait_for<R: MayWait>(
    rt: &R,
    semaphore: &Semaphore,
    pass: &mut SemPass,
    wait: Wait,
    counts: &mut Counts,
) -> Option<Permit>
    requires waits { IsWaiting semaphore.now (held_by pass.old) wait pass.old }
    ensures ended { HasEnded semaphore.now (held_by pass.old) result pass.new }
    ensures adds { Adds 0 0 (pass_view pass.old) counts.old (pass_view pass.new) counts.new }
    ensures keeps { KeepsCalls counts.old counts.new }
    ensures by { WaitsUntil (place_of wait).index (pass_view pass.old) result
        (pass_view pass.new) }
{
    match look_on(semaphore, pass, wait, counts) {
        Polled::Granted(permit) => Some(permit),
        Polled::Pending(wait) => give_up(rt, semaphore, pass, wait, counts),
    }
}

/// Gives the wait up. There is a permit where it had come before.
pub fn give_up<R: MayWait>(
    rt: &R,
    semaphore: &Semaphore,
    pass: &mut SemPass,
    wait: Wait,
    counts: &mut Counts,
) -> Option<Permit>
    requires waits { IsWaiting semaphore.now (held_by pass.old) wait pass.old }
    ensures ended { HasEnded semaphore.now (held_by pass.old) result pass.new }
    ensures adds { Adds 0 0 (pass_view pass.old) counts.old (pass_view pass.new) counts.new }
    ensures keeps { KeepsCalls counts.old counts.new }
    ensures by { Course (pass_view pass.old)
        (given_up (pass_view pass.old).number (place_of wait).index result ∷ [])
        (pass_view pass.new) }
{
    match semaphore.cancel(pass, wait) {
        CancelAnswer::Cancelled(None) => {
            count(&mut counts.cancels.cancelled);
            None
        }
        CancelAnswer::Cancelled(Some(under)) => {
            count(&mut counts.cancels.owing);
            finish_all(rt, semaphore, pass, under, counts);
            None
        }
        CancelAnswer::TooLate(permit) => {
            count(&mut counts.cancels.too_late);
            Some(permit)
        }
    }
}
