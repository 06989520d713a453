//! What a worker does with its pass, round for round.

ghost use Rattle.cqs_rule.specs.Passes.{pass_view};
ghost use Rattle.cqs_semaphore.specs.Permits.{number_of};
ghost use Rattle.cqs_semaphore_crew.specs.Sums.{CountsCalls, CountsRounds};
ghost use Rattle.cqs_semaphore_crew.specs.Tallies.{Adds, CountsNow, HasWorked};
ghost use Rattle.cqs_semaphore.specs.Callers.{held_by, IsAtRest, HasEnded};

use crate::counts::{Acquires, Counts, count, none_yet};
use crate::giving::give_back;
use crate::waiting::{give_up, wait_for};
use cqs_rule::AcquireError;
use cqs_semaphore::{Acquired, Permit, SemPass, Semaphore, Tried};
use std::sync::Wait;
use std::thread;

// While a worker has a permit, other threads may run so often.
const PAUSES: u32 = 16;

/// Makes so many rounds: in each the worker acquires and gives back, and tries and gives back. It
/// gives every third of its waits up at once, in every other hundred of rounds all of them, and
/// each other one if some looks don't find it served. An acquire that is crowded is one of a round.
pub fn work<R: Wait>(rt: &R, semaphore: &Semaphore, pass: SemPass, rounds: u32) -> (SemPass, Counts)
    requires rest { IsAtRest semaphore.now (held_by pass) pass }
    ensures rest { IsAtRest semaphore.now (held_by pass) result.0 }
    ensures worked { HasWorked (pass_view pass) (pass_view result.0) result.1 }
    ensures rounds { CountsRounds rounds result.1 }
{
    let mut pass = pass;
    let mut counts = none_yet();
    for round in 0..rounds {
        let hasty = round % 3 == 0 || round / 100 % 2 == 1;
        acquire_once(rt, semaphore, &mut pass, hasty, &mut counts);
        try_once(rt, semaphore, &mut pass, &mut counts);
    }
    (pass, counts)
}

// Acquires, and gives back what came, after a while.
fn acquire_once<R: Wait>(
    rt: &R,
    semaphore: &Semaphore,
    pass: &mut SemPass,
    hasty: bool,
    counts: &mut Counts,
)
    requires rest { IsAtRest semaphore.now (held_by pass.old) pass.old }
    ensures rest { IsAtRest semaphore.now (held_by pass.old) pass.new }
    ensures adds { Adds 0 0 (pass_view pass.old) counts.old (pass_view pass.new) counts.new }
    ensures calls { CountsCalls 1 0 counts.old counts.new }
{
    if let Some(permit) = seek(rt, semaphore, pass, hasty, counts) {
        for _ in 0..PAUSES {
            thread::yield_now();
        }
        give_back(rt, semaphore, pass, permit, counts);
    }
}

// Acquires: a permit, or none where the wait was given up, where no further number may be drawn, or
// where no slot was free.
fn seek<R: Wait>(
    rt: &R,
    semaphore: &Semaphore,
    pass: &mut SemPass,
    hasty: bool,
    counts: &mut Counts,
) -> Option<Permit>
    requires rest { IsAtRest semaphore.now (held_by pass.old) pass.old }
    ensures ended { HasEnded semaphore.now (held_by pass.old) result pass.new }
    ensures adds { Adds 0 0 (pass_view pass.old) counts.old (pass_view pass.new) counts.new }
    ensures calls { CountsCalls 1 0 counts.old counts.new }
{
    match semaphore.acquire(pass) {
        Ok(Acquired::Now(permit)) => {
            count_now(&permit, &mut counts.acquires);
            Some(permit)
        }
        Ok(Acquired::Later(wait)) => {
            count(&mut counts.acquires.waited);
            if hasty {
                return give_up(rt, semaphore, pass, wait, counts);
            }
            wait_for(rt, semaphore, pass, wait, counts)
        }
        Err(AcquireError::Worn) => {
            count(&mut counts.acquires.worn);
            None
        }
        Err(AcquireError::Crowded) => {
            count(&mut counts.acquires.crowded);
            None
        }
    }
}

// Counts a permit that came at once: it was free, or had been left at the number that was drawn.
fn count_now(permit: &Permit, acquires: &mut Acquires)
    ensures { CountsNow (number_of permit.now) acquires.old acquires.new }
{
    match permit.number() {
        None => count(&mut acquires.free),
        Some(_) => count(&mut acquires.took),
    }
}

// Tries, and gives back what came.
fn try_once<R: Wait>(rt: &R, semaphore: &Semaphore, pass: &mut SemPass, counts: &mut Counts)
    requires rest { IsAtRest semaphore.now (held_by pass.old) pass.old }
    ensures rest { IsAtRest semaphore.now (held_by pass.old) pass.new }
    ensures adds { Adds 0 0 (pass_view pass.old) counts.old (pass_view pass.new) counts.new }
    ensures calls { CountsCalls 0 1 counts.old counts.new }
{
    match semaphore.try_acquire(pass) {
        Tried::Got(permit) => {
            count(&mut counts.tries.got);
            give_back(rt, semaphore, pass, permit, counts);
        }
        Tried::Busy => count(&mut counts.tries.busy),
        Tried::Contended { .. } => count(&mut counts.tries.contended),
    }
}
