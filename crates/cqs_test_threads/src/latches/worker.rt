//! What one thread does with its pass.

ghost use Rattle.std.specs.Prelude.{◌≡◌};
ghost use Rattle.cqs_latch.specs.Calls.{IsMine};
ghost use Rattle.cqs_latch.specs.Owed.{HasOwed};
ghost use Rattle.cqs_test_threads.specs.Rest.{IsAtRest, IsWaiting};
ghost use Rattle.cqs_rule.specs.Passes.{pass_view};

use cqs_latch::{Down, Latch, LatchLeft, LatchPass, LatchPolled, LatchWait, Owed};
use cqs_rule::{AcquireError, Wait};
use std::sync::Wait as MayWait;
use std::thread;

/// Before a count down other threads may run so often.
const PAUSES: u32 = 16;

/// What a thread is to do.
#[derive(Clone, Copy, Drop)]
pub enum Job {
    /// It counts down once.
    Counts,
    /// It waits until it passes.
    Waits,
    /// It waits, and gives the wait up at once.
    Leaves,
}

/// How that ended.
#[derive(Clone, Copy, Drop)]
pub enum Ending {
    Counted,
    Passed,
    Left,
    /// No number could be drawn for the wait.
    Worn,
}

/// Does the job, and hands the pass back.
pub fn work<R: MayWait>(rt: &R, latch: &Latch, pass: LatchPass, job: Job) -> (LatchPass, Ending)
    requires rest { IsAtRest latch.now pass }
    ensures rest { IsAtRest latch.now result.0 }
{
    let mut pass = pass;
    let ending = match job {
        Job::Counts => count(rt, latch, &mut pass),
        Job::Waits => wait(rt, latch, &mut pass, true),
        Job::Leaves => wait(rt, latch, &mut pass, false),
    };
    (pass, ending)
}

// Lets others run.
fn pause() {
    for _ in 0..PAUSES {
        thread::yield_now();
    }
}

// Counts down once, after a while, as soon as there is a slot for that.
fn count<R: MayWait>(rt: &R, latch: &Latch, pass: &mut LatchPass) -> Ending
    requires rest { IsAtRest latch.now pass.old }
    ensures rest { IsAtRest latch.now pass.new }
{
    pause();
    for _ in rt.forever() {
        match latch.count_down(pass) {
            Ok(Down::Left(_)) => return Ending::Counted,
            Ok(Down::Last) => return Ending::Counted,
            Ok(Down::LastOwing(owed)) => {
                finish(rt, latch, pass, owed);
                return Ending::Counted;
            }
            Ok(Down::Already) => return Ending::Counted,
            Err(_) => thread::yield_now(),
        }
    }
    unreachable!()
}

// Goes on until all that is owed is done, also where it was handed back for want of a slot.
fn finish<R: MayWait>(rt: &R, latch: &Latch, pass: &mut LatchPass, owed: Owed)
    requires belongs { IsMine latch.now pass.old }
    requires owes { HasOwed (pass_view pass.old).facts owed }
    ensures rest { IsAtRest latch.now pass.new }
{
    let mut owed = owed;
    for _ in rt.forever() {
        match latch.finish(pass, owed) {
            Ok(()) => return,
            Err(again) => {
                owed = again;
                thread::yield_now();
            }
        }
    }
    unreachable!()
}

// Waits until it passes, or gives the wait up at once. It comes again where there were no slots for
// its wait.
fn wait<R: MayWait>(rt: &R, latch: &Latch, pass: &mut LatchPass, patient: bool) -> Ending
    requires rest { IsAtRest latch.now pass.old }
    ensures rest { IsAtRest latch.now pass.new }
{
    for _ in rt.forever() {
        match latch.wait(pass) {
            Ok(LatchWait::Passed) => return Ending::Passed,
            Ok(LatchWait::Later(wait)) => {
                return if patient {
                    look_on(rt, latch, pass, wait)
                } else {
                    leave(rt, latch, pass, wait)
                };
            }
            Err(AcquireError::Worn) => return Ending::Worn,
            Err(AcquireError::Crowded) => thread::yield_now(),
        }
    }
    unreachable!()
}

// Looks at the wait until it passes. Between two looks other threads may run.
fn look_on<R: MayWait>(rt: &R, latch: &Latch, pass: &mut LatchPass, wait: Wait) -> Ending
    requires waits { IsWaiting latch.now wait pass.old }
    ensures rest { IsAtRest latch.now pass.new }
{
    let mut wait = wait;
    for _ in 0..u64::MAX {
        match latch.poll(pass, wait) {
            LatchPolled::Through => return Ending::Passed,
            LatchPolled::Pending(again) => {
                wait = again;
                thread::yield_now();
            }
        }
    }
    leave(rt, latch, pass, wait)
}

// Gives the wait up, which may come too late.
fn leave<R: MayWait>(rt: &R, latch: &Latch, pass: &mut LatchPass, wait: Wait) -> Ending
    requires waits { IsWaiting latch.now wait pass.old }
    ensures rest { IsAtRest latch.now pass.new }
{
    match latch.cancel(pass, wait) {
        LatchLeft::Gone => Ending::Left,
        LatchLeft::GoneOwing(owed) => {
            finish(rt, latch, pass, owed);
            Ending::Left
        }
        LatchLeft::TooLate => Ending::Passed,
    }
}
