//! Eight threads on one latch.

ghost use Rattle.std.specs.Prelude.{IfOk};
ghost use Rattle.cqs_test_threads.specs.Rest.{AreAtRest, FourAreAtRest, HaveWorked, IsAtRest};

use crate::latches::worker::{Ending, Job, work};
use cqs_latch::{Latch, LatchPass};
use cqs_rule::Crowd;
use std::sync::Wait;
use std::thread::{self, Threads};

/// How often each ending came.
#[derive(Clone, Copy, Default, Drop)]
pub struct Sums {
    pub counted: u32,
    /// Waits that passed or were given up.
    pub ended: u32,
    /// Waits that were refused, and passes that couldn't be met again.
    pub otherwise: u32,
}

impl Sums {
    /// The sums of both.
    pub fn with(self, other: Sums) -> Sums {
        Sums {
            counted: self.counted.saturating_add(other.counted),
            ended: self.ended.saturating_add(other.ended),
            otherwise: self.otherwise.saturating_add(other.otherwise),
        }
    }

    fn of(ending: Ending) -> Sums {
        match ending {
            Ending::Counted => Sums {
                counted: 1,
                ended: 0,
                otherwise: 0,
            },
            Ending::Passed | Ending::Left => Sums {
                counted: 0,
                ended: 1,
                otherwise: 0,
            },
            Ending::Worn => Sums {
                counted: 0,
                ended: 0,
                otherwise: 1,
            },
        }
    }
}

/// The passes of four threads.
type Four = ((LatchPass, LatchPass), (LatchPass, LatchPass));

/// Four threads count the latch down, and four wait for it, in the round of this number; then their
/// passes meet this one.
pub fn together<R: Threads + Wait + Sync>(
    rt: &R,
    latch: &Latch,
    pass: &mut LatchPass,
    round: u32,
) -> Result<Sums, Crowd>
    requires rest { IsAtRest latch.now pass.old }
    ensures rest { IsAtRest latch.now pass.new }
{
    let counters = hire_four(latch, pass)?;
    let waiters = hire_four(latch, pass)?;
    let early = (waits_in(round, 0), waits_in(round, 1));
    let late = (waits_in(round, 2), waits_in(round, 3));
    let (counted, waited) = work_eight(rt, latch, counters, waiters, early, late);
    let counted = dismiss_four(latch, pass, counted);
    Ok(counted.with(dismiss_four(latch, pass, waited)))
}

// What two of those do who count down.
fn counts() -> (Job, Job) {
    (Job::Counts, Job::Counts)
}

// What the waiter of this number does: one in three gives its wait up.
fn waits_in(round: u32, number: u32) -> Job {
    if number == round % 3 || number == round % 3 + 3 {
        Job::Leaves
    } else {
        Job::Waits
    }
}

// Two new passes.
fn hire_two(latch: &Latch, pass: &mut LatchPass) -> Result<(LatchPass, LatchPass), Crowd>
    requires rest { IsAtRest latch.now pass.old }
    ensures rest { IsAtRest latch.now pass.new }
    ensures hired { IfOk result (AreAtRest latch.now) }
{
    let first = latch.split(pass)?;
    let second = latch.split(pass)?;
    Ok((first, second))
}

// And four.
fn hire_four(latch: &Latch, pass: &mut LatchPass) -> Result<Four, Crowd>
    requires rest { IsAtRest latch.now pass.old }
    ensures rest { IsAtRest latch.now pass.new }
    ensures hired { IfOk result (FourAreAtRest latch.now) }
{
    let first = hire_two(latch, pass)?;
    let second = hire_two(latch, pass)?;
    Ok((first, second))
}

/// A pass that came back from its job, and how that ended.
type Worked = (LatchPass, Ending);

// Two threads, each with its job.
fn work_two<R: Threads + Wait + Sync>(
    rt: &R,
    latch: &Latch,
    passes: (LatchPass, LatchPass),
    jobs: (Job, Job),
) -> (Worked, Worked)
    requires rest { AreAtRest latch.now passes }
    ensures worked { HaveWorked latch.now result }
{
    let (first, second) = passes;
    let (one, other) = jobs;
    thread::join(
        rt,
        || work(rt, latch, first, one),
        || work(rt, latch, second, other),
    )
}

// And four.
fn work_four<R: Threads + Wait + Sync>(
    rt: &R,
    latch: &Latch,
    passes: Four,
    early: (Job, Job),
    late: (Job, Job),
) -> ((Worked, Worked), (Worked, Worked))
    requires rest { FourAreAtRest latch.now passes }
    ensures worked { HaveWorked latch.now result.0 }
    ensures worked_too { HaveWorked latch.now result.1 }
{
    let (first, second) = passes;
    thread::join(
        rt,
        ||
            requires { AreAtRest latch.now first }
        { work_two(rt, latch, first, early) },
        ||
            requires { AreAtRest latch.now second }
        { work_two(rt, latch, second, late) },
    )
}

// Four count down, and four wait.
fn work_eight<R: Threads + Wait + Sync>(
    rt: &R,
    latch: &Latch,
    counters: Four,
    waiters: Four,
    early: (Job, Job),
    late: (Job, Job),
) -> (
    ((Worked, Worked), (Worked, Worked)),
    ((Worked, Worked), (Worked, Worked)),
)
    requires rest { FourAreAtRest latch.now counters }
    requires waiters_rest { FourAreAtRest latch.now waiters }
    ensures worked { HaveWorked latch.now result.0.0 }
    ensures worked_too { HaveWorked latch.now result.0.1 }
    ensures waited { HaveWorked latch.now result.1.0 }
    ensures waited_too { HaveWorked latch.now result.1.1 }
{
    thread::join(
        rt,
        ||
            requires { FourAreAtRest latch.now counters }
        { work_four(rt, latch, counters, counts(), counts()) },
        ||
            requires { FourAreAtRest latch.now waiters }
        { work_four(rt, latch, waiters, early, late) },
    )
}

// Takes four passes in again, and adds up how they ended.
fn dismiss_four(
    latch: &Latch,
    pass: &mut LatchPass,
    worked: ((Worked, Worked), (Worked, Worked)),
) -> Sums
    requires rest { IsAtRest latch.now pass.old }
    requires worked { HaveWorked latch.now worked.0 }
    requires worked_too { HaveWorked latch.now worked.1 }
    ensures rest { IsAtRest latch.now pass.new }
{
    let ((first, second), (third, fourth)) = worked;
    let early = dismiss(latch, pass, first).with(dismiss(latch, pass, second));
    let late = dismiss(latch, pass, third).with(dismiss(latch, pass, fourth));
    early.with(late)
}

// Takes a pass in, if it waits for nothing, and counts how it ended.
fn dismiss(latch: &Latch, pass: &mut LatchPass, worked: Worked) -> Sums
    requires rest { IsAtRest latch.now pass.old }
    requires worked { IsAtRest latch.now worked.0 }
    ensures rest { IsAtRest latch.now pass.new }
{
    let (given, ending) = worked;
    let mut sums = Sums::of(ending);
    if latch.meet(pass, given).is_err() {
        sums.otherwise = sums.otherwise.saturating_add(1);
    }
    sums
}
