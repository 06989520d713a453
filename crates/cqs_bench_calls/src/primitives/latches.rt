//! Rounds of a latch of four: four threads count it down and wait for it. Each round has a latch of
//! its own, which was made before.

ghost use Rattle.std.specs.Arc.{arc_value};
ghost use Rattle.std.specs.Prelude.{All, IfOk, OnOk};
ghost use Rattle.cqs_bench_calls.specs.Four.{AllFour};
ghost use Rattle.cqs_bench_calls.specs.Idle.{IsIdleAtLatch, WaitsAtLatch};

use crate::primitives::waiting::{Four, Waiting};
use cqs_bench_rows::nanoseconds_since;
use cqs_latch::{Down, Latch, LatchPass, LatchPolled, LatchWait};
use cqs_rule::{CancelMode, Config, Wait};
use cqs_waiter::{Looks, wait_open};
use std::alloc::Global;
use std::rt::Clock;
use std::sync::{Arc, Wait as MayWait};
use std::thread::{self, Threads};
use std::time::Instant;

/// So many threads count a latch down.
pub const THREADS: u32 = 4;

/// A pass for each thread, and its wait.
const CONFIG: Config = Config {
    passes: THREADS,
    limit: 4,
    slots: 10,
};

/// A latch, and the pass by which one thread uses it.
type Seat = (Arc<Latch>, LatchPass);

// A latch, with the seats of four threads.
fn open(alloc: Global) -> anyhow::Result<Four<Seat>>
    ensures idle { IfOk result (AllFour (λ seat. IsIdleAtLatch (arc_value seat.0) seat.1)) }
{
    let Ok((latch, mut pass)) = Latch::new(alloc, THREADS, CancelMode::Smart, CONFIG) else {
        anyhow::bail!("no memory for the latch");
    };
    let first = hire(&latch, &mut pass)?;
    let second = hire(&latch, &mut pass)?;
    let third = hire(&latch, &mut pass)?;
    let latch = Arc::new(alloc, latch)?;
    let first = (Arc::try_clone(&latch)?, first);
    let second = (Arc::try_clone(&latch)?, second);
    let third = (Arc::try_clone(&latch)?, third);
    Ok(((first, second), (third, (latch, pass))))
}

// A new pass.
fn hire(latch: &Latch, pass: &mut LatchPass) -> anyhow::Result<LatchPass>
    requires idle { IsIdleAtLatch latch.now pass.old }
    ensures idle { IsIdleAtLatch latch.now pass.new }
    ensures hired { IfOk result (λ made. IsIdleAtLatch latch.now made) }
{
    match latch.split(pass) {
        Ok(made) => Ok(made),
        Err(_) => anyhow::bail!("no further pass may be made"),
    }
}

// Looks at the wait until it was served.
fn look_on(latch: &Latch, pass: &mut LatchPass, wait: Wait) -> bool
    requires waits { WaitsAtLatch latch.now wait pass.old }
{
    let mut wait = wait;
    let mut looks = Looks::new();
    for _ in 0..u64::MAX {
        match latch.poll(pass, wait) {
            LatchPolled::Through => return true,
            LatchPolled::Pending(again) => wait = again,
        }
        looks.go_on();
    }
    false
}

// Waits by looks until the latch is open.
fn wait_by_looks(latch: &Latch, pass: &mut LatchPass) -> bool
    requires idle { IsIdleAtLatch latch.now pass.old }
{
    match latch.wait(pass) {
        Ok(LatchWait::Passed) => true,
        Ok(LatchWait::Later(wait)) => look_on(latch, pass, wait),
        Err(_) => false,
    }
}

// Counts down, and waits until the latch is open. It answers whether all went as it should.
fn round<R: MayWait>(rt: &R, latch: &Latch, pass: &mut LatchPass, waiting: Waiting) -> bool
    requires idle { IsIdleAtLatch latch.now pass.old }
{
    match latch.count_down(pass) {
        Ok(Down::Left(_)) => {}
        Ok(Down::Last) => {}
        _ => return false,
    }
    match waiting {
        Waiting::Looks => wait_by_looks(latch, pass),
        Waiting::Sleeps => wait_open(rt, latch, pass).is_ok(),
    }
}

// The rounds of one thread.
fn rounds<R: MayWait>(rt: &R, seats: Vec<Seat>, waiting: Waiting) -> bool
    requires idle { All (λ seat. IsIdleAtLatch (arc_value seat.0) seat.1) seats.items }
{
    for (latch, pass) in seats {
        let mut pass = pass;
        if !round(rt, &latch, &mut pass, waiting) {
            return false;
        }
    }
    true
}

// One seat more.
fn add(seats: &mut Vec<Seat>, seat: Seat) -> anyhow::Result<()>
    requires idle { All (λ seat. IsIdleAtLatch (arc_value seat.0) seat.1) seats.old.items }
    requires seat { IsIdleAtLatch (arc_value seat.0) seat.1 }
    ensures idle { OnOk result
        (All (λ seat. IsIdleAtLatch (arc_value seat.0) seat.1) seats.new.items) }
{
    seats.push(seat)?;
    Ok(())
}

// What each thread has of so many latches.
fn open_all(alloc: Global, count: u64) -> anyhow::Result<Four<Vec<Seat>>>
    ensures idle { IfOk result (AllFour
        (λ seats. All (λ seat. IsIdleAtLatch (arc_value seat.0) seat.1) seats.items)) }
{
    let mut first = Vec::new(alloc);
    let mut second = Vec::new(alloc);
    let mut third = Vec::new(alloc);
    let mut fourth = Vec::new(alloc);
    for _ in 0..count {
        let ((a, b), (c, d)) = open(alloc)?;
        add(&mut first, a)?;
        add(&mut second, b)?;
        add(&mut third, c)?;
        add(&mut fourth, d)?;
    }
    Ok(((first, second), (third, fourth)))
}

// The rounds of two threads.
fn two<R: Threads + MayWait + Sync>(
    rt: &R,
    first: Vec<Seat>,
    second: Vec<Seat>,
    waiting: Waiting,
) -> bool
    requires first { All (λ seat. IsIdleAtLatch (arc_value seat.0) seat.1) first.items }
    requires second { All (λ seat. IsIdleAtLatch (arc_value seat.0) seat.1) second.items }
{
    let (first, second) = thread::join(
        rt,
        || rounds(rt, first, waiting),
        || rounds(rt, second, waiting),
    );
    first && second
}

/// The nanoseconds of so many rounds of four threads.
#[inline(never)]
pub fn time_crew<R: Clock + Threads + MayWait + Sync + AllocGlobal>(
    rt: &R,
    waiting: Waiting,
    count: u64,
) -> anyhow::Result<u64> {
    let ((first, second), (third, fourth)) = open_all(rt.alloc(), count)?;
    let start = Instant::now(rt)?;
    let (early, late) = thread::join(
        rt,
        ||
            requires { (All (λ seat. IsIdleAtLatch (arc_value seat.0) seat.1) first.items)
                × (All (λ seat. IsIdleAtLatch (arc_value seat.0) seat.1) second.items) }
        { two(rt, first, second, waiting) },
        ||
            requires { (All (λ seat. IsIdleAtLatch (arc_value seat.0) seat.1) third.items)
                × (All (λ seat. IsIdleAtLatch (arc_value seat.0) seat.1) fourth.items) }
        { two(rt, third, fourth, waiting) },
    );
    nanoseconds_since(rt, start, early && late)
}
