//! Rounds of a barrier of four: four threads arrive and wait for the last. Each round has a barrier
//! of its own, which was made before.

ghost use Rattle.std.specs.Arc.{arc_value};
ghost use Rattle.std.specs.Prelude.{◌<◌, All, IfOk, OnOk};
ghost use Rattle.cqs_rule.specs.Passes.{pass_view};
ghost use Rattle.cqs_bench_calls.specs.Four.{AllFour};
ghost use Rattle.cqs_bench_calls.specs.Idle.{IsIdleAtBarrier, WaitsAtBarrier};

use crate::primitives::waiting::{Four, Waiting};
use cqs_barrier::{Arrived, Barrier, BarrierPass, PartyPolled, PartyWait};
use cqs_bench_rows::nanoseconds_since;
use cqs_rule::Config;
use cqs_waiter::{Looks, Passage, arrive_wait};
use std::alloc::Global;
use std::rt::Clock;
use std::sync::{Arc, Wait};
use std::thread::{self, Threads};
use std::time::Instant;

/// So many threads arrive at a barrier.
pub const THREADS: u32 = 4;

/// A pass for each thread, and its wait.
const CONFIG: Config = Config {
    passes: THREADS,
    limit: 4,
    slots: 10,
};

/// A barrier, and the pass by which one thread arrives at it.
type Seat = (Arc<Barrier>, BarrierPass);

// A barrier, with the seats of four threads.
fn open(alloc: Global) -> anyhow::Result<Four<Seat>>
    ensures idle { IfOk result (AllFour (λ seat. IsIdleAtBarrier (arc_value seat.0) seat.1)) }
{
    let Ok((barrier, mut pass)) = Barrier::new(alloc, THREADS, CONFIG) else {
        anyhow::bail!("no memory for the barrier");
    };
    let first = hire(&barrier, &mut pass)?;
    let second = hire(&barrier, &mut pass)?;
    let third = hire(&barrier, &mut pass)?;
    let barrier = Arc::new(alloc, barrier)?;
    let first = (Arc::try_clone(&barrier)?, first);
    let second = (Arc::try_clone(&barrier)?, second);
    let third = (Arc::try_clone(&barrier)?, third);
    Ok(((first, second), (third, (barrier, pass))))
}

// A new pass, which has one of the parties.
fn hire(barrier: &Barrier, pass: &mut BarrierPass) -> anyhow::Result<BarrierPass>
    requires idle { IsIdleAtBarrier barrier.now pass.old }
    ensures idle { IsIdleAtBarrier barrier.now pass.new }
    ensures hired { IfOk result (λ made. IsIdleAtBarrier barrier.now made) }
{
    if pass.held() == 0 {
        anyhow::bail!("no party is left");
    }
    match barrier.split(pass, 1) {
        Ok(made) => Ok(made),
        Err(_) => anyhow::bail!("no further pass may be made"),
    }
}

// Looks at the wait until it was served.
fn look_on(barrier: &Barrier, pass: &mut BarrierPass, wait: PartyWait) -> bool
    requires waits { WaitsAtBarrier barrier.now wait pass.old }
{
    let mut wait = wait;
    let mut looks = Looks::new();
    for _ in 0..u64::MAX {
        match barrier.poll(pass, wait) {
            PartyPolled::Through => return true,
            PartyPolled::Pending(again) => wait = again,
        }
        looks.go_on();
    }
    false
}

// Arrives, and waits for the last by looks.
fn arrive_by_looks(barrier: &Barrier, pass: &mut BarrierPass) -> bool
    requires idle { IsIdleAtBarrier barrier.now pass.old }
    requires holds { 0 < (pass_view pass.old).facts.has.held }
{
    match barrier.arrive(pass) {
        Ok(Arrived::Last) => true,
        Ok(Arrived::Later(wait)) => look_on(barrier, pass, wait),
        _ => false,
    }
}

// Arrives, and waits for the last. It answers whether all went as it should.
fn round<R: Wait>(rt: &R, barrier: &Barrier, pass: &mut BarrierPass, waiting: Waiting) -> bool
    requires idle { IsIdleAtBarrier barrier.now pass.old }
{
    if pass.held() == 0 {
        return false;
    }
    match waiting {
        Waiting::Looks => arrive_by_looks(barrier, pass),
        Waiting::Sleeps => matches!(arrive_wait(rt, barrier, pass), Ok(Passage::Through)),
    }
}

// The rounds of one thread.
fn rounds<R: Wait>(rt: &R, seats: Vec<Seat>, waiting: Waiting) -> bool
    requires idle { All (λ seat. IsIdleAtBarrier (arc_value seat.0) seat.1) seats.items }
{
    for (barrier, pass) in seats {
        let mut pass = pass;
        if !round(rt, &barrier, &mut pass, waiting) {
            return false;
        }
    }
    true
}

// One seat more.
fn add(seats: &mut Vec<Seat>, seat: Seat) -> anyhow::Result<()>
    requires idle { All (λ seat. IsIdleAtBarrier (arc_value seat.0) seat.1) seats.old.items }
    requires seat { IsIdleAtBarrier (arc_value seat.0) seat.1 }
    ensures idle { OnOk result
        (All (λ seat. IsIdleAtBarrier (arc_value seat.0) seat.1) seats.new.items) }
{
    seats.push(seat)?;
    Ok(())
}

// What each thread has of so many barriers.
fn open_all(alloc: Global, count: u64) -> anyhow::Result<Four<Vec<Seat>>>
    ensures idle { IfOk result (AllFour
        (λ seats. All (λ seat. IsIdleAtBarrier (arc_value seat.0) seat.1) seats.items)) }
{
    let mut first = Vec::new(alloc);
    let mut second = Vec::new(alloc);
    let mut third = Vec::new(alloc);
    let mut fourth = Vec::new(alloc);
    for _ in 0..count {
        let ((a, b), (c, d)) = open(alloc)?;
        add(&mut first, a)?;
        add(&mut second, b)?;
        add(&mut third, c)?;
        add(&mut fourth, d)?;
    }
    Ok(((first, second), (third, fourth)))
}

// The rounds of two threads.
fn two<R: Threads + Wait + Sync>(
    rt: &R,
    first: Vec<Seat>,
    second: Vec<Seat>,
    waiting: Waiting,
) -> bool
    requires first { All (λ seat. IsIdleAtBarrier (arc_value seat.0) seat.1) first.items }
    requires second { All (λ seat. IsIdleAtBarrier (arc_value seat.0) seat.1) second.items }
{
    let (first, second) = thread::join(
        rt,
        || rounds(rt, first, waiting),
        || rounds(rt, second, waiting),
    );
    first && second
}

/// The nanoseconds of so many rounds of four threads.
#[inline(never)]
pub fn time_crew<R: Clock + Threads + Wait + Sync + AllocGlobal>(
    rt: &R,
    waiting: Waiting,
    count: u64,
) -> anyhow::Result<u64> {
    let ((first, second), (third, fourth)) = open_all(rt.alloc(), count)?;
    let start = Instant::now(rt)?;
    let (early, late) = thread::join(
        rt,
        ||
            requires { (All (λ seat. IsIdleAtBarrier (arc_value seat.0) seat.1) first.items)
                × (All (λ seat. IsIdleAtBarrier (arc_value seat.0) seat.1) second.items) }
        { two(rt, first, second, waiting) },
        ||
            requires { (All (λ seat. IsIdleAtBarrier (arc_value seat.0) seat.1) third.items)
                × (All (λ seat. IsIdleAtBarrier (arc_value seat.0) seat.1) fourth.items) }
        { two(rt, third, fourth, waiting) },
    );
    nanoseconds_since(rt, start, early && late)
}
