//! Threads on one semaphore. What each call answers isn't the same in two runs; here is what is
//! sure of every run.

ghost use Rattle.cqs_rule.specs.Passes.{pass_view};
ghost use Rattle.cqs_rule_laws.specs.CallRule.{IsReady};
ghost use Rattle.cqs_semaphore.specs.Calls.{IsMine};

use cqs_rule::Config;
use cqs_semaphore::{Acquired, SemPass, Semaphore};
use cqs_semaphore_crew::{Counts, together};
use std::alloc::Global;
use std::process::Abort;
use std::sync::Wait;
use std::test::Fail;
use std::thread::Threads;

// As few slots as so many passes may have: they are used again.
const CONFIG: Config = Config {
    passes: 9,
    limit: 1 << 36,
    slots: 20,
};

// So many rounds each worker makes: enough for a hundred in which it gives up each of its waits. A
// machine on which others work too must come to the end of them within the time of a test;
// `cqs_test_stress` makes as many as one likes.
const ROUNDS: u32 = 300;

#[test]
fn crews_of_two_four_and_eight(rt: HostRuntime) -> Result<(), Fail> {
    for threads in [2, 4, 8] {
        for permits in [1, 2, 3] {
            crew(&rt, rt.alloc(), threads, permits)?;
        }
    }
    Ok(())
}

// A crew of so many threads on a semaphore of so many permits.
fn crew<R: Threads + Wait + Sync + Abort>(
    rt: &R,
    alloc: Global,
    threads: u32,
    permits: u32,
) -> Result<(), Fail> {
    let (semaphore, mut pass) = Semaphore::new(alloc, permits, CONFIG)?;
    let counts = together(rt, alloc, &semaphore, &mut pass, threads, ROUNDS)?;
    adds_up(rt, &counts, u64::from(threads) * u64::from(ROUNDS));
    assert!(rt; pass.held() == 0);
    is_free_again(rt, &semaphore, &mut pass, permits);
    Ok(())
}

// What is sure of the answers that came in so many rounds in all.
fn adds_up(rt: &impl Abort, counts: &Counts, rounds: u64) {
    let sums = (
        counts.acquires.total(),
        counts.tries.total(),
        counts.acquires.waited,
        counts.arrivals(),
    );
    let owing = counts.cancels.owing;
    let came = counts.came().saturating_add(owing);
    assert_eq!(rt; sums, (rounds, rounds, counts.ends(), came));
}

// The crew has left no pass but this one, and given each permit back.
fn is_free_again(rt: &impl Abort, semaphore: &Semaphore, pass: &mut SemPass, permits: u32)
    requires belongs { IsMine semaphore.now pass.old }
    requires ready { IsReady (pass_view pass.old).facts }
{
    assert!(rt; semaphore.sole(pass));
    assert_eq!(rt; semaphore.state(pass), i64::from(permits));
    let Ok(Acquired::Now(permit)) = semaphore.acquire(pass) else {
        panic!(rt; "a permit is free");
    };
    assert!(rt; permit.number().is_none());
}
