//! Two members go through two rounds of a barrier call by call; then crews of threads go through
//! their rounds. Some of their waits are given up and made again, and nobody goes through a round
//! before the last party has come.

mod arrivals;
mod crew;
mod going;
mod row;
mod seats;

use crate::rounds::crew::together;
use crate::rounds::row::two_rounds;
use std::sync::Wait;
use std::thread::Threads;

/// The crews: how many parties, and how many rounds.
const CREWS: [(u32, u32); 7] = [
    (1, 1),
    (1, 64),
    (2, 64),
    (4, 64),
    (8, 64),
    (32, 1),
    (32, 64),
];

/// Two members go through two rounds, and then each crew through its own.
pub fn run_rounds<R: Threads + Wait + Sync + Print + AllocGlobal>(rt: &R) -> anyhow::Result<()> {
    let Some(so) = two_rounds(rt.alloc()) else {
        anyhow::bail!("two members did not go through two rounds");
    };
    println!(rt; "two members went through two rounds, call by call: {so}")?;
    let mut withdrawn = false;
    for (parties, rounds) in CREWS {
        let Some(told) = together(rt, rt.alloc(), parties, rounds) else {
            anyhow::bail!("no memory for the rounds");
        };
        println!(rt;
            "{parties} threads, {rounds} rounds: {} times through, {} before all had come; \
             all passes taken in: {}",
            told.seen.through, told.seen.early, told.whole
        )?;
        if told.seen.withdrawn > 0 {
            withdrawn = true;
        }
    }
    println!(rt; "some withdrew and came back: {withdrawn}")?;
    Ok(())
}
