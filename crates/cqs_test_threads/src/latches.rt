//! Threads count a latch down, and others wait for it. One in three waits is given up at once, and
//! the others end all the same.

mod crew;
mod worker;

use crate::latches::crew::{Sums, together};
use cqs_latch::{Latch, LatchWait};
use cqs_rule::{CancelMode, Config};
use std::sync::Wait;
use std::thread::Threads;

/// So many threads count down, and as many wait.
const COUNTERS: u32 = 4;

/// So many latches are made of each mode.
const ROUNDS: u32 = 100;

/// A pass for each thread, and one besides.
const PASSES: u32 = 2 * COUNTERS + 1;

/// The fewest slots for so many passes.
const CONFIG: Config = Config {
    passes: PASSES,
    limit: 64,
    slots: 2 * PASSES + 2,
};

/// What is the same in every run.
#[derive(Drop)]
struct Rounds {
    sums: Sums,
    /// After so many rounds one pass was left, which waits for nothing.
    alone: u32,
    /// And after so many the latch was open.
    open: u32,
}

fn rounds_of<R: Threads + Wait + Sync + AllocGlobal>(
    rt: &R,
    mode: CancelMode,
) -> anyhow::Result<Rounds> {
    let mut all = Rounds {
        sums: Sums::default(),
        alone: 0,
        open: 0,
    };
    for round in 0..ROUNDS {
        let Ok((latch, mut pass)) = Latch::new(rt.alloc(), COUNTERS, mode, CONFIG) else {
            anyhow::bail!("no memory for the latch");
        };
        let Ok(sums) = together(rt, &latch, &mut pass, round) else {
            anyhow::bail!("no further pass may be made");
        };
        all.sums = all.sums.with(sums);
        if latch.sole(&mut pass) && pass.waits() == 0 {
            all.alone = all.alone.saturating_add(1);
        }
        if let Ok(LatchWait::Passed) = latch.wait(&mut pass) {
            all.open = all.open.saturating_add(1);
        }
    }
    Ok(all)
}

fn run<R: Threads + Wait + Sync + Print + AllocGlobal>(
    rt: &R,
    name: &str,
    mode: CancelMode,
) -> anyhow::Result<()> {
    let Rounds { sums, alone, open } = rounds_of(rt, mode)?;
    println!(rt; "{name} mode, {ROUNDS} latches of {COUNTERS}")?;
    println!(rt; "counted down: {}", sums.counted)?;
    println!(rt; "waits that passed or were given up: {}", sums.ended)?;
    println!(rt; "waits and passes that ended otherwise: {}", sums.otherwise)?;
    println!(rt; "rounds that left one pass, which waits for nothing: {alone}")?;
    println!(rt; "rounds that left the latch open: {open}")?;
    Ok(())
}

/// Counts latches down in smart mode, and then in simple mode.
pub fn run_latches<R: Threads + Wait + Sync + Print + AllocGlobal>(rt: &R) -> anyhow::Result<()> {
    run(rt, "smart", CancelMode::Smart)?;
    run(rt, "simple", CancelMode::Simple)
}
