//! Has threads work on a synchronous semaphore, and says whether all permits are back.
//!
//! `cqs_test_sync THREADS PERMITS LOOKS ROUNDS` prints what is sure of every run. With `for
//! SECONDS` crews work one after the other, each on a semaphore of its own, until the time is over.
//! With a last word, `counts`, it also prints what isn't sure: how often a permit was taken back,
//! and how often its caller found that.
#![tactic(auto)]

mod counts;
mod crew;
mod giving;
mod working;

use counts::Counts;
use cqs_rule::Config;
use cqs_sync_semaphore::SyncSemaphore;
use crew::together;
use std::env;
use std::process::ExitCode;
use std::rt::Clock;
use std::sync::Wait;
use std::thread::Threads;
use std::time::Instant;

const USAGE: &str = "usage: cqs_test_sync THREADS PERMITS LOOKS ROUNDS [for SECONDS] [counts], \
    with at most 31 threads";

const BAD_COMMAND: u8 = 2;

/// The most passes that a semaphore may be made for; one is left to the caller.
const MOST_PASSES: u32 = 32;

/// The most crews that work one after the other.
const MOST_CREWS: u32 = 1 << 20;

/// What the words of the command say.
#[derive(Clone, Copy, Drop)]
struct Command {
    threads: u32,
    permits: u32,
    looks: u32,
    rounds: u32,
    seconds: Option<u64>,
    counts: bool,
}

fn command_of(words: &[String]) -> Option<Command> {
    let (words, counts) = match words {
        [words @ .., last] if last.as_str() == "counts" => (words, true),
        _ => (words, false),
    };
    let (numbers, seconds) = match words {
        [numbers @ .., before, last] if before.as_str() == "for" => {
            (numbers, Some(last.parse().ok()?))
        }
        _ => (words, None),
    };
    let [threads, permits, looks, rounds] = numbers else {
        return None;
    };
    let threads = threads.parse().ok()?;
    if threads >= MOST_PASSES {
        return None;
    }
    Some(Command {
        threads,
        permits: permits.parse().ok()?,
        looks: looks.parse().ok()?,
        rounds: rounds.parse().ok()?,
        seconds,
        counts,
    })
}

/// What is sure of a crew that has worked, and how often each answer came.
#[derive(Drop)]
struct Worked {
    alone: bool,
    state: i64,
    counts: Counts,
}

/// Has one crew work on a semaphore of its own, with the fewest slots that so many passes may have:
/// they are used again and again.
fn one_crew<R: Threads + Wait + Sync + AllocGlobal>(
    rt: &R,
    command: Command,
) -> anyhow::Result<Worked> {
    let Command {
        threads,
        permits,
        looks,
        rounds,
        ..
    } = command;
    let config = Config {
        passes: MOST_PASSES,
        limit: 1 << 36,
        slots: 2 * MOST_PASSES + 2,
    };
    let Ok((semaphore, mut pass)) = SyncSemaphore::new(rt.alloc(), permits, config, looks) else {
        anyhow::bail!("there is no such semaphore, or no memory for it");
    };
    let counts = together(rt, rt.alloc(), &semaphore, &mut pass, threads, rounds)?;
    Ok(Worked {
        alone: semaphore.sole(&mut pass),
        state: semaphore.state(&mut pass),
        counts,
    })
}

/// Has one crew work, and prints what came of it.
fn run<R: Threads + Wait + Sync + Print + AllocGlobal>(
    rt: &R,
    command: Command,
) -> anyhow::Result<()> {
    let worked = one_crew(rt, command)?;
    let Command {
        threads,
        permits,
        rounds,
        ..
    } = command;
    println!(rt; "{threads} threads made {rounds} rounds each, on {permits} permits")?;
    println!(rt; "one pass is left: {}", worked.alone)?;
    println!(rt; "the state: {}", worked.state)?;
    if command.counts {
        println!(rt; "{}", worked.counts)?;
    }
    Ok(())
}

/// Has crews work one after the other until the time is over, and prints how many of them left more
/// than one pass, or another state than they should.
fn run_for<R: Threads + Wait + Sync + Clock + Print + AllocGlobal>(
    rt: &R,
    command: Command,
    seconds: u64,
) -> anyhow::Result<()> {
    let start = Instant::now(rt)?;
    let mut counts = Counts::default();
    let mut crews = 0u64;
    let mut wrong = 0u64;
    for _ in 0..MOST_CREWS {
        if start.elapsed(rt)?.as_secs() >= seconds {
            break;
        }
        let worked = one_crew(rt, command)?;
        counts = counts.with(worked.counts);
        crews = crews.saturating_add(1);
        if !worked.alone || worked.state != i64::from(command.permits) {
            wrong = wrong.saturating_add(1);
        }
    }
    if command.counts {
        println!(rt; "{crews} crews worked in {seconds} seconds")?;
        println!(rt; "{counts}")?;
    }
    println!(rt; "crews that left another pass or another state: {wrong}")?;
    Ok(())
}

fn main(rt: HostRuntime) -> anyhow::Result<ExitCode> {
    let alloc = rt.alloc();
    let mut words = Vec::new(alloc);
    for word in env::args(&rt)?.skip(1) {
        words.push(word)?;
    }
    let Some(command) = command_of(&words) else {
        println!(rt; "{USAGE}")?;
        return Ok(ExitCode::from(BAD_COMMAND));
    };
    match command.seconds {
        Some(seconds) => run_for(&rt, command, seconds)?,
        None => run(&rt, command)?,
    }
    Ok(ExitCode::SUCCESS)
}
