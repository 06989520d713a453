//! Has threads sleep until a permit comes.
//!
//! `cqs_test_sleep THREADS PERMITS ROUNDS` prints what is sure of every run. With `for SECONDS`
//! crews sleep one after the other, each on a semaphore of its own, until the time is over. A
//! sleeper that nobody wakes would keep the program from its end.
#![tactic(auto)]

mod crew;
mod sleeper;

use crew::{Slept, crew};
use std::env;
use std::process::ExitCode;
use std::rt::Clock;
use std::sync::Wait;
use std::thread::Threads;
use std::time::Instant;

const USAGE: &str =
    "usage: cqs_test_sleep THREADS PERMITS ROUNDS [for SECONDS], with at most 31 threads";

const BAD_COMMAND: u8 = 2;

/// The most passes that a semaphore may be made for; one is left to the caller.
const MOST_PASSES: u32 = 32;

/// The most crews that sleep one after the other.
const MOST_CREWS: u32 = 1 << 24;

/// What the words of the command say.
#[derive(Clone, Copy, Drop)]
pub struct Command {
    pub threads: u32,
    pub permits: u32,
    pub rounds: u32,
    pub seconds: Option<u64>,
}

fn command_of(words: &[String]) -> Option<Command> {
    let (numbers, seconds) = match words {
        [numbers @ .., before, last] if before.as_str() == "for" => {
            (numbers, Some(last.parse().ok()?))
        }
        _ => (words, None),
    };
    let [threads, permits, rounds] = numbers else {
        return None;
    };
    let threads = threads.parse().ok()?;
    if threads >= MOST_PASSES {
        return None;
    }
    Some(Command {
        threads,
        permits: permits.parse().ok()?,
        rounds: rounds.parse().ok()?,
        seconds,
    })
}

/// Has one crew sleep, and prints what came of it.
fn run<R: Threads + Wait + Sync + Print + AllocGlobal>(
    rt: &R,
    command: Command,
) -> anyhow::Result<()> {
    let Slept { came, alone, state } = crew(rt, command)?;
    let Command {
        threads,
        permits,
        rounds,
        ..
    } = command;
    println!(rt; "{threads} threads slept in {rounds} rounds each, for permits of {permits}")?;
    println!(rt; "permits that came: {came}")?;
    println!(rt; "one pass is left: {alone}")?;
    println!(rt; "the state: {state}")?;
    Ok(())
}

/// Has crews sleep one after the other until the time is over, and prints how many did, and how
/// many of them missed a permit, or left more than one pass or another state than they should.
fn run_for<R: Threads + Wait + Sync + Clock + Print + AllocGlobal>(
    rt: &R,
    command: Command,
    seconds: u64,
) -> anyhow::Result<()> {
    let start = Instant::now(rt)?;
    let wanted = u64::from(command.threads).saturating_mul(u64::from(command.rounds));
    let mut crews = 0u64;
    let mut wrong = 0u64;
    for _ in 0..MOST_CREWS {
        if start.elapsed(rt)?.as_secs() >= seconds {
            break;
        }
        let Slept { came, alone, state } = crew(rt, command)?;
        crews = crews.saturating_add(1);
        if came != wanted || !alone || state != i64::from(command.permits) {
            wrong = wrong.saturating_add(1);
        }
    }
    println!(rt; "{crews} crews slept in {seconds} seconds, {wanted} times each")?;
    println!(rt; "crews that missed a permit, or left another pass or another state: {wrong}")?;
    Ok(())
}

fn main(rt: HostRuntime) -> anyhow::Result<ExitCode> {
    let alloc = rt.alloc();
    let mut words = Vec::new(alloc);
    for word in env::args(&rt)?.skip(1) {
        words.push(word)?;
    }
    let Some(command) = command_of(&words) else {
        println!(rt; "{USAGE}")?;
        return Ok(ExitCode::from(BAD_COMMAND));
    };
    match command.seconds {
        Some(seconds) => run_for(&rt, command, seconds)?,
        None => run(&rt, command)?,
    }
    Ok(ExitCode::SUCCESS)
}
