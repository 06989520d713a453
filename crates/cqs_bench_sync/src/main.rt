//! Times rounds of a synchronous semaphore beside the same rounds of a semaphore that isn't, run by
//! run in turn, and prints a row for each kind.
//!
//! By the words WORD [ROUNDS [RUNS]], as in the usage text. A program of its own beside
//! `cqs_bench_calls`, so that each of its goals is small.
#![tactic(auto)]

mod asynchronous;
mod made;
mod synchronous;

use cqs_bench_rows::{each, tell};
use made::Round;
use std::process::ExitCode;
use std::rt::Clock;
use std::{env, io};

const USAGE: &str = "usage: cqs_bench_sync free | served [ROUNDS [RUNS]]";

const BAD_COMMAND: u8 = 2;

fn round_of(word: &str) -> Option<Round> {
    match word {
        "free" => Some(Round::Free),
        "served" => Some(Round::Served),
        _ => None,
    }
}

/// Prints which words there are, and answers the status of a bad command.
fn usage(rt: &impl Print) -> io::Result<ExitCode> {
    println!(rt; "{USAGE}")?;
    Ok(ExitCode::from(BAD_COMMAND))
}

/// A row of each kind.
fn tell_rows<R: Clock + Print + AllocGlobal>(
    rt: &R,
    word: &str,
    round: Round,
    count: u64,
    runs: u32,
) -> anyhow::Result<()> {
    let mut ours = Vec::new(rt.alloc());
    let mut ours_sync = Vec::new(rt.alloc());
    for _ in 0..runs {
        ours.push(each(asynchronous::time(rt, round, count)?, count))?;
        ours_sync.push(each(synchronous::time(rt, round, count)?, count))?;
    }
    tell(rt, "ours", word, 1, ours, count)?;
    tell(rt, "ours-sync", word, 1, ours_sync, count)
}

fn main(rt: HostRuntime) -> anyhow::Result<ExitCode> {
    let mut words = env::args(&rt)?.skip(1);
    let Some(word) = words.next() else {
        return Ok(usage(&rt)?);
    };
    let Some(round) = round_of(word.as_str()) else {
        return Ok(usage(&rt)?);
    };
    let count = words
        .next()
        .and_then(|text| text.parse().ok())
        .unwrap_or(500_000);
    let runs = words
        .next()
        .and_then(|text| text.parse().ok())
        .unwrap_or(5u32);
    tell_rows(&rt, word.as_str(), round, count, runs)?;
    Ok(ExitCode::SUCCESS)
}
