//! Times rounds of calls: of the running queue, and of the primitives that stand on it. A program
//! of its own beside `cqs_bench`, since it stands on no plan.
//!
//! Rounds of the queue print one line, which starts with their word and their nanoseconds; those of
//! the primitives print rows.
#![tactic(auto)]

mod primitives;
mod rounds;
mod words;

use cqs_rule::{CancelMode, Config, Queue};
use cqs_semaphore_client::SemClient;
use rounds::{LIMIT, free_rounds, leave_rounds, pair_rounds};
use std::env::{self, Args};
use std::process::ExitCode;
use std::rt::Clock;
use std::sync::Wait;
use std::thread::Threads;
use std::time::Instant;
use words::{Asked, Round, asked_of, round_of, usage};

/// Rounds of the running queue on a table of its own, which was made before.
fn time_rounds(
    rt: &(impl Clock + Print + AllocGlobal),
    word: &str,
    round: Round,
    count: u64,
) -> anyhow::Result<()> {
    let config = Config {
        passes: 1,
        limit: LIMIT,
        slots: 4,
    };
    let client = SemClient::new(1);
    let Ok((queue, mut pass)) = Queue::ample(rt.alloc(), config, CancelMode::Smart, client) else {
        anyhow::bail!("no memory for the queue");
    };
    let start = Instant::now(rt)?;
    match round {
        Round::Free => free_rounds(&queue, &mut pass, count),
        Round::Pair => pair_rounds(&queue, &mut pass, count),
        Round::Leave => leave_rounds(&queue, &mut pass, count),
    }
    let nanoseconds = start.elapsed(rt)?.as_nanos();
    println!(rt; "{word} {nanoseconds} rounds {count} held {}", pass.held())?;
    Ok(())
}

/// Times the rounds of the running queue that these words ask for.
fn measure_queue(rt: &(impl Clock + Print + AllocGlobal), words: Args) -> anyhow::Result<ExitCode> {
    let mut words = words;
    let Some(word) = words.next() else {
        return Ok(usage(rt)?);
    };
    let Some(round) = round_of(word.as_str()) else {
        return Ok(usage(rt)?);
    };
    let count = words
        .next()
        .and_then(|text| text.parse().ok())
        .unwrap_or(LIMIT);
    time_rounds(rt, word.as_str(), round, count)?;
    Ok(ExitCode::SUCCESS)
}

/// Measures what the first word asks for, by the words after it.
fn measure<R: Clock + Threads + Wait + Sync + Print + AllocGlobal>(
    rt: &R,
    asked: Asked,
    words: Args,
) -> anyhow::Result<ExitCode> {
    match asked {
        Asked::Queue => measure_queue(rt, words),
        Asked::Primitives => primitives::measure(rt, words),
    }
}

fn main(rt: HostRuntime) -> anyhow::Result<ExitCode> {
    let mut words = env::args(&rt)?;
    let Some(word) = words.nth(1) else {
        return Ok(usage(&rt)?);
    };
    match asked_of(word.as_str()) {
        Some(asked) => measure(&rt, asked, words),
        None => Ok(usage(&rt)?),
    }
}
