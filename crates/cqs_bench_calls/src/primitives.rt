//! Times rounds of calls of the primitives, and prints a row for each: who is measured, what a
//! round is, the threads, the best, median and worst nanoseconds a round, and the rounds of a run;
//! tabs between them.
//!
//! By the words WORD [ROUNDS [RUNS]], as in the usage text.

mod barriers;
mod contended;
mod latches;
mod mailboxes;
mod mutexes;
mod passed;
mod pools;
mod rounds;
mod semaphores;
mod waiting;
mod wakes;

use crate::primitives::semaphores::Round;
use crate::primitives::waiting::Waiting;
use crate::primitives::wakes::Wakes;
use crate::words::usage;
use cqs_bench_rows::{each, tell};
use std::env::Args;
use std::process::ExitCode;
use std::rt::Clock;
use std::sync::Wait;
use std::thread::Threads;

/// The most rounds in which an object of its own is made for each, so that they fit memory.
const MOST_OBJECTS: u64 = 1 << 14;

/// A sleep takes so many times as long as a few looks; so many times fewer rounds are made.
const SLEEP: u64 = 16;

/// Rounds that one thread makes.
#[derive(Clone, Copy, Drop)]
enum Alone {
    Semaphore(Round),
    /// Of a permit that comes past so many who left.
    Passed(u64),
    Line,
    Wakes(Wakes),
    Mutex,
    Pool,
    Mailbox,
}

fn alone_of(word: &str) -> Option<Alone> {
    match word {
        "free" => Some(Alone::Semaphore(Round::Free)),
        "leave" => Some(Alone::Semaphore(Round::Leave)),
        "leave-behind" => Some(Alone::Semaphore(Round::LeaveBehind)),
        "served" => Some(Alone::Semaphore(Round::Served)),
        "past-320" => Some(Alone::Passed(320)),
        "past-3200" => Some(Alone::Passed(3200)),
        "waiting" => Some(Alone::Line),
        "wake-guarded" => Some(Alone::Wakes(Wakes::Guarded)),
        "wake-never" => Some(Alone::Wakes(Wakes::Never)),
        "mutex-free" => Some(Alone::Mutex),
        "pool-free" => Some(Alone::Pool),
        "mailbox-free" => Some(Alone::Mailbox),
        _ => None,
    }
}

/// Rounds that threads make together.
#[derive(Clone, Copy, Drop)]
enum Crew {
    Semaphore,
    Pool,
    Latch,
    Barrier,
    Mailbox,
}

fn crew_of(word: &str) -> Option<Crew> {
    match word {
        "contended" => Some(Crew::Semaphore),
        "pool" => Some(Crew::Pool),
        "latch" => Some(Crew::Latch),
        "barrier" => Some(Crew::Barrier),
        "mailbox" => Some(Crew::Mailbox),
        _ => None,
    }
}

/// By how many threads they are measured.
fn threads_of(crew: Crew) -> &'static [u32] {
    match crew {
        Crew::Semaphore => &[1, 2, 4],
        Crew::Pool => &[4, 8],
        Crew::Latch => &[latches::THREADS],
        Crew::Barrier => &[barriers::THREADS],
        Crew::Mailbox => &[2, 5],
    }
}

/// How those wait who are measured. Nobody sleeps at a mailbox.
fn waitings_of(crew: Crew) -> &'static [Waiting] {
    match crew {
        Crew::Semaphore | Crew::Pool | Crew::Latch | Crew::Barrier => {
            &[Waiting::Looks, Waiting::Sleeps]
        }
        Crew::Mailbox => &[Waiting::Looks],
    }
}

/// How many of the rounds that were asked for are made.
fn rounds_of(crew: Crew, waiting: Waiting, count: u64) -> u64 {
    match (crew, waiting) {
        (Crew::Latch | Crew::Barrier, _) => count.min(MOST_OBJECTS),
        (_, Waiting::Looks) => count,
        (_, Waiting::Sleeps) => count / SLEEP,
    }
}

fn time_alone<R: Clock + Wait + AllocGlobal>(
    rt: &R,
    alone: Alone,
    count: u64,
) -> anyhow::Result<u64> {
    match alone {
        Alone::Semaphore(round) => semaphores::time(rt, round, count),
        Alone::Passed(left) => passed::time(rt, left, count),
        Alone::Line => semaphores::time_waiting(rt, count),
        Alone::Wakes(wakes) => wakes::time(rt, wakes, count),
        Alone::Mutex => mutexes::time_free(rt, count),
        Alone::Pool => pools::time_free(rt, count),
        Alone::Mailbox => mailboxes::time_free(rt, count),
    }
}

fn time_crew<R: Clock + Threads + Wait + Sync + AllocGlobal>(
    rt: &R,
    crew: Crew,
    threads: u32,
    waiting: Waiting,
    count: u64,
) -> anyhow::Result<u64> {
    match crew {
        Crew::Semaphore => contended::time_crew(rt, threads, waiting, count),
        Crew::Pool => pools::time_crew(rt, threads, waiting, count),
        Crew::Latch => latches::time_crew(rt, waiting, count),
        Crew::Barrier => barriers::time_crew(rt, waiting, count),
        Crew::Mailbox => mailboxes::time_crew(rt, threads, count),
    }
}

/// A row of rounds that one thread makes.
fn tell_alone<R: Clock + Wait + Print + AllocGlobal>(
    rt: &R,
    word: &str,
    alone: Alone,
    count: u64,
    runs: u32,
) -> anyhow::Result<()> {
    let count = match alone {
        Alone::Passed(left) => passed::rounds_of(left, count),
        _ => count,
    };
    let mut times = Vec::new(rt.alloc());
    for _ in 0..runs {
        times.push(each(time_alone(rt, alone, count)?, count))?;
    }
    tell(rt, "ours", word, 1, times, count)
}

/// A row for each number of threads and each way to wait.
fn tell_crew<R: Clock + Threads + Wait + Sync + Print + AllocGlobal>(
    rt: &R,
    word: &str,
    crew: Crew,
    count: u64,
    runs: u32,
) -> anyhow::Result<()> {
    for threads in threads_of(crew) {
        for waiting in waitings_of(crew) {
            let count = rounds_of(crew, *waiting, count);
            let mut times = Vec::new(rt.alloc());
            for _ in 0..runs {
                times.push(each(time_crew(rt, crew, *threads, *waiting, count)?, count))?;
            }
            tell(rt, waiting.peer(), word, *threads, times, count)?;
        }
    }
    Ok(())
}

/// Who makes the rounds.
#[derive(Clone, Copy, Drop)]
enum Makers {
    One(Alone),
    Several(Crew),
}

fn makers_of(word: &str) -> Option<Makers> {
    match alone_of(word) {
        Some(alone) => Some(Makers::One(alone)),
        None => match crew_of(word) {
            Some(crew) => Some(Makers::Several(crew)),
            None => None,
        },
    }
}

/// The rows of rounds.
fn tell_rows<R: Clock + Threads + Wait + Sync + Print + AllocGlobal>(
    rt: &R,
    word: &str,
    makers: Makers,
    count: u64,
    runs: u32,
) -> anyhow::Result<()> {
    match makers {
        Makers::One(alone) => tell_alone(rt, word, alone, count, runs),
        Makers::Several(crew) => tell_crew(rt, word, crew, count, runs),
    }
}

/// Makes the rounds that these words ask for, and prints their rows.
pub fn measure<R: Clock + Threads + Wait + Sync + Print + AllocGlobal>(
    rt: &R,
    words: Args,
) -> anyhow::Result<ExitCode> {
    let mut words = words;
    let Some(word) = words.next() else {
        return Ok(usage(rt)?);
    };
    let Some(makers) = makers_of(word.as_str()) else {
        return Ok(usage(rt)?);
    };
    let count = words
        .next()
        .and_then(|text| text.parse().ok())
        .unwrap_or(500_000);
    let runs = words
        .next()
        .and_then(|text| text.parse().ok())
        .unwrap_or(5u32);
    tell_rows(rt, word.as_str(), makers, count, runs)?;
    Ok(ExitCode::SUCCESS)
}
