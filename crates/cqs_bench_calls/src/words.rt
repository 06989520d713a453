//! The words of the program: what the first of them asks for, and the usage where they say nothing
//! that is known.

use std::io;
use std::process::ExitCode;

const USAGE: &str = "usage: cqs_bench_calls queue free | pairs | leaves [ROUNDS]\n       \
    cqs_bench_calls primitives free | leave | leave-behind | served | past-320 | past-3200 \
    | waiting | wake-guarded | wake-never | mutex-free | pool-free | mailbox-free | contended \
    | pool | latch | barrier | mailbox [ROUNDS [RUNS]]";

const BAD_COMMAND: u8 = 2;

/// What the first word asks for: rounds of the running queue, or of the primitives' calls.
#[derive(Clone, Copy, Drop)]
pub enum Asked {
    Queue,
    Primitives,
}

/// What this first word asks for, if it is one of the program's.
pub fn asked_of(word: &str) -> Option<Asked> {
    match word {
        "queue" => Some(Asked::Queue),
        "primitives" => Some(Asked::Primitives),
        _ => None,
    }
}

/// A round of the running queue.
#[derive(Clone, Copy, Drop)]
pub enum Round {
    /// A free permit is taken and given back.
    Free,
    /// A wait is served.
    Pair,
    /// A wait is cancelled.
    Leave,
}

/// The round that this word names, if there is one.
pub fn round_of(word: &str) -> Option<Round> {
    match word {
        "free" => Some(Round::Free),
        "pairs" => Some(Round::Pair),
        "leaves" => Some(Round::Leave),
        _ => None,
    }
}

/// Prints which words there are, and answers the status of a bad command.
pub fn usage(rt: &impl Print) -> io::Result<ExitCode> {
    println!(rt; "{USAGE}")?;
    Ok(ExitCode::from(BAD_COMMAND))
}
