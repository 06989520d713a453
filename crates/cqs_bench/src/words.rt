//! The words of the program: what the first of them asks for, and the usage where they say nothing
//! that is known.

use std::io;
use std::process::ExitCode;

const USAGE: &str = "usage: cqs_bench toml | plan | run | cores | whole | fold < PLAN\n       \
    cqs_bench gen\n       \
    cqs_bench check first | last [ENTRIES]\n       \
    cqs_bench work WORKERS < PLAN, with 1 to 16 workers\n       \
    cqs_bench limit WORKERS < REQUESTS, with 1 to 16 workers";

const BAD_COMMAND: u8 = 2;

/// A part of a run on the plan from standard input.
#[derive(Clone, Copy, Drop)]
pub enum Part {
    /// The parse of its document.
    Document,
    /// The whole reading of the plan.
    Reading,
    /// The run of a plan that was read.
    Run,
    /// The same on cores.
    Cores,
    /// The reading and the run.
    Whole,
    /// The same by a plain fold.
    Fold,
}

/// What the first word asks for.
#[derive(Clone, Copy, Drop)]
pub enum Asked {
    Part(Part),
    /// The plan of a number.
    Number,
    /// The judge of a history.
    Check,
    /// The run of a plan by workers.
    Work,
    /// The replies of workers to requests.
    Limit,
}

/// In which order those who wait are served in a history that is judged.
#[derive(Clone, Copy, Drop)]
pub enum Service {
    /// The first of the line first.
    First,
    /// The last first, since a permit is on its way for each.
    Last,
}

/// The order that this word names, if there is one.
pub fn service_of(word: &str) -> Option<Service> {
    match word {
        "first" => Some(Service::First),
        "last" => Some(Service::Last),
        _ => None,
    }
}

fn part_of(word: &str) -> Option<Part> {
    match word {
        "toml" => Some(Part::Document),
        "plan" => Some(Part::Reading),
        "run" => Some(Part::Run),
        "cores" => Some(Part::Cores),
        "whole" => Some(Part::Whole),
        "fold" => Some(Part::Fold),
        _ => None,
    }
}

/// What this first word asks for, if it is one of the program's.
pub fn asked_of(word: &str) -> Option<Asked> {
    match word {
        "gen" => Some(Asked::Number),
        "check" => Some(Asked::Check),
        "work" => Some(Asked::Work),
        "limit" => Some(Asked::Limit),
        _ => match part_of(word) {
            Some(part) => Some(Asked::Part(part)),
            None => None,
        },
    }
}

/// Prints which words there are, and answers the status of a bad command.
pub fn usage(rt: &impl Print) -> io::Result<ExitCode> {
    println!(rt; "{USAGE}")?;
    Ok(ExitCode::from(BAD_COMMAND))
}
