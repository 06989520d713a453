//! Makes the events of data/ on a core, and counts those that don't answer as they should.
//!
//! A file of schedules is a text of lines, each of which asks, and says what is to be answered:
//! `take 0: Now`. A line that begins with `=== ` is a heading, for the reader alone. Answers are
//! written as `{:?}` writes them; an event that may not come now answers NotEnabled, and a whole
//! call answers NotResting while a pass isn't idle.
//!
//! | line | what it asks |
//! |---|---|
//! | `core 2 3: Ok` | a new core of 2 permits and 3 passes, on which the next lines are made |
//! | `sync 2 3: Ok` | the same, of a synchronous core |
//! | `take 0`, `try_load 0`, `try_swap 0`, `draw 0`, `install 0` | this event of pass 0 |
//! | `give 0`, `reach 0`, `meet 0`, `see 0`, `break 0` | this event of pass 0 |
//! | `decide 0`, `settle 0` | this event of pass 0 |
//! | `leave 0 5`, `look 0 5` | this event of pass 0 at its wait 5 |
//! | `acquire 0`, `try 0`, `release 0` | this whole call of pass 0 |
//! | `poll 0 5`, `cancel 0 5` | this whole call of pass 0 on its wait 5 |
//! | `state`, `suspends`, `resumes` | the state word, the counters |
//! | `cell 5`, `doing 0`, `held 0` | the state of a cell; what a pass does, and what it holds |
//! | `entries`, `entry 0` | how many entries the history has; one of them |
//!
//! At the end each pass of each of the worked schedules stalls at each place of it (`stalls`).
#![tactic(auto)]

mod asking;
mod stalls;
mod texts;

use crate::asking::answer;
use crate::stalls::try_stalls;
use cqs_core_run::Core;
use std::alloc::Global;
use std::fs;
use std::rt::Files;

/// The files of schedules, each of which ends with `.schedules`.
const FILES: [&str; 6] = [
    "sizes",
    "schedules",
    "calls",
    "random",
    "histories",
    "breaks",
];

/// The file of those in which each pass stalls at each place.
const STALLING: &str = "schedules";

/// How many lines of a file were asked, and how many weren't answered as they should be.
#[derive(Clone, Copy, Default)]
struct Tally {
    number: u64,
    asked: u64,
    failed: u64,
}

/// Whether a question is answered as it should be. Prints its place where it isn't.
fn is_answered<R: Print + AllocGlobal>(
    rt: &R,
    place: (&str, u64),
    core: &mut Core,
    question: &str,
    wanted: &str,
) -> anyhow::Result<bool> {
    let found = answer(rt.alloc(), core, question)?;
    let right = found.as_str() == wanted;
    if !right {
        let (name, number) = place;
        println!(rt; "{name}, line {number}: {question} answers {found}, NOT {wanted}")?;
    }
    Ok(right)
}

/// Asks what a line asks, and counts it.
fn ask_line<R: Print + AllocGlobal>(
    rt: &R,
    name: &str,
    core: &mut Core,
    line: &str,
    tally: &mut Tally,
) -> anyhow::Result<()> {
    tally.number = tally.number.saturating_add(1);
    if line.starts_with("=== ") {
        return Ok(());
    }
    let place = (name, tally.number);
    let Some((question, wanted)) = line.split_once(": ") else {
        anyhow::bail!("{name}, line {}: no question and answer", tally.number);
    };
    tally.asked = tally.asked.saturating_add(1);
    if !is_answered(rt, place, core, question, wanted)? {
        tally.failed = tally.failed.saturating_add(1);
    }
    Ok(())
}

/// The core of the lines before the first that makes one.
fn first_core(alloc: Global) -> anyhow::Result<Core> {
    match Core::new(alloc, 1, 1) {
        Ok(core) => Ok(core),
        Err(_) => anyhow::bail!("no memory for a core"),
    }
}

/// Asks what the lines of a file ask.
fn ask_lines<R: Print + AllocGlobal>(rt: &R, name: &str, text: &str) -> anyhow::Result<Tally> {
    let mut core = first_core(rt.alloc())?;
    let mut tally = Tally::default();
    for line in text.lines() {
        ask_line(rt, name, &mut core, line, &mut tally)?;
    }
    Ok(tally)
}

/// The text of a file.
fn read<R: Files + AllocGlobal>(rt: &R, name: &str) -> anyhow::Result<String> {
    let path = format!(in rt.alloc(); "{name}.schedules")?;
    Ok(fs::read_to_string(rt, path)?)
}

/// Asks what a file asks. Prints how many lines there are, and before that the place of each that
/// isn't answered as it should be.
fn run_file<R: Files + Print + AllocGlobal>(rt: &R, name: &str) -> anyhow::Result<()> {
    let text = read(rt, name)?;
    let tally = ask_lines(rt, name, text.as_str())?;
    println!(rt; "{name}: {} lines, {} failed", tally.asked, tally.failed)?;
    Ok(())
}

fn main(rt: HostRuntime) -> anyhow::Result<()> {
    for name in FILES {
        run_file(&rt, name)?;
    }
    let text = read(&rt, STALLING)?;
    println!(rt; "{}", try_stalls(rt.alloc(), text.as_str())?)?;
    Ok(())
}
