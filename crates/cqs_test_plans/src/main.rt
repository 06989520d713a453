//! Runs the cases of data/ by the program's own call, and counts those that
//! don't end as they should. Then runs plans made by chance on both floors, and the examples.
//!
//! A file of cases is a text of lines. A line that begins with `== ` tells what to do; the lines
//! after it, up to the next such line, belong to it. A line that begins with `=== ` is a
//! heading, for the reader alone.
//!
//! | line | what it does |
//! |---|---|
//! | `== plan` | a new input, of the lines that follow; forgets all that was set before |
//! | `== each 0 9 TEXT` | adds this text for each number of the range, for which `@` stands |
//! | `== fill 100 #` | adds this sign to the input again and again, until it has so many bytes |
//! | `== with` | the lines that follow are values: the input is tried with each in place of `@` |
//! | `== byte 255` | this byte is the one value |
//! | `== first 10` | no more than the first bytes of the input are tried |
//! | `== words "run" "run"` | the words of the command line, in place of `run` |
//! | `== chunk 16`, `== room 170` | the bytes that a call moves at most, and the sink in all |
//! | `== read 4`, `== write 3` | this call of the source or the sink fails; none is number 0 |
//! | `== text` | the lines that follow are what must be written; a value stands for `@` |
//! | `== ends 0`, `== ends 5 20` | runs it: it must end so, with the text written, or a prefix |
//! | `== fault job: many` | runs it: it is no plan, and this is its first fault |
//!
//! A case of `run` that ends with status 0 is also run on both floors, which must have that report.
//!
//! In a value and in a text of `each` the sign `|` stands for the end of a line.
#![tactic(auto)]

mod case;
mod events;
mod examples;
mod floors;
mod generator;
mod table;

use crate::events::Events;
use crate::examples::run_examples;
use crate::floors::{Compared, compare};
use crate::generator::plan_text;
use crate::table::Table;
use std::fs;
use std::rt::Files;

/// The files of cases, each of which ends with `.cases`.
const TABLES: [&str; 16] = [
    "plans",
    "deadlines",
    "retries",
    "faults",
    "ranges",
    "names",
    "mutexes",
    "pools",
    "latches",
    "barriers",
    "chance",
    "first-faults",
    "too-many",
    "streams",
    "numbers",
    "histories",
];

/// Runs the cases of a file, and prints how many there are, and the place of each that
/// doesn't end as it should.
fn run_table<R: Files + Print + AllocGlobal>(rt: &R, name: &str) -> anyhow::Result<()> {
    let alloc = rt.alloc();
    let text = fs::read_to_string(rt, format!(in alloc; "{name}.cases")?)?;
    let mut table = Table::new(alloc)?;
    for line in text.as_str().lines() {
        if !table.read(line)? {
            println!(rt; "{name}, line {}: NOT as it should be", table.line())?;
        }
    }
    println!(rt;
        "{name}: {} cases, {} failed",
        table.cases(),
        table.failures()
    )?;
    Ok(())
}

/// How many plans of each version are made by chance.
const GENERATED: u64 = 200;

/// Runs the plan of each seed, in this version, on both floors, and prints how many reports aren't
/// the same, and how often the rarer events came.
fn run_generated<R: Print + AllocGlobal>(rt: &R, version: u32) -> anyhow::Result<()> {
    let alloc = rt.alloc();
    let mut failed = 0u64;
    let mut events = Events::default();
    for seed in 1..=GENERATED {
        let text = plan_text(alloc, version, seed)?;
        match compare(alloc, text.as_str().as_bytes()) {
            Ok(Compared::Same(report)) => events.count(report.text())?,
            Ok(Compared::NoPlan) | Ok(Compared::Different) | Err(_) => {
                println!(rt; "generated of version {version}, seed {seed}: NOT as it should be")?;
                failed = failed.saturating_add(1);
            }
        }
    }
    println!(rt; "generated of version {version}: {GENERATED} cases, {failed} failed; {events}")?;
    Ok(())
}

fn main(rt: HostRuntime) -> anyhow::Result<()> {
    for name in TABLES {
        run_table(&rt, name)?;
    }
    run_generated(&rt, 1)?;
    run_generated(&rt, 2)?;
    run_examples(&rt)
}
