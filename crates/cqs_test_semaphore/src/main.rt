//! Makes the calls of data/ on a semaphore with one caller, and counts those that don't answer as
//! they should.
//!
//! A file of calls is a text of lines, each of which asks, and says what is to be answered:
//! `acquire: Later 0`. A line that begins with `=== ` is a heading, for the reader alone.
//!
//! | line | what is asked, and what may be answered |
//! |---|---|
//! | `semaphore 1 2 4 6` | one of so many permits, passes, waits and slots: `Ok`, `BadConfig` |
//! | `acquire` | `Now`, `Now by 3`, `Later 3`, `Worn`, `Crowded` |
//! | `try` | `Got`, `Busy`, `Contended 1 0` |
//! | `poll 3` | at the wait 3: `Granted`, `Pending` |
//! | `cancel 3` | of the wait 3: `Cancelled`, `Cancelled, owing from 63`, `TooLate` |
//! | `release` | of the last permit: `Freed`, `Sent 3`, `Left 3`, `Void 3`, `Under 63`, `Crowded` |
//! | `finish` | of what is owed: the same |
//! | `state`, `held`, `waits`, `owes`, `sole` | a number, or `true` or `false` |
//!
//! What the caller may not ask is `Refused`: a call while it owes something, one with a wait or a
//! permit that it hasn't, and one that there isn't.
#![tactic(auto)]

mod answers;
mod asking;
mod caller;

use crate::asking::answer;
use crate::caller::Caller;
use cqs_rule::Config;
use std::fs;
use std::rt::Files;

/// The files of calls, each of which ends with `.calls`.
const FILES: [&str; 4] = ["sizes", "calls", "slots", "random"];

const SMALL: Config = Config {
    passes: 1,
    limit: 1,
    slots: 4,
};

/// Asks what a file asks. Prints how many lines there are, and the place of each that isn't
/// answered as it should be.
fn run_file<R: Files + Print + AllocGlobal>(rt: &R, name: &str) -> anyhow::Result<()> {
    let alloc = rt.alloc();
    let text = fs::read_to_string(rt, format!(in alloc; "{name}.calls")?)?;
    let Ok(mut caller) = Caller::new(alloc, 1, SMALL) else {
        anyhow::bail!("no memory for a semaphore");
    };
    let (mut number, mut asked, mut failed) = (0u64, 0u64, 0u64);
    for line in text.as_str().lines() {
        number = number.saturating_add(1);
        if line.starts_with("=== ") {
            continue;
        }
        let Some((question, wanted)) = line.split_once(": ") else {
            anyhow::bail!("{name}, line {number}: no question and answer");
        };
        asked = asked.saturating_add(1);
        let found = answer(alloc, &mut caller, question)?;
        if found.as_str() != wanted {
            failed = failed.saturating_add(1);
            println!(rt; "{name}, line {number}: {question} answers {found}, NOT {wanted}")?;
        }
    }
    println!(rt; "{name}: {asked} lines, {failed} failed")?;
    Ok(())
}

fn main(rt: HostRuntime) -> anyhow::Result<()> {
    for name in FILES {
        run_file(&rt, name)?;
    }
    Ok(())
}
