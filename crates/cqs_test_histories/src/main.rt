//! Makes of the texts of data/ what its commands say, and counts those that don't come out as they
//! should.
//!
//! A case begins with a heading behind `=== `. Its next line is the command, its further lines are
//! the text, and behind a line `---` stands what is to be written.
//!
//! | command | what it writes |
//! |---|---|
//! | `replay` | what the events of a schedule answer |
//! | `history` | the history of its run |
//! | `rewrite` | the schedule, read and written again |
//! | `check` | whether a history is legal, and how the semaphore stands then |
//! | one of these and ` cut` | the same of the text without its last byte |
#![tactic(auto)]

mod asking;
mod long;

use crate::asking::answer;
use crate::long::judge_long_history;
use std::fs;
use std::rt::Files;

/// The files of cases, each of which ends with `.cases`.
const FILES: [&str; 3] = ["rows", "random", "logged"];

/// How many cases of a file were tried, and how many didn't come out as they should.
#[derive(Clone, Copy, Default)]
struct Tally {
    tried: u64,
    failed: u64,
}

/// Whether a case comes out as it should. Prints its heading where it doesn't.
fn comes_out<R: Print + AllocGlobal>(rt: &R, name: &str, case: &str) -> anyhow::Result<bool> {
    let Some((heading, rest)) = case.split_once("\n") else {
        anyhow::bail!("{name}: a case without a heading");
    };
    let Some((command, rest)) = rest.split_once("\n") else {
        anyhow::bail!("{name}: a case without a command");
    };
    let Some((text, wanted)) = rest.split_once("---\n") else {
        anyhow::bail!("{name}: a case without an end");
    };
    let found = answer(rt.alloc(), command, text)?;
    let right = found.as_slice() == wanted.as_bytes();
    if !right {
        println!(rt; "{name}: {command}: {heading}")?;
    }
    Ok(right)
}

/// Tries the cases of a text.
fn try_cases<R: Print + AllocGlobal>(rt: &R, name: &str, text: &str) -> anyhow::Result<Tally> {
    let mut tally = Tally::default();
    for case in text.split("=== ") {
        if !case.is_empty() {
            tally.tried = tally.tried.saturating_add(1);
            if !comes_out(rt, name, case)? {
                tally.failed = tally.failed.saturating_add(1);
            }
        }
    }
    Ok(tally)
}

/// Tries the cases of a file. Prints how many there are, and before that the heading of each that
/// doesn't come out as it should.
fn run_file<R: Files + Print + AllocGlobal>(rt: &R, name: &str) -> anyhow::Result<()> {
    let path = format!(in rt.alloc(); "{name}.cases")?;
    let text = fs::read_to_string(rt, path)?;
    let tally = try_cases(rt, name, text.as_str())?;
    println!(rt; "{name}: {} cases, {} failed", tally.tried, tally.failed)?;
    Ok(())
}

fn main(rt: HostRuntime) -> anyhow::Result<()> {
    for name in FILES {
        run_file(&rt, name)?;
    }
    let found = judge_long_history(rt.alloc(), 250_000)?;
    println!(rt; "{found}")?;
    Ok(())
}
