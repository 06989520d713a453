//! The plans that a user would write, each with its report beside it.

use crate::case::Case;
use cqs_cli::DONE;
use std::fs;
use std::rt::Files;

const NAMES: [&str; 10] = [
    "empty",
    "two-jobs",
    "connection-pool",
    "nightly-batch",
    "job-server",
    "release",
    "log-file",
    "test-databases",
    "load-test",
    "pool-timeouts",
];

/// Whether the plan of this name runs, and its report is the stored one.
fn is_as_stored<R: Files + AllocGlobal>(rt: &R, name: &str) -> anyhow::Result<bool> {
    let alloc = rt.alloc();
    let plan = fs::read_to_string(rt, format!(in alloc; "examples/{name}.toml")?)?;
    let report = fs::read_to_string(rt, format!(in alloc; "examples/{name}.report")?)?;
    let mut case = Case::new(alloc)?;
    case.input = Vec::from_slice(alloc, plan.as_str().as_bytes())?;
    case.text = Vec::from_slice(alloc, report.as_str().as_bytes())?;
    case.ends(alloc, b"@", DONE, usize::MAX)
}

/// Runs each example, and prints how many there are, and each that isn't as it should be.
pub fn run_examples<R: Files + Print + AllocGlobal>(rt: &R) -> anyhow::Result<()> {
    let mut failed = 0u64;
    for name in NAMES {
        if !is_as_stored(rt, name)? {
            println!(rt; "example {name}: NOT as stored")?;
            failed = failed.saturating_add(1);
        }
    }
    println!(rt; "examples: {} plans, {failed} failed", NAMES.len())?;
    Ok(())
}
