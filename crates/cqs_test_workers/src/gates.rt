//! Workers whose calls a gate sees, on the plans of data/.

use crate::call::{call_by, words_of};
use crate::gate::Meeting;
use crate::holds::tell_holds;
use crate::lines::{has_line, have_same_ends, tells_all};
use crate::stall::Stall;
use crate::tally::Tally;
use cqs_work::{Gate, OpenGate};
use std::fs;
use std::rt::Files;
use std::sync::Wait;
use std::thread::Threads;

/// How many jobs the plan of the buffers has.
pub const JOBS: u64 = 41;

/// The status of a call whose whole text was written.
const DONE: u8 = 0;

/// What so many workers write of a plan, each of their calls by way of the gate.
pub fn work_by<R: Threads + Wait + Sync + AllocGlobal, G: Gate + Sync>(
    rt: &R,
    workers: &str,
    plan: &str,
    gate: &G,
) -> anyhow::Result<String> {
    let alloc = rt.alloc();
    let line = format!(in alloc; "work --workers {workers}")?;
    let said = call_by(rt, alloc, &words_of(alloc, line.as_str())?, plan, gate)?;
    anyhow::ensure!(said.status == DONE, "the status is {}", said.status);
    Ok(said.text)
}

/// Two workers, of which each is held until the other has come so far.
fn tell_meeting<R: Threads + Wait + Sync + Files + Print + AllocGlobal>(
    rt: &R,
) -> anyhow::Result<()> {
    let plan = fs::read_to_string(rt, "meeting.toml")?;
    let gate = Meeting::new();
    let text = work_by(rt, "2", plan.as_str(), &gate)?;
    print!(rt; "{}", text.as_str())?;
    println!(rt;
        "the first worker came to its first call: {}",
        gate.was_begun(rt)
    )?;
    println!(rt;
        "the second was answered meanwhile: {}",
        gate.was_served(rt)
    )?;
    println!(rt; "a worker was held in vain: {}", gate.was_in_vain(rt))?;
    Ok(())
}

/// The two workers of `limit`, of which each is held until the other has come so far.
fn tell_requests<R: Threads + Wait + Sync + Print + AllocGlobal>(rt: &R) -> anyhow::Result<()> {
    let alloc = rt.alloc();
    let gate = Meeting::new();
    let requests = "tenants 1 1\nenter 0 5\nenter 1 6\nleave 1 6\n";
    let said = call_by(rt, alloc, &words_of(alloc, "limit")?, requests, &gate)?;
    anyhow::ensure!(said.status == DONE, "the status is {}", said.status);
    print!(rt; "{}", said.text.as_str())?;
    println!(rt;
        "a worker of requests was held in vain: {}",
        gate.was_in_vain(rt)
    )?;
    Ok(())
}

/// Four workers, of whom the first is stalled in the middle of its turn until the others have
/// ended.
fn tell_stall<R: Threads + Wait + Sync + Files + Print + AllocGlobal>(
    rt: &R,
) -> anyhow::Result<()> {
    let plan = fs::read_to_string(rt, "stalled.toml")?;
    let gate = Stall::new();
    let text = work_by(rt, "4", plan.as_str(), &gate)?;
    print!(rt; "{}", text.as_str())?;
    println!(rt;
        "a worker stalled while the others ended: {} of 3, in vain {}",
        gate.ended(rt),
        gate.was_in_vain(rt)
    )?;
    Ok(())
}

/// One worker, of whose calls each is counted.
fn tell_calls<R: Threads + Wait + Sync + Files + Print + AllocGlobal>(
    rt: &R,
) -> anyhow::Result<()> {
    let plan = fs::read_to_string(rt, "two-jobs.toml")?;
    let gate = Tally::new();
    work_by(rt, "1", plan.as_str(), &gate)?;
    println!(rt;
        "two jobs, 1 worker: {} calls, told of one by one {}",
        gate.made(rt),
        gate.are_in_order(rt)
    )?;
    Ok(())
}

/// So many workers on the plan of the buffers.
fn tell_workers<R: Threads + Wait + Sync + Files + Print + AllocGlobal>(
    rt: &R,
    workers: &str,
) -> anyhow::Result<()> {
    let plan = fs::read_to_string(rt, "buffers.toml")?;
    let stored = fs::read_to_string(rt, "buffers.text")?;
    let text = work_by(rt, workers, plan.as_str(), &OpenGate)?;
    println!(rt;
        "buffers, {workers} workers: all jobs told {}, boss done {}, resources as with one {}",
        tells_all(text.as_str(), JOBS),
        has_line(text.as_str(), "job boss done"),
        have_same_ends(text.as_str(), stored.as_str())
    )?;
    Ok(())
}

/// Tells of all of these.
pub fn tell_gates<R: Threads + Wait + Sync + Files + Print + AllocGlobal>(
    rt: &R,
) -> anyhow::Result<()> {
    tell_meeting(rt)?;
    tell_requests(rt)?;
    tell_calls(rt)?;
    tell_workers(rt, "4")?;
    tell_workers(rt, "16")?;
    tell_stall(rt)?;
    tell_holds(rt)
}
