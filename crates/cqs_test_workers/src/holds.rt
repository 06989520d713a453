//! Workers of whom one is held for a while before one of its calls.

use crate::gates::{JOBS, work_by};
use crate::lines::{have_same_ends, tells_all};
use cqs_work::HoldGate;
use std::alloc::Global;
use std::fs;
use std::rt::Files;
use std::sync::Wait;
use std::thread::{self, Threads};

/// So many turns the thread of the worker that is held yields.
const TURNS: u32 = 100_000;

/// A gate for each of four workers and each of its first eight calls.
fn all_gates(alloc: Global) -> anyhow::Result<Vec<HoldGate>> {
    let mut gates = Vec::new(alloc);
    for worker in 0..4 {
        for call in 1..=8 {
            gates.push(HoldGate::new(worker, call, TURNS))?;
        }
    }
    Ok(gates)
}

/// Whether four workers with this gate come to as many ends as there are jobs, and leave the
/// resources as one worker does.
fn end_alike<R: Threads + Wait + Sync + AllocGlobal>(
    rt: &R,
    plan: &str,
    stored: &str,
    gate: HoldGate,
) -> bool {
    let Ok(text) = work_by(rt, "4", plan, &gate) else {
        return false;
    };
    tells_all(text.as_str(), JOBS) && have_same_ends(text.as_str(), stored)
}

/// Each worker is held before each of its first calls, in a run for each. The runs are beside each
/// other, since a thread that yields on a busy machine waits long.
pub fn tell_holds<R: Threads + Wait + Sync + Files + Print + AllocGlobal>(
    rt: &R,
) -> anyhow::Result<()> {
    let plan = fs::read_to_string(rt, "buffers.toml")?;
    let stored = fs::read_to_string(rt, "buffers.text")?;
    let gates = all_gates(rt.alloc())?;
    let ends = thread::map_vec(
        rt,
        gates,
        &|gate| { end_alike(rt, plan.as_str(), stored.as_str(), gate) },
    )?;
    println!(rt;
        "buffers, 4 workers, each held before its calls 1 to 8: {} of {} runs as with one worker",
        ends.iter().filter(|alike| **alike).count(),
        ends.len()
    )?;
    Ok(())
}
