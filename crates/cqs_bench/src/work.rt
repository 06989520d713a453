//! Times the run of a plan by workers, as `cqs work` runs it: the making of their floors, their
//! turns, and the text of what they leave. The plan is read before.
//!
//! By the word WORKERS it prints one line: `work`, its nanoseconds, and the bytes of the text.

ghost use Rattle.std.specs.Prelude.{◌≤◌};
ghost use Rattle.cqs_plan.specs.Runnable.{AreSized, IsRunnable};

use crate::words::usage;
use cqs_cli_top::work_text;
use cqs_floor_shared_queue::shared_floors;
use cqs_plan::Plan;
use cqs_plan_reader::read_plan;
use cqs_work::{OpenGate, work_plan};
use std::alloc::Global;
use std::env::Args;
use std::io::Read;
use std::process::ExitCode;
use std::rt::Clock;
use std::sync::Wait;
use std::thread::Threads;
use std::time::Instant;

/// The text of what so many workers leave of a plan.
fn text_by<R: Threads + Wait + Sync>(
    rt: &R,
    alloc: Global,
    plan: &Plan,
    workers: u32,
) -> anyhow::Result<Vec<u8>>
    requires runnable { IsRunnable plan.now }
    requires sized { AreSized plan.now.resources }
    requires some { 1 ≤ workers }
    requires few { workers ≤ 16 }
{
    let Ok(floors) = shared_floors(alloc, plan, workers) else {
        anyhow::bail!("no memory for the floors");
    };
    let Ok(mut worked) = work_plan(rt, alloc, plan, floors, &OpenGate) else {
        anyhow::bail!("no memory for the workers");
    };
    match work_text(rt, alloc, plan, &mut worked) {
        Ok(text) => Ok(text),
        Err(_) => anyhow::bail!("no memory for the text"),
    }
}

/// Times so many workers on the plan of these bytes.
fn time_work<R: Threads + Wait + Sync + Clock + Print + AllocGlobal>(
    rt: &R,
    bytes: &[u8],
    workers: u32,
) -> anyhow::Result<()>
    requires some { 1 ≤ workers }
    requires few { workers ≤ 16 }
{
    let alloc = rt.alloc();
    let Ok(plan) = read_plan(alloc, bytes) else {
        anyhow::bail!("the input is no plan");
    };
    let start = Instant::now(rt)?;
    let text = text_by(rt, alloc, &plan, workers)?;
    let nanoseconds = start.elapsed(rt)?.as_nanos();
    println!(rt; "work {nanoseconds} bytes {} workers {workers}", text.len())?;
    Ok(())
}

/// Times the run of the plan that the input says, by as many workers as the first word says.
pub fn measure<R: Threads + Wait + Sync + Clock + Print + AllocGlobal, I: Read>(
    rt: &R,
    words: Args,
    input: &mut I,
) -> anyhow::Result<ExitCode> {
    let mut words = words;
    let Some(workers) = words.next().and_then(|text| text.parse::<u32>().ok()) else {
        return Ok(usage(rt)?);
    };
    if workers < 1 || workers > 16 {
        return Ok(usage(rt)?);
    }
    let mut bytes = Vec::new(rt.alloc());
    input.read_to_end(&mut bytes)?;
    time_work(rt, &bytes, workers)?;
    Ok(ExitCode::SUCCESS)
}
