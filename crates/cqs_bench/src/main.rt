//! Times what the program does with a plan on standard input: the parse of its document, the
//! reading of the plan, its run, or the reading and the run together, beside a plain fold over the
//! same parse; and its run by workers. And times the plan of a number, the judge of a history, and
//! the replies to requests.
//! Rounds of calls are timed by `cqs_bench_calls`.
//!
//! Each part prints one line, which starts with its word and its nanoseconds.
#![tactic(auto)]

mod fold;
mod histories;
mod limits;
mod words;
mod work;

ghost use Rattle.std.specs.Prelude.{◌≡◌};
ghost use Rattle.cqs_plan.specs.Floor.{opening_floor};
ghost use Rattle.cqs_plan.specs.Runnable.{AreSized, IsRunnable};

use cqs_cli::{CoreFloor, QueueFloor};
use cqs_plan::{Floor, Plan};
use cqs_plan_generator::make_plan;
use cqs_plan_reader::read_plan;
use cqs_turns::{Report, run_plan, summarize_plan};
use std::alloc::Global;
use std::env::{self, Args};
use std::io::Read;
use std::process::ExitCode;
use std::rt::Clock;
use std::sync::Wait;
use std::thread::Threads;
use std::time::Instant;
use words::{Asked, Part, asked_of, usage};

/// Prints the line of a part: its nanoseconds, and two numbers with their words.
fn tell(
    rt: &impl Print,
    word: &str,
    nanoseconds: u128,
    numbers: [(&str, u64); 2],
) -> anyhow::Result<()> {
    let [(first, count), (second, other)] = numbers;
    println!(rt; "{word} {nanoseconds} {first} {count} {second} {other}")?;
    Ok(())
}

/// The parse of the document, and the freeing of what was parsed.
fn time_parse(rt: &(impl Clock + Print + AllocGlobal), bytes: &[u8]) -> anyhow::Result<()> {
    let start = Instant::now(rt)?;
    let keys = match toml::table_from_slice(rt.alloc(), bytes) {
        Ok(table) => table.len(),
        Err(_) => anyhow::bail!("the input is no TOML document"),
    };
    let nanoseconds = start.elapsed(rt)?.as_nanos();
    let numbers = [("bytes", bytes.len() as u64), ("keys", keys as u64)];
    tell(rt, "toml", nanoseconds, numbers)
}

/// The reading of the plan, from its bytes on, and the freeing of the plan.
fn time_reading(rt: &(impl Clock + Print + AllocGlobal), bytes: &[u8]) -> anyhow::Result<()> {
    let start = Instant::now(rt)?;
    let jobs = match read_plan(rt.alloc(), bytes) {
        Ok(plan) => plan.jobs.as_slice().len(),
        Err(_) => anyhow::bail!("the input is no plan"),
    };
    let nanoseconds = start.elapsed(rt)?.as_nanos();
    let numbers = [("bytes", bytes.len() as u64), ("jobs", jobs as u64)];
    tell(rt, "plan", nanoseconds, numbers)
}

/// A sum over a text, by which two reports are compared.
fn sum_of(text: &[u8]) -> u64 {
    text.iter().fold(0u64, |sum, byte| {
        sum.wrapping_mul(31).wrapping_add(u64::from(*byte))
    })
}

/// Prints the nanoseconds since the start, and what compares a report with another.
fn tell_report(
    rt: &(impl Clock + Print),
    word: &str,
    start: Instant,
    text: &[u8],
) -> anyhow::Result<()> {
    let nanoseconds = start.elapsed(rt)?.as_nanos();
    let numbers = [("bytes", text.len() as u64), ("sum", sum_of(text))];
    tell(rt, word, nanoseconds, numbers)
}

/// The run of a plan on a floor on which nothing has happened.
fn run_on<F: Floor>(alloc: Global, plan: &Plan, floor: &mut F) -> anyhow::Result<Report>
    requires runnable { IsRunnable plan.now }
    requires opening { F.plain floor.old ≡ opening_floor plan.now }
{
    let mut report = Report::new(alloc);
    if run_plan(alloc, plan, floor, &mut report).is_err() {
        anyhow::bail!("no memory for the report");
    }
    Ok(report)
}

/// The run of a plan as the program runs it, on the running queue, with the making of its floor.
fn run(alloc: Global, plan: &Plan) -> anyhow::Result<Report>
    requires runnable { IsRunnable plan.now }
    requires sized { AreSized plan.now.resources }
{
    let Ok(mut floor) = QueueFloor::new(alloc, plan) else {
        anyhow::bail!("no memory for the floor");
    };
    run_on(alloc, plan, &mut floor)
}

/// The same on cores.
fn run_on_cores(alloc: Global, plan: &Plan) -> anyhow::Result<Report>
    requires runnable { IsRunnable plan.now }
    requires sized { AreSized plan.now.resources }
{
    let Ok(mut floor) = CoreFloor::new(alloc, plan) else {
        anyhow::bail!("no memory for the floor");
    };
    run_on(alloc, plan, &mut floor)
}

fn read_and_run(alloc: Global, bytes: &[u8]) -> anyhow::Result<Report> {
    let Ok(plan) = read_plan(alloc, bytes) else {
        anyhow::bail!("the input is no plan");
    };
    run(alloc, &plan)
}

/// The run of a plan that was read before, with the making of its floor.
fn time_run(rt: &(impl Clock + Print + AllocGlobal), bytes: &[u8]) -> anyhow::Result<()> {
    let alloc = rt.alloc();
    let Ok(plan) = read_plan(alloc, bytes) else {
        anyhow::bail!("the input is no plan");
    };
    let start = Instant::now(rt)?;
    let report = run(alloc, &plan)?;
    tell_report(rt, "run", start, report.text())
}

/// The same on cores.
fn time_cores(rt: &(impl Clock + Print + AllocGlobal), bytes: &[u8]) -> anyhow::Result<()> {
    let alloc = rt.alloc();
    let Ok(plan) = read_plan(alloc, bytes) else {
        anyhow::bail!("the input is no plan");
    };
    let start = Instant::now(rt)?;
    let report = run_on_cores(alloc, &plan)?;
    tell_report(rt, "cores", start, report.text())
}

/// The reading of a plan and its run, from its bytes to the report, and the freeing of the plan.
fn time_whole(rt: &(impl Clock + Print + AllocGlobal), bytes: &[u8]) -> anyhow::Result<()> {
    let start = Instant::now(rt)?;
    let report = read_and_run(rt.alloc(), bytes)?;
    tell_report(rt, "whole", start, report.text())
}

/// The same by the plain fold.
fn time_fold(rt: &(impl Clock + Print + AllocGlobal), bytes: &[u8]) -> anyhow::Result<()> {
    let start = Instant::now(rt)?;
    let Some(report) = fold::report_of(rt.alloc(), bytes) else {
        anyhow::bail!("the input is no plan of semaphores");
    };
    tell_report(rt, "fold", start, report.as_bytes())
}

/// The number whose plan is timed, and its jobs.
const NUMBER: u32 = 1;

const JOBS: u32 = 4096;

/// The making of the plan of a number and its run, to the lines after its last turn.
fn summary_of(alloc: Global) -> anyhow::Result<Vec<u8>> {
    let Ok(plan) = make_plan(alloc, NUMBER, JOBS) else {
        anyhow::bail!("no memory for the plan");
    };
    let Ok(mut floor) = QueueFloor::new(alloc, &plan) else {
        anyhow::bail!("no memory for the floor");
    };
    match summarize_plan(alloc, &plan, &mut floor) {
        Ok(summary) => Ok(summary),
        Err(_) => anyhow::bail!("no memory for the report"),
    }
}

/// The same, with the freeing of the plan and of its floor.
fn time_number(rt: &(impl Clock + Print + AllocGlobal)) -> anyhow::Result<()> {
    let start = Instant::now(rt)?;
    let summary = summary_of(rt.alloc())?;
    tell_report(rt, "gen", start, summary.as_slice())
}

/// Times a part of a run on the plan of these bytes.
fn time_part(
    rt: &(impl Clock + Print + AllocGlobal),
    part: Part,
    bytes: &[u8],
) -> anyhow::Result<()> {
    match part {
        Part::Document => time_parse(rt, bytes),
        Part::Reading => time_reading(rt, bytes),
        Part::Run => time_run(rt, bytes),
        Part::Cores => time_cores(rt, bytes),
        Part::Whole => time_whole(rt, bytes),
        Part::Fold => time_fold(rt, bytes),
    }
}

/// The same on the plan that the input says.
fn time_input<R: Clock + Print + AllocGlobal, I: Read>(
    rt: &R,
    part: Part,
    input: &mut I,
) -> anyhow::Result<()> {
    let mut bytes = Vec::new(rt.alloc());
    input.read_to_end(&mut bytes)?;
    time_part(rt, part, &bytes)
}

/// The status of what was measured.
fn status_of(measured: anyhow::Result<()>) -> anyhow::Result<ExitCode> {
    measured?;
    Ok(ExitCode::SUCCESS)
}

/// Measures what the first word asks for, by the words after it.
fn measure<R: Clock + Threads + Wait + Sync + Print + AllocGlobal, I: Read>(
    rt: &R,
    asked: Asked,
    words: Args,
    input: &mut I,
) -> anyhow::Result<ExitCode> {
    match asked {
        Asked::Part(part) => status_of(time_input(rt, part, input)),
        Asked::Number => status_of(time_number(rt)),
        Asked::Check => histories::measure(rt, words),
        Asked::Work => work::measure(rt, words, input),
        Asked::Limit => limits::measure(rt, words, input),
    }
}

fn main(rt: HostRuntime) -> anyhow::Result<ExitCode> {
    let mut words = env::args(&rt)?;
    let Some(word) = words.nth(1) else {
        return Ok(usage(&rt)?);
    };
    match asked_of(word.as_str()) {
        Some(asked) => measure(&rt, asked, words, &mut rt.stdin()),
        None => Ok(usage(&rt)?),
    }
}
