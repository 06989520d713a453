//! The judging of an input that workers are to run: it knows no sink.

ghost use Rattle.std.specs.Prelude.{◌≡◌, ◌+◌, ◌≤◌, IfOk, OnErr};
ghost use Rattle.cqs_plan.specs.Runnable.{AreSized, IsRunnable};
ghost use Rattle.cqs_cli_streams.specs.Stream.{GivesAtMost};
ghost use Rattle.cqs_cli.specs.Verdicts.{HasTaken};
ghost use Rattle.cqs_floor_shared_any.specs.AnyShares.{share_any};
ghost use Rattle.cqs_floor_shared_queue.specs.Ledgers.{shared_in};
ghost use Rattle.cqs_work.specs.Gated.{told_by};
ghost use Rattle.cqs_cli_top.specs.Commands.{LeavesAll};
ghost use Rattle.cqs_cli_top.specs.KeptWorks.{KeepsWork};
ghost use Rattle.cqs_cli_top.specs.Verdicts.{IsVerdict, IsVerdictOn};

use crate::floors::SharedQueueFloor;
use crate::kept::{Kept, keep_work};
use crate::texts::work_text;
use cqs_cli::Verdict;
use cqs_cli_streams::{LONGEST_INPUT, ReadError, Source, read_input};
use cqs_core::Memory;
use cqs_floor_shared_queue::{shared_floors, tell_passes};
use cqs_plan::{Plan, PlanError, fault_line};
use cqs_plan_reader::read_plan;
use cqs_work::{Gate, work_plan};
use std::alloc::Global;
use std::sync::Wait;
use std::thread::Threads;

/// What the source comes to for so many workers. The text that is to be written is made here, and
/// what is kept.
pub fn judge<R: Threads + Wait + Sync, S: Source, G: Gate + Sync>(
    rt: &R,
    alloc: Global,
    workers: u32,
    source: &mut S,
    gate: &G,
    kept: &mut Kept<SharedQueueFloor>,
) -> Verdict
    requires { (1 ≤ workers) × (workers ≤ 16) }
    ensures right { IsVerdict (shared_in share_any) (LeavesAll (told_by G.begun G.ended gate.now))
        S.left S.faults workers result source.old source.new kept.old kept.new }
    ensures taken { GivesAtMost (LONGEST_INPUT + 1) (S.left source.old) (S.left source.new) }
    ensures counted { HasTaken result (S.tally source.old) (S.tally source.new) }
{
    match read_input(alloc, source) {
        Ok(bytes) => judge_input(rt, alloc, &bytes, workers, gate, kept),
        Err(ReadError::Failed) => Verdict::SourceFailed,
        Err(ReadError::TooLong) => Verdict::TooLong,
        Err(ReadError::Memory) => Verdict::NoMemory,
    }
}

/// Reads an input as a plan and has workers run it, or makes the line that says what is wrong with
/// it.
fn judge_input<R: Threads + Wait + Sync, G: Gate + Sync>(
    rt: &R,
    alloc: Global,
    bytes: &[u8],
    workers: u32,
    gate: &G,
    kept: &mut Kept<SharedQueueFloor>,
) -> Verdict
    requires { (1 ≤ workers) × (workers ≤ 16) }
    ensures { IsVerdictOn (shared_in share_any) (LeavesAll (told_by G.begun G.ended gate.now))
        bytes.now workers result kept.old kept.new }
{
    match answer(rt, alloc, bytes, workers, gate, kept) {
        Ok(verdict) => verdict,
        Err(_) => Verdict::NoMemory,
    }
}

fn answer<R: Threads + Wait + Sync, G: Gate + Sync>(
    rt: &R,
    alloc: Global,
    bytes: &[u8],
    workers: u32,
    gate: &G,
    kept: &mut Kept<SharedQueueFloor>,
) -> Result<Verdict, Memory>
    requires { (1 ≤ workers) × (workers ≤ 16) }
    ensures right { IfOk result
        (λ verdict. IsVerdictOn (shared_in share_any) (LeavesAll (told_by G.begun G.ended gate.now))
        bytes.now workers verdict kept.old kept.new) }
    ensures err { OnErr result (kept.new ≡ kept.old) }
{
    match read_plan(alloc, bytes) {
        Ok(plan) => Ok(Verdict::Report(text_of(rt, alloc, &plan, workers, gate, kept)?)),
        Err(PlanError::NotToml) => Ok(Verdict::NoPlan(Vec::from_slice(
            alloc,
            b"bad plan: not a TOML document\n",
        )?)),
        Err(PlanError::Fault { place, kind }) => {
            Ok(Verdict::NoPlan(fault_line(alloc, &place, kind)?))
        }
        Err(PlanError::Memory) => Ok(Verdict::NoMemory),
    }
}

/// Has workers run a plan, and makes the text of what they leave, which is kept.
fn text_of<R: Threads + Wait + Sync, G: Gate + Sync>(
    rt: &R,
    alloc: Global,
    plan: &Plan,
    workers: u32,
    gate: &G,
    kept: &mut Kept<SharedQueueFloor>,
) -> Result<Vec<u8>, Memory>
    requires runnable { IsRunnable plan.now }
    requires sized { AreSized plan.now.resources }
    requires workers { (1 ≤ workers) × (workers ≤ 16) }
    ensures keeps { IfOk result
        (λ text. KeepsWork (shared_in share_any) (LeavesAll (told_by G.begun G.ended gate.now))
        plan.now workers text.items kept.new) }
    ensures err { OnErr result (kept.new ≡ kept.old) }
{
    let floors = shared_floors(alloc, plan, workers)?;
    let mut worked = work_plan(rt, alloc, plan, floors, gate)?;
    let text = work_text(rt, alloc, plan, &mut worked)?;
    tell_passes(&worked.floor);
    keep_work(kept, worked);
    Ok(text)
}
