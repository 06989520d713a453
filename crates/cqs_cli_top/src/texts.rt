//! The text of what workers left of a plan.

ghost use Rattle.std.specs.Prelude.{◌≡◌, ◌++◌, IfOk, OnOk, length};
ghost use Rattle.cqs_plan.specs.Runnable.{IsRunnable, kinds_of};
ghost use Rattle.cqs_floor_shared.specs.Calls.{HaveAllMet, IsAtRest};
ghost use Rattle.cqs_cli_top.specs.WorkText.{ends_text, jobs_text, waits_text, work_text};

use crate::lines::{push_job, push_total, push_wait};
use cqs_core::Memory;
use cqs_floor_shared::SharedFloor;
use cqs_plan::{Job, Plan};
use cqs_turns::Report;
use cqs_work::{JobEnd, WaitLine, Worked};
use std::alloc::Global;
use std::sync::Wait;

/// A line for each job, in the plan's order.
fn push_jobs(text: &mut Vec<u8>, jobs: &[Job], ends: &[JobEnd]) -> Result<(), Memory>
    requires { length ends.now ≡ length jobs.now }
    ensures { OnOk result (text.new.items ≡ text.old.items ++ jobs_text jobs.now ends.now) }
{
    for (place, job) in jobs.iter().enumerate() {
        push_job(text, job.name.as_slice(), ends[place])?;
    }
    Ok(())
}

/// A line for each wait.
fn push_waits(text: &mut Vec<u8>, plan: &Plan, waits: &[WaitLine]) -> Result<(), Memory>
    ensures { OnOk result (text.new.items ≡ text.old.items ++ waits_text plan.now waits.now) }
{
    for wait in waits {
        push_wait(text, plan, *wait)?;
    }
    Ok(())
}

/// A line for each resource, as the floor tells how it stands.
fn end_lines<R: Wait, F: SharedFloor>(
    rt: &R,
    alloc: Global,
    plan: &Plan,
    floor: &mut F,
) -> Result<Report, Memory>
    requires runnable { IsRunnable plan.now }
    requires kinds { (F.shared floor.old).board.kinds ≡ kinds_of plan.now.resources }
    requires met { HaveAllMet (F.shared floor.old) }
    requires rest { IsAtRest (F.shared floor.old).board }
    ensures lines { IfOk result
        (λ report. report ≡ ends_text plan.now.resources 0 (F.shared floor.old)) }
    ensures same { F.shared floor.new ≡ F.shared floor.old }
{
    let mut report = Report::new(alloc);
    for (at, resource) in plan.resources.as_slice().iter().enumerate() {
        let end = floor.end(rt, at as u32);
        report.tell_end(resource.name.as_slice(), end)?;
    }
    Ok(report)
}

/// The text of what workers left of a plan: how each job ended, whose each wait was, how the
/// resources stand, and how many jobs ended in each way. What they left stays as it is.
pub fn work_text<R: Wait, F: SharedFloor>(
    rt: &R,
    alloc: Global,
    plan: &Plan,
    worked: &mut Worked<F>,
) -> Result<Vec<u8>, Memory>
    requires runnable { IsRunnable plan.now }
    requires ends { length worked.old.ends ≡ length plan.now.jobs }
    requires kinds { (F.shared worked.old.floor).board.kinds ≡ kinds_of plan.now.resources }
    requires met { HaveAllMet (F.shared worked.old.floor) }
    requires rest { IsAtRest (F.shared worked.old.floor).board }
    ensures text { IfOk result (λ text. text.items ≡ work_text plan.now
        worked.old.ends worked.old.waits (F.shared worked.old.floor)) }
    ensures ends { worked.new.ends ≡ worked.old.ends }
    ensures waits { worked.new.waits ≡ worked.old.waits }
    ensures floor { F.shared worked.new.floor ≡ F.shared worked.old.floor }
{
    let mut text = Vec::new(alloc);
    push_jobs(&mut text, plan.jobs.as_slice(), worked.ends.as_slice())?;
    push_waits(&mut text, plan, worked.waits.as_slice())?;
    let lines = end_lines(rt, alloc, plan, &mut worked.floor)?;
    text.extend_from_slice(lines.text())?;
    push_total(&mut text, worked.ends.as_slice())?;
    Ok(text)
}
