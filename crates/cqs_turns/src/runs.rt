//! A whole run of a plan.

ghost use Rattle.std.specs.Prelude.{◌≡◌, ◌++◌, [], length, vec_len, IfOk, OnOk, OnErr};
ghost use Rattle.cqs_plan.specs.Floor.{opening_floor};
ghost use Rattle.cqs_plan.specs.LegalFloor.{IsLegalFloor, IsLegalFor};
ghost use Rattle.cqs_plan.specs.Runnable.{IsRunnable, kinds_of};
ghost use Rattle.cqs_turns_report.specs.Lines.{ends_text};
ghost use Rattle.cqs_core.specs.Parts.{IsPrefix};
ghost use Rattle.cqs_turns_report.specs.Report.{report_of, summary_of};
ghost use Rattle.cqs_turns_report.specs.Running.{IsRunning, IsKept, machine_of, IsOpening, AreOpening};
ghost use Rattle.cqs_turns_report.specs.Turns.{machine_after, opening_machine};

use crate::turns::one_turn;
use cqs_core::Memory;
use cqs_plan::{Floor, Job, Plan, Step};
use cqs_turns_report::{JobState, Patience, Progress, Report};
use std::alloc::Global;

/// A job that hasn't begun, with memory for all that it takes.
fn opening_state(alloc: Global, job: &Job) -> Result<JobState, Memory>
    ensures { IfOk result IsOpening }
{
    let takes = job
        .steps
        .as_slice()
        .iter()
        .filter(|step| matches!(step, Step::Take(_)))
        .count();
    Ok(JobState {
        progress: Progress::Stepping(0),
        patience: Patience { since: 0, used: 0 },
        held: Vec::with_capacity(alloc, takes)?,
    })
}

/// The jobs before the first turn.
#[tactic(auto, using(crate::proofs::Ends::opening_push))]
fn opening_states(alloc: Global, jobs: &[Job]) -> Result<Vec<JobState>, Memory>
    ensures len { IfOk result (λ states. vec_len states ≡ length jobs.now) }
    ensures opening { IfOk result (λ states. AreOpening states.items) }
{
    let mut states = Vec::with_capacity(alloc, jobs.len())?;
    for job in jobs {
        states.push(opening_state(alloc, job)?)?;
    }
    Ok(states)
}

/// All turns, one after the other.
fn all_turns<F: Floor>(
    floor: &mut F,
    report: &mut Report,
    plan: &Plan,
    states: &mut [JobState],
) -> Result<(), Memory>
    requires runnable { IsRunnable plan.now }
    requires opening { machine_of (F.plain floor.old) report.old states.old
        ≡ opening_machine plan.now }
    requires kept { IsKept (F.plain floor.old) states.old }
    ensures ok { OnOk result (machine_of (F.plain floor.new) report.new states.new ≡
        machine_after plan.now plan.now.turns) }
    ensures running { OnOk result (IsRunning plan.now
        (machine_of (F.plain floor.new) report.new states.new)) }
    ensures err { OnErr result (IsPrefix report.new
        (machine_after plan.now plan.now.turns).scene.text) }
{
    for turn in 0..plan.turns {
        one_turn(floor, report, plan, turn, states)?;
    }
    Ok(())
}

/// The lines of the resources, in order.
fn tell_ends<F: Floor>(floor: &mut F, report: &mut Report, plan: &Plan) -> Result<(), Memory>
    requires runnable { IsRunnable plan.now }
    requires kinds { (F.plain floor.old).kinds ≡ kinds_of plan.now.resources }
    ensures same { F.plain floor.new ≡ F.plain floor.old }
    ensures legal { OnOk result (IsLegalFloor (F.plain floor.new)) }
    ensures ok { OnOk result (report.new
        ≡ report.old ++ ends_text plan.now.resources 0 (F.plain floor.old)) }
    ensures err { OnErr result (IsPrefix report.new
        (report.old ++ ends_text plan.now.resources 0 (F.plain floor.old))) }
{
    for (at, resource) in plan.resources.as_slice().iter().enumerate() {
        let end = floor.end(at as u32);
        report.tell_end(resource.name.as_slice(), end)?;
    }
    Ok(())
}

/// Runs a plan on a floor: all its turns, job by job, with a line in the report for each event, and
/// then the lines of the resources and the totals. Memory can run out between two lines; the report
/// then has the lines so far.
pub fn run_plan<F: Floor>(
    alloc: Global,
    plan: &Plan,
    floor: &mut F,
    report: &mut Report,
) -> Result<(), Memory>
    requires runnable { IsRunnable plan.now }
    requires opening { F.plain floor.old ≡ opening_floor plan.now }
    requires empty { report.old ≡ [] }
    ensures floor { OnOk result (F.plain floor.new
        ≡ (machine_after plan.now plan.now.turns).scene.floor) }

    // What happened at each of the plan's resources is a legal history of it.
    ensures legal { OnOk result (IsLegalFor plan.now (F.plain floor.new)) }
    ensures report { OnOk result (report.new ≡ report_of plan.now) }
    ensures err { OnErr result (IsPrefix report.new (report_of plan.now)) }
{
    let mut states = opening_states(alloc, plan.jobs.as_slice())?;
    all_turns(floor, report, plan, states.as_mut_slice())?;
    tell_ends(floor, report, plan)?;
    report.tell_total(states.as_slice())
}

/// Runs a plan on a floor as `run_plan` does, and tells only what its report says after the last
/// turn: the lines of the resources and the totals.
pub fn summarize_plan<F: Floor>(
    alloc: Global,
    plan: &Plan,
    floor: &mut F,
) -> Result<Vec<u8>, Memory>
    requires runnable { IsRunnable plan.now }
    requires opening { F.plain floor.old ≡ opening_floor plan.now }
    ensures floor { OnOk result (F.plain floor.new
        ≡ (machine_after plan.now plan.now.turns).scene.floor) }
    ensures legal { OnOk result (IsLegalFor plan.now (F.plain floor.new)) }
    ensures summary { IfOk result (λ text. text.items ≡ summary_of plan.now) }
{
    let mut report = Report::new(alloc);
    let mut states = opening_states(alloc, plan.jobs.as_slice())?;
    all_turns(floor, &mut report, plan, states.as_mut_slice())?;
    report.clear();
    tell_ends(floor, &mut report, plan)?;
    report.tell_total(states.as_slice())?;
    Ok(report.into_text())
}
