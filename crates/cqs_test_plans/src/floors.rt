//! Both floors: a plan is run on semaphores of the running queue, and again on cores.

ghost use Rattle.std.specs.Prelude.{◌≡◌, ◌≢◌, IfOk};
ghost use Rattle.cqs_plan.specs.Floor.{opening_floor};
ghost use Rattle.cqs_plan.specs.Runnable.{IsRunnable};
ghost use Rattle.cqs_turns_report.specs.Report.{report_of};

use cqs_cli::{CoreFloor, QueueFloor};
use cqs_plan::{Floor, Memory, Plan, PlanError};
use cqs_plan_reader::read_plan;
use cqs_turns::{Report, run_plan};
use std::alloc::Global;

/// What a run of the same bytes on both floors came to.
#[derive(Drop)]
pub enum Compared {
    /// The bytes are no plan.
    NoPlan,
    /// The two reports are the same, byte for byte. This is one of them.
    Same(Report),
    /// They aren't.
    Different,
}

/// The report of a plan on a floor on which nothing has happened.
fn report_on<F: Floor + Drop>(alloc: Global, plan: &Plan, floor: F) -> Result<Report, Memory>
    requires runnable { IsRunnable plan.now }
    requires opening { F.plain floor ≡ opening_floor plan.now }
    ensures { IfOk result (λ report. report ≡ report_of plan.now) }
{
    let mut floor = floor;
    let mut report = Report::new(alloc);
    run_plan(alloc, plan, &mut floor, &mut report)?;
    Ok(report)
}

/// Runs a plan on both floors, and compares the reports byte for byte. They are the same.
pub fn compare(alloc: Global, bytes: &[u8]) -> Result<Compared, Memory>
    ensures { IfOk result (λ compared. compared ≢ Compared.Different) }
{
    let plan = match read_plan(alloc, bytes) {
        Ok(plan) => plan,
        Err(PlanError::Memory) => return Err(Memory),
        Err(PlanError::NotToml) | Err(PlanError::Fault { .. }) => return Ok(Compared::NoPlan),
    };
    let on_queue = report_on(alloc, &plan, QueueFloor::new(alloc, &plan)?)?;
    let on_cores = report_on(alloc, &plan, CoreFloor::new(alloc, &plan)?)?;
    if on_queue.text() == on_cores.text() {
        Ok(Compared::Same(on_queue))
    } else {
        Ok(Compared::Different)
    }
}
