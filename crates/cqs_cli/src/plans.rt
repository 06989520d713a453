//! What an input comes to: the report of a plan, or the line that says what is wrong.

ghost use Rattle.std.specs.Prelude.{◌≡◌, IfOk, OnErr, OnOk};
ghost use Rattle.cqs_plan.specs.LegalFloor.{IsLegalFor};
ghost use Rattle.cqs_plan.specs.Runnable.{AreSized, IsRunnable};
ghost use Rattle.cqs_turns_report.specs.Report.{report_of};
ghost use Rattle.cqs_cli.specs.KeptRuns.{KeepsRun, KeepsWith};
ghost use Rattle.cqs_cli.specs.Plans.{floor_after};
ghost use Rattle.cqs_cli.specs.Verdicts.{IsVerdictOn};

use crate::kept::Kept;
use crate::verdict::Verdict;
use cqs_core::Memory;
use cqs_floor_alone::QueueFloor;
use cqs_plan::{Plan, PlanError, fault_line};
use cqs_plan_reader::read_plan;
use cqs_turns::{Report, run_plan};
use std::alloc::Global;

/// Reads an input as a plan, and makes its report or the line that says what is wrong with it.
/// With a report it keeps the floor of the run.
pub fn judge_input(alloc: Global, bytes: &[u8], kept: &mut Kept) -> Verdict
    ensures right { IsVerdictOn bytes.now result }
    ensures keeps { KeepsWith bytes.now result kept.old kept.new }
{
    match answer(alloc, bytes, kept) {
        Ok(verdict) => verdict,
        Err(_) => Verdict::NoMemory,
    }
}

fn answer(alloc: Global, bytes: &[u8], kept: &mut Kept) -> Result<Verdict, Memory>
    ensures right { IfOk result (IsVerdictOn bytes.now) }
    ensures keeps { IfOk result (λ verdict. KeepsWith bytes.now verdict kept.old kept.new) }
    ensures err { OnErr result (kept.new ≡ kept.old) }
{
    match read_plan(alloc, bytes) {
        Ok(plan) => Ok(Verdict::Report(report_of(alloc, &plan, kept)?)),
        Err(PlanError::NotToml) => Ok(Verdict::NoPlan(Vec::from_slice(
            alloc,
            b"bad plan: not a TOML document\n",
        )?)),
        Err(PlanError::Fault { place, kind }) => {
            Ok(Verdict::NoPlan(fault_line(alloc, &place, kind)?))
        }
        Err(PlanError::Memory) => Ok(Verdict::NoMemory),
    }
}

/// The report of a plan, over a floor on one primitive of the running queue for each of the plan's
/// resources, which is kept.
fn report_of(alloc: Global, plan: &Plan, kept: &mut Kept) -> Result<Vec<u8>, Memory>
    requires runnable { IsRunnable plan.now }
    requires sized { AreSized plan.now.resources }
    ensures reported { IfOk result (λ text. text.items ≡ report_of plan.now) }
    ensures legal { OnOk result (IsLegalFor plan.now (floor_after plan.now)) }
    ensures keeps { OnOk result (KeepsRun plan.now kept.new) }
    ensures err { OnErr result (kept.new ≡ kept.old) }
{
    let mut floor = QueueFloor::new(alloc, plan)?;
    let mut told = Report::new(alloc);
    run_plan(alloc, plan, &mut floor, &mut told)?;
    floor.is_kept();
    *kept = Kept::Ran(floor);
    Ok(told.into_text())
}
