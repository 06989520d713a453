//! What a number comes to: the summary of the run of its plan.

ghost use Rattle.std.specs.Prelude.{◌≡◌, ◌<◌, ◌≤◌, ◌^◌, IfOk, OnErr, OnOk};
ghost use Rattle.cqs_plan.specs.LegalFloor.{IsLegalFor};
ghost use Rattle.cqs_plan_generator.specs.Generated.{plan_of_number};
ghost use Rattle.cqs_cli.specs.KeptRuns.{KeepsFor, KeepsRun};
ghost use Rattle.cqs_cli.specs.Plans.{floor_after};
ghost use Rattle.cqs_cli.specs.Summaries.{asked_line, summary_text};
ghost use Rattle.cqs_cli.specs.Verdicts.{IsVerdictFor};

use crate::kept::Kept;
use crate::verdict::Verdict;
use cqs_core::Memory;
use cqs_floor_alone::QueueFloor;
use cqs_plan_generator::make_plan;
use cqs_turns::summarize_plan;
use itoa::Buffer;
use std::alloc::Global;

/// Runs the plan of a number with so many jobs, and makes what is written for it. With it the floor
/// of the run is kept.
pub fn judge_number(alloc: Global, number: u32, jobs: u32, kept: &mut Kept) -> Verdict
    requires number { number < 2 ^ 31 }
    requires jobs { (1 ≤ jobs) × (jobs ≤ 4096) }
    ensures right { IsVerdictFor number jobs result }
    ensures keeps { KeepsFor number jobs result kept.old kept.new }
{
    match summary_of(alloc, number, jobs, kept) {
        Ok(text) => Verdict::Summary(text),
        Err(_) => Verdict::NoMemory,
    }
}

/// What is written for the plan of a number. The plan is run over a floor on one primitive of the
/// running queue for each of its resources, which is kept.
fn summary_of(alloc: Global, number: u32, jobs: u32, kept: &mut Kept) -> Result<Vec<u8>, Memory>
    requires number { number < 2 ^ 31 }
    requires jobs { (1 ≤ jobs) × (jobs ≤ 4096) }
    ensures summed { IfOk result (λ text. text.items ≡ summary_text number jobs) }
    ensures legal { OnOk result
        (IsLegalFor (plan_of_number number jobs) (floor_after (plan_of_number number jobs))) }
    ensures keeps { OnOk result (KeepsRun (plan_of_number number jobs) kept.new) }
    ensures err { OnErr result (kept.new ≡ kept.old) }
{
    let plan = make_plan(alloc, number, jobs)?;
    let mut floor = QueueFloor::new(alloc, &plan)?;
    let summary = summarize_plan(alloc, &plan, &mut floor)?;
    let mut text = asked_line(alloc, number, jobs)?;
    text.extend_from_slice(summary.as_slice())?;
    floor.is_kept();
    *kept = Kept::Ran(floor);
    Ok(text)
}

/// The line of what was asked for.
fn asked_line(alloc: Global, number: u32, jobs: u32) -> Result<Vec<u8>, Memory>
    ensures { IfOk result (λ line. line.items ≡ asked_line number jobs) }
{
    let mut digits = Buffer::new();
    let mut line = Vec::from_slice(alloc, b"gen number ")?;
    line.extend_from_slice(digits.format(number).as_bytes())?;
    line.extend_from_slice(b" jobs ")?;
    line.extend_from_slice(digits.format(jobs).as_bytes())?;
    line.extend_from_slice(b"\n")?;
    Ok(line)
}
