//! The turns of a plan.

ghost use Rattle.std.specs.Prelude.{◌≡◌, ◌≤◌, ◌<◌, Some, length, slice_get, OnOk, OnErr};
ghost use Rattle.cqs_plan.specs.Runnable.{IsRunnable};
ghost use Rattle.cqs_core.specs.Parts.{IsPrefix};
ghost use Rattle.cqs_turns_report.specs.Roles.{role};
ghost use Rattle.cqs_turns_report.specs.Running.{IsRunning, IsKept, machine_of, turn_at};
ghost use Rattle.cqs_turns_report.specs.Turns.{one_turn};

use crate::acts::act;
use cqs_core::Memory;
use cqs_plan::{Floor, Plan};
use cqs_turns_report::{Actor, JobState, Report};

/// The job at this place, in this turn.
fn actor_at(plan: &Plan, turn: u32, place: u32) -> Actor<'_>
    requires { place < length plan.now.jobs }
    ensures resources { (role result).resources ≡ plan.now.resources }
    ensures turn { (role result).turn ≡ turn }
    ensures place { (role result).place ≡ place }
    ensures job { slice_get plan.now.jobs place ≡ Some (role result).job }
{
    Actor {
        resources: plan.resources.as_slice(),
        turn,
        place,
        job: &plan.jobs.as_slice()[place as usize],
    }
}

/// The job at this place has its turn.
fn one_job<F: Floor>(
    floor: &mut F,
    report: &mut Report,
    plan: &Plan,
    turn: u32,
    place: u32,
    states: &mut [JobState],
) -> Result<(), Memory>
    requires runnable { IsRunnable plan.now }
    requires running { IsRunning plan.now (machine_of (F.plain floor.old) report.old states.old) }
    requires kept { IsKept (F.plain floor.old) states.old }
    requires turn { turn ≤ 40000 }
    requires place { place < length plan.now.jobs }
    ensures ok { OnOk result (machine_of (F.plain floor.new) report.new states.new ≡
        turn_at plan.now turn place (machine_of (F.plain floor.old) report.old states.old)) }
    ensures running { OnOk result (IsRunning plan.now
        (machine_of (F.plain floor.new) report.new states.new)) }
    ensures kept { OnOk result (IsKept (F.plain floor.new) states.new) }
    ensures err { OnErr result (IsPrefix report.new
        (turn_at plan.now turn place
        (machine_of (F.plain floor.old) report.old states.old)).scene.text) }
{
    // In most turns most jobs rest, and this look is all that those turns cost.
    if states[place as usize].progress.rests(turn) {
        return Ok(());
    }
    let actor = actor_at(plan, turn, place);
    act(floor, report, &actor, &mut states[place as usize])
}

/// Every job has its turn, in order.
pub fn one_turn<F: Floor>(
    floor: &mut F,
    report: &mut Report,
    plan: &Plan,
    turn: u32,
    states: &mut [JobState],
) -> Result<(), Memory>
    requires runnable { IsRunnable plan.now }
    requires running { IsRunning plan.now (machine_of (F.plain floor.old) report.old states.old) }
    requires kept { IsKept (F.plain floor.old) states.old }
    requires turn { turn ≤ 40000 }
    ensures ok { OnOk result (machine_of (F.plain floor.new) report.new states.new ≡
        one_turn plan.now turn (machine_of (F.plain floor.old) report.old states.old)) }
    ensures running { OnOk result (IsRunning plan.now
        (machine_of (F.plain floor.new) report.new states.new)) }
    ensures kept { OnOk result (IsKept (F.plain floor.new) states.new) }
    ensures err { OnErr result (IsPrefix report.new
        (one_turn plan.now turn
        (machine_of (F.plain floor.old) report.old states.old)).scene.text) }
{
    for place in 0..plan.jobs.as_slice().len() {
        one_job(floor, report, plan, turn, place as u32, states)?;
    }
    Ok(())
}
