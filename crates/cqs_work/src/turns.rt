//! The turns of a worker's jobs, and what follows the last one.

ghost use Rattle.std.specs.Prelude.{◌≡◌, ◌≤◌, ◌<◌, [], None, Some, length, slice_get, OnOk};
ghost use Rattle.cqs_plan.specs.Runnable.{IsRunnable};
ghost use Rattle.cqs_turns_report.specs.Ready.{wait_in};
ghost use Rattle.cqs_turns_report.specs.Roles.{role};
ghost use Rattle.cqs_turns_report.specs.Turns.{places_held};
ghost use Rattle.cqs_work.specs.Heard.{Hears};
ghost use Rattle.cqs_work.specs.Roles.{same};
ghost use Rattle.cqs_work.specs.Hands.{at_hand};
ghost use Rattle.cqs_work.specs.Adds.{Keeps};
ghost use Rattle.cqs_work.specs.Courses.{Went};
ghost use Rattle.cqs_work.specs.Doing.{Stands, GaveUp};
ghost use Rattle.cqs_work.specs.Stages.{stage_of, stages_of};
ghost use Rattle.cqs_work.specs.Works.{machine_so, job_turn_so, turn_so, turns_of, close, close_all, line_left_so, IsClear, AllClear, RunsOn};

use crate::acts::{act, give_all, leave};
use crate::clerk::Clerk;
use crate::gate::Gate;
use cqs_core::Memory;
use cqs_floor_shared::SharedFloor;
use cqs_plan::Plan;
use cqs_turns_report::{Actor, JobState, Progress};
use std::sync::Wait;
use std::thread::Threads;

/// The job at this place, in this turn.
fn actor_at(plan: &Plan, turn: u32, place: u32) -> Actor<'_>
    requires { place < length plan.now.jobs }
    ensures resources { (role result).resources ≡ plan.now.resources }
    ensures turn { (role result).turn ≡ turn }
    ensures place { (role result).place ≡ place }
    ensures job { slice_get plan.now.jobs place ≡ Some (role result).job }
{
    Actor {
        resources: plan.resources.as_slice(),
        turn,
        place,
        job: &plan.jobs.as_slice()[place as usize],
    }
}

/// The job at this place has its turn.
fn one_job<R: Threads + Wait, G: Gate, F: SharedFloor>(
    clerk: &mut Clerk<'_, R, G, F>,
    plan: &Plan,
    turn: u32,
    place: u32,
    states: &mut [JobState],
) -> Result<(), Memory>
    requires runnable { IsRunnable plan.now }
    requires runs { RunsOn plan.now (F.shared clerk.old.floor) states.old }
    requires turn { turn ≤ 40000 }
    requires place { place < length plan.now.jobs }
    ensures heard { OnOk result (Hears (at_hand F.shared G.begun G.ended clerk.old)
        (at_hand F.shared G.begun G.ended clerk.new)
        (job_turn_so plan.now turn place (stages_of states.old))
        (machine_so (stages_of states.new))) }
    ensures runs { OnOk result (RunsOn plan.now (F.shared clerk.new.floor) states.new) }
    ensures went { OnOk result (Went plan.now (at_hand F.shared G.begun G.ended clerk.old)
        (stages_of states.old)
        (at_hand F.shared G.begun G.ended clerk.new) (stages_of states.new)) }
{
    let actor = actor_at(plan, turn, place);
    act(clerk, &actor, &mut states[place as usize])
}

/// Every job has its turn, in order.
fn one_turn<R: Threads + Wait, G: Gate, F: SharedFloor>(
    clerk: &mut Clerk<'_, R, G, F>,
    plan: &Plan,
    turn: u32,
    states: &mut [JobState],
) -> Result<(), Memory>
    requires runnable { IsRunnable plan.now }
    requires runs { RunsOn plan.now (F.shared clerk.old.floor) states.old }
    requires turn { turn ≤ 40000 }
    ensures heard { OnOk result (Hears (at_hand F.shared G.begun G.ended clerk.old)
        (at_hand F.shared G.begun G.ended clerk.new)
        (turn_so plan.now turn (stages_of states.old)) (machine_so (stages_of states.new))) }
    ensures runs { OnOk result (RunsOn plan.now (F.shared clerk.new.floor) states.new) }
    ensures went { OnOk result (Went plan.now (at_hand F.shared G.begun G.ended clerk.old)
        (stages_of states.old)
        (at_hand F.shared G.begun G.ended clerk.new) (stages_of states.new)) }
{
    for place in 0..plan.jobs.as_slice().len() {
        one_job(clerk, plan, turn, place as u32, states)?;
    }
    Ok(())
}

/// All turns, one after the other.
pub fn all_turns<R: Threads + Wait, G: Gate, F: SharedFloor>(
    clerk: &mut Clerk<'_, R, G, F>,
    plan: &Plan,
    states: &mut [JobState],
) -> Result<(), Memory>
    requires runnable { IsRunnable plan.now }
    requires runs { RunsOn plan.now (F.shared clerk.old.floor) states.old }
    ensures heard { OnOk result (Hears (at_hand F.shared G.begun G.ended clerk.old)
        (at_hand F.shared G.begun G.ended clerk.new)
        (turns_of plan.now plan.now.turns (stages_of states.old))
        (machine_so (stages_of states.new))) }
    ensures runs { OnOk result (RunsOn plan.now (F.shared clerk.new.floor) states.new) }
    ensures went { OnOk result (Went plan.now (at_hand F.shared G.begun G.ended clerk.old)
        (stages_of states.old)
        (at_hand F.shared G.begun G.ended clerk.new) (stages_of states.new)) }
{
    for turn in 0..plan.turns {
        one_turn(clerk, plan, turn, states)?;
    }
    Ok(())
}

/// The job leaves its line, where it waits.
fn leave_line<R: Threads + Wait, G: Gate, F: SharedFloor>(
    clerk: &mut Clerk<'_, R, G, F>,
    actor: &Actor<'_>,
    state: &mut JobState,
) -> Result<(), Memory>
    requires held { state.old.held.items
        ≡ places_held (F.shared clerk.old.floor).board actor.now.place }
    requires stands { Stands actor.now (F.shared clerk.old.floor)
        (wait_in state.old.progress) [] }
    ensures did { OnOk result (GaveUp actor.now (at_hand F.shared G.begun G.ended clerk.old)
        (line_left_so actor.now state.old.progress) same
        (at_hand F.shared G.begun G.ended clerk.new)) }
    ensures held { OnOk result (state.new.held.items
        ≡ places_held (F.shared clerk.new.floor).board actor.now.place) }
    ensures stage { stage_of state.new ≡ stage_of state.old }
{
    match state.progress {
        Progress::Waiting {
            next: _,
            at,
            round,
            number,
        } => {
            leave(clerk, actor, &mut state.held, at, round, number)?;
            Ok(())
        }
        Progress::Stepping(_) | Progress::Working { .. } | Progress::Ended(_) => Ok(()),
    }
}

/// The job leaves its line and gives back all that it holds.
fn close_job<R: Threads + Wait, G: Gate, F: SharedFloor>(
    clerk: &mut Clerk<'_, R, G, F>,
    actor: &Actor<'_>,
    state: &mut JobState,
) -> Result<(), Memory>
    requires held { state.old.held.items
        ≡ places_held (F.shared clerk.old.floor).board actor.now.place }
    requires stands { Stands actor.now (F.shared clerk.old.floor)
        (wait_in state.old.progress) [] }
    ensures did { OnOk result (GaveUp actor.now (at_hand F.shared G.begun G.ended clerk.old)
        (close actor.now state.old.progress) same (at_hand F.shared G.begun G.ended clerk.new)) }
    ensures held { OnOk result (state.new.held.items
        ≡ places_held (F.shared clerk.new.floor).board actor.now.place) }
    ensures clear { OnOk result (IsClear (F.shared clerk.new.floor).board actor.now.place) }
    ensures stage { stage_of state.new ≡ stage_of state.old }
{
    leave_line(clerk, actor, state)?;
    give_all(clerk, actor, &mut state.held);
    Ok(())
}

/// After the last turn every job leaves its line and gives back all that it holds.
pub fn close_jobs<R: Threads + Wait, G: Gate, F: SharedFloor>(
    clerk: &mut Clerk<'_, R, G, F>,
    plan: &Plan,
    states: &mut [JobState],
) -> Result<(), Memory>
    requires few { length plan.now.jobs ≤ 4096 }
    requires runs { RunsOn plan.now (F.shared clerk.old.floor) states.old }
    ensures heard { OnOk result (Hears (at_hand F.shared G.begun G.ended clerk.old)
        (at_hand F.shared G.begun G.ended clerk.new)
        (close_all plan.now (stages_of states.old)) same) }
    ensures keeps { OnOk result (Keeps (at_hand F.shared G.begun G.ended clerk.old)
        (at_hand F.shared G.begun G.ended clerk.new)) }
    ensures clear { OnOk result (AllClear plan.now (F.shared clerk.new.floor)) }
    ensures stages { OnOk result (stages_of states.new ≡ stages_of states.old) }
{
    for place in 0..plan.jobs.as_slice().len() {
        let actor = actor_at(plan, plan.turns, place as u32);
        close_job(clerk, &actor, &mut states[place])?;
    }
    Ok(())
}
