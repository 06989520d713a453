//! What a worker's job does in its turn.

ghost use Rattle.std.specs.Prelude.{◌≡◌, ◌<◌, ◌≤◌, ◌-◌, ◌∷◌, [], true, false, None, Some, slice_get, length, ◌==◌, IfSome, OnOk, IfOk};
ghost use Rattle.std.specs.List.{position_from};
ghost use Rattle.cqs_core.specs.Keyed.{without};
ghost use Rattle.cqs_turns_report.specs.Turns.{places_held};
ghost use Rattle.cqs_turns_report.specs.Machine.{end_of, is_over_time, moved, retried, retries};
ghost use Rattle.cqs_turns_report.specs.Ready.{with_place};
ghost use Rattle.cqs_turns_report.specs.Roles.{role, wait_at, left_with, is_holdable_at};
ghost use Rattle.cqs_work.specs.Works.{IsClear};
ghost use Rattle.cqs_work.specs.Hands.{at_hand};
ghost use Rattle.cqs_work.specs.Doing.{Stands, CanAct, HasTurn, Did, HadTurn, GaveUp, after_stop};
ghost use Rattle.cqs_work.specs.Roles.{give_one, give_each, count_down, same, left_so, made_so, finish, take_step, wait_step, arrive_step, make_step, go_on, leave_end, ended_so};
ghost use Rattle.cqs_work.specs.Stages.{stage_of};

use crate::clerk::Clerk;
use crate::gate::Gate;
use crate::waits::note;
use cqs_core::Memory;
use cqs_floor_shared::SharedFloor;
use cqs_plan::{FloorLeave, FloorLook, FloorTake, Step};
use cqs_turns_report::{Actor, End, JobState, Patience, Progress};
use std::sync::Wait;
use std::thread::Threads;

/// The job gives back all that it holds, oldest first.
pub fn give_all<R: Threads + Wait, G: Gate, F: SharedFloor>(
    clerk: &mut Clerk<'_, R, G, F>,
    actor: &Actor<'_>,
    held: &mut Vec<u32>,
)
    requires held { held.old.items ≡ places_held (F.shared clerk.old.floor).board actor.now.place }
    requires stands { Stands actor.now (F.shared clerk.old.floor) None [] }
    ensures did { GaveUp actor.now
        (at_hand F.shared G.begun G.ended clerk.old) (give_each actor.now held.old.items)
        same (at_hand F.shared G.begun G.ended clerk.new) }
    ensures held { held.new.items ≡ places_held (F.shared clerk.new.floor).board actor.now.place }
    ensures clear { IsClear (F.shared clerk.new.floor).board actor.now.place }
{
    for at in held.iter() {
        clerk.give(*at, actor.place);
    }
    held.clear();
}

/// After its last step the job gives back all that it holds, and is done.
fn finish<R: Threads + Wait, G: Gate, F: SharedFloor>(
    clerk: &mut Clerk<'_, R, G, F>,
    actor: &Actor<'_>,
    held: &mut Vec<u32>,
) -> Progress
    requires held { held.old.items ≡ places_held (F.shared clerk.old.floor).board actor.now.place }
    requires stands { Stands actor.now (F.shared clerk.old.floor) None [] }
    ensures did { GaveUp actor.now
        (at_hand F.shared G.begun G.ended clerk.old) (finish actor.now) (left_so result)
        (at_hand F.shared G.begun G.ended clerk.new) }
    ensures is { result ≡ Progress.Ended End.Done }
    ensures held { held.new.items ≡ places_held (F.shared clerk.new.floor).board actor.now.place }
{
    give_all(clerk, actor, held);
    Progress::Ended(End::Done)
}

/// The job takes: it holds what it took as its newest, or its turn ends.
fn take<R: Threads + Wait, G: Gate, F: SharedFloor>(
    clerk: &mut Clerk<'_, R, G, F>,
    actor: &Actor<'_>,
    held: &mut Vec<u32>,
    next: u32,
    at: u32,
) -> Result<Option<Progress>, Memory>
    requires held { held.old.items ≡ places_held (F.shared clerk.old.floor).board actor.now.place }
    requires can { CanAct actor.now (F.shared clerk.old.floor) (Progress.Stepping next) }
    requires step { slice_get actor.now.job.now.steps next ≡ Some (Step.Take at) }
    ensures did { IfOk result (λ stops. Did actor.now (at_hand F.shared G.begun G.ended clerk.old)
        (Progress.Stepping next) (take_step actor.now next at) (made_so stops)
        (at_hand F.shared G.begun G.ended clerk.new) (after_stop next stops)) }
    ensures held { OnOk result (held.new.items
        ≡ places_held (F.shared clerk.new.floor).board actor.now.place) }
{
    match clerk.take(at, actor.place) {
        Ok(FloorTake::Now(_)) => {
            held.push(at)?;
            Ok(None)
        }
        Ok(FloorTake::Waits(number)) => {
            note(&mut clerk.waits, at, 0, number, actor.place)?;
            Ok(Some(Progress::Waiting {
                next: next + 1,
                at,
                round: 0,
                number,
            }))
        }
        Err(_) => Ok(Some(Progress::Ended(End::Crowded))),
    }
}

/// Where the oldest of this resource stands in what is held.
fn oldest_of(held: &[u32], at: u32) -> Option<usize>
    ensures place { result ≡ position_from (λ place. at == place) 0 held.now }
    ensures there { IfSome result (λ place. place < length held.now) }
{
    held.iter().position(|place| at == *place)
}

/// The oldest of this resource isn't held any more.
fn forget_oldest(held: &mut Vec<u32>, at: u32)
    ensures { held.new.items ≡ without (λ place. place) at held.old.items }
{
    if let Some(oldest) = oldest_of(held.as_slice(), at) {
        held.remove(oldest);
    }
}

/// The job gives back the oldest that it holds of this resource, as a step.
fn give<R: Threads + Wait, G: Gate, F: SharedFloor>(
    clerk: &mut Clerk<'_, R, G, F>,
    actor: &Actor<'_>,
    held: &mut Vec<u32>,
    next: u32,
    at: u32,
)
    requires held { held.old.items ≡ places_held (F.shared clerk.old.floor).board actor.now.place }
    requires can { CanAct actor.now (F.shared clerk.old.floor) (Progress.Stepping next) }
    requires step { slice_get actor.now.job.now.steps next ≡ Some (Step.Give at) }
    ensures did { Did actor.now
        (at_hand F.shared G.begun G.ended clerk.old) (Progress.Stepping next)
        (give_one actor.now at) same
        (at_hand F.shared G.begun G.ended clerk.new) (after_stop next None) }
    ensures held { held.new.items ≡ places_held (F.shared clerk.new.floor).board actor.now.place }
{
    clerk.give(at, actor.place);
    forget_oldest(held, at);
}

/// The job counts the latch down.
fn down<R: Threads + Wait, G: Gate, F: SharedFloor>(
    clerk: &mut Clerk<'_, R, G, F>,
    actor: &Actor<'_>,
    next: u32,
    at: u32,
)
    requires can { CanAct actor.now (F.shared clerk.old.floor) (Progress.Stepping next) }
    requires step { slice_get actor.now.job.now.steps next ≡ Some (Step.Down at) }
    ensures did { Did actor.now
        (at_hand F.shared G.begun G.ended clerk.old) (Progress.Stepping next)
        (count_down actor.now at) same
        (at_hand F.shared G.begun G.ended clerk.new) (after_stop next None) }
    ensures held { places_held (F.shared clerk.new.floor).board actor.now.place
        ≡ places_held (F.shared clerk.old.floor).board actor.now.place }
{
    clerk.down(at);
}

/// The job passes the latch, or its turn ends.
fn wait<R: Threads + Wait, G: Gate, F: SharedFloor>(
    clerk: &mut Clerk<'_, R, G, F>,
    actor: &Actor<'_>,
    next: u32,
    at: u32,
) -> Result<Option<Progress>, Memory>
    requires can { CanAct actor.now (F.shared clerk.old.floor) (Progress.Stepping next) }
    requires step { slice_get actor.now.job.now.steps next ≡ Some (Step.Await at) }
    ensures did { IfOk result (λ stops. Did actor.now (at_hand F.shared G.begun G.ended clerk.old)
        (Progress.Stepping next) (wait_step actor.now next at) (made_so stops)
        (at_hand F.shared G.begun G.ended clerk.new) (after_stop next stops)) }
    ensures held { OnOk result (places_held (F.shared clerk.new.floor).board actor.now.place
        ≡ places_held (F.shared clerk.old.floor).board actor.now.place) }
{
    match clerk.wait(at, actor.place) {
        Ok(FloorTake::Now(_)) => Ok(None),
        Ok(FloorTake::Waits(number)) => {
            note(&mut clerk.waits, at, 0, number, actor.place)?;
            Ok(Some(Progress::Waiting {
                next: next + 1,
                at,
                round: 0,
                number,
            }))
        }
        Err(_) => Ok(Some(Progress::Ended(End::Crowded))),
    }
}

/// The job arrives at the barrier, in its round there: it goes on, or its turn ends.
fn arrive<R: Threads + Wait, G: Gate, F: SharedFloor>(
    clerk: &mut Clerk<'_, R, G, F>,
    actor: &Actor<'_>,
    next: u32,
    at: u32,
) -> Result<Option<Progress>, Memory>
    requires can { CanAct actor.now (F.shared clerk.old.floor) (Progress.Stepping next) }
    requires step { slice_get actor.now.job.now.steps next ≡ Some (Step.Arrive at) }
    ensures did { IfOk result (λ stops. Did actor.now (at_hand F.shared G.begun G.ended clerk.old)
        (Progress.Stepping next) (arrive_step actor.now next at) (made_so stops)
        (at_hand F.shared G.begun G.ended clerk.new) (after_stop next stops)) }
    ensures held { OnOk result (places_held (F.shared clerk.new.floor).board actor.now.place
        ≡ places_held (F.shared clerk.old.floor).board actor.now.place) }
{
    let round = actor.arrivals(next, at);
    match clerk.arrive(at, actor.place) {
        Ok(FloorTake::Now(_)) => Ok(None),
        Ok(FloorTake::Waits(number)) => {
            note(&mut clerk.waits, at, round, number, actor.place)?;
            Ok(Some(Progress::Waiting {
                next: next + 1,
                at,
                round,
                number,
            }))
        }
        Err(_) => Ok(Some(Progress::Ended(End::Crowded))),
    }
}

/// The job makes a step. Its progress comes where its turn ends with this step.
fn make_step<R: Threads + Wait, G: Gate, F: SharedFloor>(
    clerk: &mut Clerk<'_, R, G, F>,
    actor: &Actor<'_>,
    held: &mut Vec<u32>,
    next: u32,
    step: Step,
) -> Result<Option<Progress>, Memory>
    requires held { held.old.items ≡ places_held (F.shared clerk.old.floor).board actor.now.place }
    requires can { CanAct actor.now (F.shared clerk.old.floor) (Progress.Stepping next) }
    requires step { slice_get actor.now.job.now.steps next ≡ Some step }
    ensures did { IfOk result (λ stops. Did actor.now (at_hand F.shared G.begun G.ended clerk.old)
        (Progress.Stepping next) (make_step actor.now next step) (made_so stops)
        (at_hand F.shared G.begun G.ended clerk.new) (after_stop next stops)) }
    ensures held { OnOk result (held.new.items
        ≡ places_held (F.shared clerk.new.floor).board actor.now.place) }
{
    match step {
        Step::Work(turns) => Ok(Some(Progress::Working {
            next: next + 1,
            until: actor.turn + turns,
        })),
        Step::Take(at) => take(clerk, actor, held, next, at),
        Step::Give(at) => {
            give(clerk, actor, held, next, at);
            Ok(None)
        }
        Step::Down(at) => {
            down(clerk, actor, next, at);
            Ok(None)
        }
        Step::Await(at) => wait(clerk, actor, next, at),
        Step::Arrive(at) => arrive(clerk, actor, next, at),
    }
}

/// The job makes its steps from this one on, until it works, waits or has ended.
fn make_steps<R: Threads + Wait, G: Gate, F: SharedFloor>(
    clerk: &mut Clerk<'_, R, G, F>,
    actor: &Actor<'_>,
    held: &mut Vec<u32>,
    first: u32,
) -> Result<Progress, Memory>
    requires held { held.old.items ≡ places_held (F.shared clerk.old.floor).board actor.now.place }
    requires can { CanAct actor.now (F.shared clerk.old.floor) (Progress.Stepping first) }
    ensures did { IfOk result (λ progress. Did actor.now
        (at_hand F.shared G.begun G.ended clerk.old)
        (Progress.Stepping first) (go_on actor.now first) (left_so progress)
        (at_hand F.shared G.begun G.ended clerk.new) progress) }
    ensures held { OnOk result (held.new.items
        ≡ places_held (F.shared clerk.new.floor).board actor.now.place) }
{
    let steps = actor.job.steps.as_slice();
    for next in first as usize..steps.len() {
        let stops = make_step(clerk, actor, held, next as u32, steps[next])?;
        if let Some(progress) = stops {
            return Ok(progress);
        }
    }
    Ok(finish(clerk, actor, held))
}

/// Where it can be held, what came is the newest that the job holds.
fn hold(held: &mut Vec<u32>, actor: &Actor<'_>, at: u32) -> Result<(), Memory>
    ensures { OnOk result (held.new.items
        ≡ with_place (is_holdable_at actor.now.resources.now at) held.old.items at) }
{
    if actor.can_hold(at) {
        held.push(at)?;
    }
    Ok(())
}

/// What came too late is the newest that the job holds. Says how the job ends.
fn hold_late(
    held: &mut Vec<u32>,
    actor: &Actor<'_>,
    at: u32,
    answer: FloorLeave,
) -> Result<End, Memory>
    ensures end { IfOk result (λ end. end ≡ end_of answer) }
    ensures held { OnOk result (held.new.items
        ≡ left_with actor.now.resources.now held.old.items at answer) }
{
    match answer {
        FloorLeave::Gone => Ok(End::GaveUp),
        FloorLeave::Late(_) => {
            hold(held, actor, at)?;
            Ok(End::Late)
        }
    }
}

/// The job leaves with its wait.
pub fn leave<R: Threads + Wait, G: Gate, F: SharedFloor>(
    clerk: &mut Clerk<'_, R, G, F>,
    actor: &Actor<'_>,
    held: &mut Vec<u32>,
    at: u32,
    round: u32,
    number: u64,
) -> Result<End, Memory>
    requires held { held.old.items ≡ places_held (F.shared clerk.old.floor).board actor.now.place }
    requires stands { Stands actor.now (F.shared clerk.old.floor)
        (Some (wait_at at round number)) [] }
    ensures did { IfOk result (λ end. GaveUp actor.now (at_hand F.shared G.begun G.ended clerk.old)
        (leave_end actor.now at round number) (ended_so end)
        (at_hand F.shared G.begun G.ended clerk.new)) }
    ensures held { OnOk result (held.new.items
        ≡ places_held (F.shared clerk.new.floor).board actor.now.place) }
{
    let answer = clerk.leave(actor.place);
    hold_late(held, actor, at, answer)
}

/// The job gives back all that it holds, with what came too late as its newest. Says how it ends.
fn give_up<R: Threads + Wait, G: Gate, F: SharedFloor>(
    clerk: &mut Clerk<'_, R, G, F>,
    actor: &Actor<'_>,
    held: &mut Vec<u32>,
    at: u32,
    answer: FloorLeave,
) -> Result<End, Memory>
    requires held { places_held (F.shared clerk.old.floor).board actor.now.place
        ≡ left_with actor.now.resources.now held.old.items at answer }
    requires stands { Stands actor.now (F.shared clerk.old.floor) None [] }
    ensures end { IfOk result (λ end. end ≡ end_of answer) }
    ensures did { OnOk result (GaveUp actor.now
        (at_hand F.shared G.begun G.ended clerk.old)
        (give_each actor.now (places_held (F.shared clerk.old.floor).board actor.now.place))
        same (at_hand F.shared G.begun G.ended clerk.new)) }
    ensures held { OnOk result (held.new.items
        ≡ places_held (F.shared clerk.new.floor).board actor.now.place) }
{
    let end = hold_late(held, actor, at, answer)?;
    give_all(clerk, actor, held);
    Ok(end)
}

/// Whether the job, which is over time, makes the step again, by the answer to the leave of its
/// wait.
fn retries(actor: &Actor<'_>, patience: Patience, answer: FloorLeave) -> bool
    ensures { result ≡ retries (role actor.now) patience answer }
{
    match answer {
        FloorLeave::Gone => actor.may_retry(patience),
        FloorLeave::Late(_) => false,
    }
}

/// The wait of the job is gone. It uses up a retry, and makes the step again at which it waited.
fn retry<R: Threads + Wait, G: Gate, F: SharedFloor>(
    clerk: &mut Clerk<'_, R, G, F>,
    actor: &Actor<'_>,
    state: &mut JobState,
    next: u32,
) -> Result<(), Memory>
    requires some { 0 < next }
    requires left { state.old.patience.used < actor.now.job.now.retry }
    requires few { actor.now.job.now.retry ≤ 64 }
    requires held { state.old.held.items
        ≡ places_held (F.shared clerk.old.floor).board actor.now.place }
    requires can { CanAct actor.now (F.shared clerk.old.floor) (Progress.Stepping (next - 1)) }
    ensures did { OnOk result (Did actor.now
        (at_hand F.shared G.begun G.ended clerk.old) (Progress.Stepping (next - 1))
        (go_on actor.now (next - 1)) (left_so state.new.progress)
        (at_hand F.shared G.begun G.ended clerk.new) state.new.progress) }
    ensures patience { OnOk result (state.new.patience
        ≡ retried (role actor.now) state.old.patience) }
    ensures held { OnOk result (state.new.held.items
        ≡ places_held (F.shared clerk.new.floor).board actor.now.place) }
{
    state.progress = make_steps(clerk, actor, &mut state.held, next - 1)?;
    state.patience = Patience {
        since: actor.turn,
        used: state.patience.used + 1,
    };
    Ok(())
}

/// The job is over time: it gives its wait up, and then makes the step again, or has ended.
fn wait_too_long<R: Threads + Wait, G: Gate, F: SharedFloor>(
    clerk: &mut Clerk<'_, R, G, F>,
    actor: &Actor<'_>,
    state: &mut JobState,
    next: u32,
    at: u32,
    round: u32,
    number: u64,
) -> Result<(), Memory>
    requires waits { state.old.progress ≡ Progress.Waiting next at round number }
    requires long { is_over_time (role actor.now) state.old.patience ≡ true }
    requires held { state.old.held.items
        ≡ places_held (F.shared clerk.old.floor).board actor.now.place }
    requires turn { HasTurn actor.now (F.shared clerk.old.floor) (stage_of state.old) }
    ensures did { OnOk result (HadTurn actor.now
        (at_hand F.shared G.begun G.ended clerk.old) (stage_of state.old)
        (at_hand F.shared G.begun G.ended clerk.new) (stage_of state.new)) }
    ensures held { OnOk result (state.new.held.items
        ≡ places_held (F.shared clerk.new.floor).board actor.now.place) }
{
    let answer = clerk.leave(actor.place);
    if retries(actor, state.patience, answer) {
        return retry(clerk, actor, state, next);
    }
    let end = give_up(clerk, actor, &mut state.held, at, answer)?;
    state.progress = Progress::Ended(end);
    Ok(())
}

/// The job makes its steps from this one on.
fn move_on<R: Threads + Wait, G: Gate, F: SharedFloor>(
    clerk: &mut Clerk<'_, R, G, F>,
    actor: &Actor<'_>,
    state: &mut JobState,
    next: u32,
) -> Result<(), Memory>
    requires held { state.old.held.items
        ≡ places_held (F.shared clerk.old.floor).board actor.now.place }
    requires can { CanAct actor.now (F.shared clerk.old.floor) (Progress.Stepping next) }
    ensures did { OnOk result (Did actor.now
        (at_hand F.shared G.begun G.ended clerk.old) (Progress.Stepping next)
        (go_on actor.now next) (left_so state.new.progress)
        (at_hand F.shared G.begun G.ended clerk.new) state.new.progress) }
    ensures patience { OnOk result (state.new.patience
        ≡ moved (role actor.now) state.old.patience) }
    ensures held { OnOk result (state.new.held.items
        ≡ places_held (F.shared clerk.new.floor).board actor.now.place) }
{
    state.progress = make_steps(clerk, actor, &mut state.held, next)?;
    state.patience.since = actor.turn;
    Ok(())
}

/// The job looks at its wait, and goes on where it was served.
fn look<R: Threads + Wait, G: Gate, F: SharedFloor>(
    clerk: &mut Clerk<'_, R, G, F>,
    actor: &Actor<'_>,
    state: &mut JobState,
    next: u32,
    at: u32,
    round: u32,
    number: u64,
) -> Result<(), Memory>
    requires waits { state.old.progress ≡ Progress.Waiting next at round number }
    requires calm { is_over_time (role actor.now) state.old.patience ≡ false }
    requires held { state.old.held.items
        ≡ places_held (F.shared clerk.old.floor).board actor.now.place }
    requires turn { HasTurn actor.now (F.shared clerk.old.floor) (stage_of state.old) }
    ensures did { OnOk result (HadTurn actor.now
        (at_hand F.shared G.begun G.ended clerk.old) (stage_of state.old)
        (at_hand F.shared G.begun G.ended clerk.new) (stage_of state.new)) }
    ensures held { OnOk result (state.new.held.items
        ≡ places_held (F.shared clerk.new.floor).board actor.now.place) }
{
    match clerk.look(actor.place) {
        FloorLook::Pending => Ok(()),
        FloorLook::Granted(_) => {
            hold(&mut state.held, actor, at)?;
            move_on(clerk, actor, state, next)
        }
    }
}

/// The job works on, or makes its next steps once its work is done.
fn work<R: Threads + Wait, G: Gate, F: SharedFloor>(
    clerk: &mut Clerk<'_, R, G, F>,
    actor: &Actor<'_>,
    state: &mut JobState,
    next: u32,
    until: u32,
) -> Result<(), Memory>
    requires works { state.old.progress ≡ Progress.Working next until }
    requires held { state.old.held.items
        ≡ places_held (F.shared clerk.old.floor).board actor.now.place }
    requires turn { HasTurn actor.now (F.shared clerk.old.floor) (stage_of state.old) }
    ensures did { OnOk result (HadTurn actor.now
        (at_hand F.shared G.begun G.ended clerk.old) (stage_of state.old)
        (at_hand F.shared G.begun G.ended clerk.new) (stage_of state.new)) }
    ensures held { OnOk result (state.new.held.items
        ≡ places_held (F.shared clerk.new.floor).board actor.now.place) }
{
    if actor.turn < until {
        return Ok(());
    }
    move_on(clerk, actor, state, next)
}

/// The job looks at its wait, or gives it up where it is over time.
fn wait_on<R: Threads + Wait, G: Gate, F: SharedFloor>(
    clerk: &mut Clerk<'_, R, G, F>,
    actor: &Actor<'_>,
    state: &mut JobState,
    next: u32,
    at: u32,
    round: u32,
    number: u64,
) -> Result<(), Memory>
    requires waits { state.old.progress ≡ Progress.Waiting next at round number }
    requires held { state.old.held.items
        ≡ places_held (F.shared clerk.old.floor).board actor.now.place }
    requires turn { HasTurn actor.now (F.shared clerk.old.floor) (stage_of state.old) }
    ensures did { OnOk result (HadTurn actor.now
        (at_hand F.shared G.begun G.ended clerk.old) (stage_of state.old)
        (at_hand F.shared G.begun G.ended clerk.new) (stage_of state.new)) }
    ensures held { OnOk result (state.new.held.items
        ≡ places_held (F.shared clerk.new.floor).board actor.now.place) }
{
    if actor.is_over_time(state.patience) {
        return wait_too_long(clerk, actor, state, next, at, round, number);
    }
    look(clerk, actor, state, next, at, round, number)
}

/// The job has its turn.
pub fn act<R: Threads + Wait, G: Gate, F: SharedFloor>(
    clerk: &mut Clerk<'_, R, G, F>,
    actor: &Actor<'_>,
    state: &mut JobState,
) -> Result<(), Memory>
    requires held { state.old.held.items
        ≡ places_held (F.shared clerk.old.floor).board actor.now.place }
    requires turn { HasTurn actor.now (F.shared clerk.old.floor) (stage_of state.old) }
    ensures did { OnOk result (HadTurn actor.now
        (at_hand F.shared G.begun G.ended clerk.old) (stage_of state.old)
        (at_hand F.shared G.begun G.ended clerk.new) (stage_of state.new)) }
    ensures held { OnOk result (state.new.held.items
        ≡ places_held (F.shared clerk.new.floor).board actor.now.place) }
{
    match state.progress {
        Progress::Stepping(next) => move_on(clerk, actor, state, next),
        Progress::Working { next, until } => work(clerk, actor, state, next, until),
        Progress::Waiting {
            next,
            at,
            round,
            number,
        } => wait_on(clerk, actor, state, next, at, round, number),
        Progress::Ended(_) => Ok(()),
    }
}
