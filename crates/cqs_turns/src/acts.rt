//! What a job does in its turn.

ghost use Rattle.std.specs.Prelude.{◌≡◌, ◌≤◌, ◌<◌, ◌-◌, true, ◌∷◌, ◌++◌, [], None, Some, drop, take, slice_get, length, ◌==◌, false, IfSome, OnOk, OnErr, IfOk};
ghost use Rattle.std.specs.List.{position_from};
ghost use Rattle.cqs_core.specs.Keyed.{without};
ghost use Rattle.cqs_plan.specs.Floor.{IsJob, IsHolding, IsHoldable};
ghost use Rattle.cqs_plan.specs.FloorCalls.{take_answer, wait_answer, arrive_answer, leave_answer, look_answer};
ghost use Rattle.cqs_plan.specs.Runnable.{kinds_of};
ghost use Rattle.cqs_turns_report.specs.Machine.{rests};
ghost use Rattle.cqs_turns_report.specs.Turns.{after_acting, after_all_gives, after_leave_at, after_look_at, after_waiting_long, may_retry, patience_after, retries, leave_told, on_give, on_down, after_gives, after_taking, after_waiting, after_arriving, after_step, event, left_at, after_last_step, go_on, end_of, after_looking, places_held};
ghost use Rattle.cqs_turns_report.specs.Ready.{IsReady, CanRetry, CanRetryIn, HasRoom, HasRoomFor, steps_left, with_place};
ghost use Rattle.cqs_turns_report.specs.Coming.{ComesTo, LeavesAt, Makes, text_acted, text_in};
ghost use Rattle.cqs_turns_report.specs.declared.states.Progress.TheVariants.{Waiting, Ended};
ghost use Rattle.cqs_turns_report.specs.Roles.{role, scene, made_of, wait_at, left_with, told_retries, told_served, is_holdable_at};
ghost use Rattle.cqs_turns.specs.States.{IsSet};

use cqs_core::Memory;
use cqs_plan::{Floor, FloorLeave, FloorLook, FloorTake, Step};
use cqs_turns_report::{
    Actor, End, JobState, Patience, Progress, Report, Told, told_of_arrival, told_of_down,
    told_of_give, told_of_leave, told_of_take, told_of_wait,
};

/// The job gives back the oldest that it holds of this resource.
fn give<F: Floor>(
    floor: &mut F,
    report: &mut Report,
    actor: &Actor<'_>,
    at: u32,
) -> Result<(), Memory>
    requires resource { IsHoldable (slice_get (F.plain floor.old).kinds at) }
    requires job { IsJob (F.plain floor.old) actor.now.place }
    requires holds { IsHolding (F.plain floor.old) at actor.now.place }
    ensures ok { OnOk result (scene (F.plain floor.new) report.new ≡
        on_give (role actor.now) at (scene (F.plain floor.old) report.old)) }
    ensures err { OnErr result (report.new ≡ report.old) }
{
    let answer = floor.give(at, actor.place);
    actor.tell(report, told_of_give(at, answer))
}

/// The job gives back all that it holds, oldest first.
fn give_all<F: Floor>(
    floor: &mut F,
    report: &mut Report,
    actor: &Actor<'_>,
    held: &mut Vec<u32>,
) -> Result<(), Memory>
    requires held { held.old.items ≡ places_held (F.plain floor.old) actor.now.place }
    requires ready { IsReady (F.plain floor.old) actor.now.place None [] }
    ensures comes { ComesTo text_in result
        (after_gives (role actor.now) held.old.items (scene (F.plain floor.old) report.old))
        (scene (F.plain floor.new) report.new) }
    ensures held { OnOk result (held.new.items ≡ places_held (F.plain floor.new) actor.now.place) }
{
    for at in held.iter() {
        give(floor, report, actor, *at)?;
    }
    held.clear();
    Ok(())
}

/// After its last step the job gives back all that it holds, and is done.
fn finish<F: Floor>(
    floor: &mut F,
    report: &mut Report,
    actor: &Actor<'_>,
    held: &mut Vec<u32>,
) -> Result<Progress, Memory>
    requires held { held.old.items ≡ places_held (F.plain floor.old) actor.now.place }
    requires ready { IsReady (F.plain floor.old) actor.now.place None [] }
    ensures comes { LeavesAt result
        (after_last_step (role actor.now) (scene (F.plain floor.old) report.old))
        (scene (F.plain floor.new) report.new) }
    ensures held { OnOk result (held.new.items ≡ places_held (F.plain floor.new) actor.now.place) }
{
    give_all(floor, report, actor, held)?;
    actor.tell(report, Told::Done)?;
    Ok(Progress::Ended(End::Done))
}

/// The job takes: it holds what it took as its newest, or its turn ends.
fn take<F: Floor>(
    floor: &mut F,
    report: &mut Report,
    actor: &Actor<'_>,
    held: &mut Vec<u32>,
    next: u32,
    at: u32,
) -> Result<Option<Progress>, Memory>
    requires held { held.old.items ≡ places_held (F.plain floor.old) actor.now.place }
    requires ready { IsReady (F.plain floor.old) actor.now.place None (Step.Take at ∷ []) }
    requires room { HasRoom (F.plain floor.old) actor.now.place
        (take next actor.now.job.now.steps) (Step.Take at ∷ []) }
    requires next { next < 64 }
    ensures comes { Makes result
        (after_taking (role actor.now) next at (take_answer (F.plain floor.old) at actor.now.place)
        (scene (F.plain floor.old) report.old))
        (scene (F.plain floor.new) report.new) }
    ensures held { OnOk result (held.new.items ≡ places_held (F.plain floor.new) actor.now.place) }
{
    let answer = floor.take(at, actor.place);
    actor.tell(report, told_of_take(at, answer))?;
    match answer {
        FloorTake::Now(_) => {
            held.push(at)?;
            Ok(None)
        }
        FloorTake::Waits(number) => Ok(Some(Progress::Waiting {
            next: next + 1,
            at,
            round: 0,
            number,
        })),
    }
}

/// The job counts a latch down.
fn down<F: Floor>(
    floor: &mut F,
    report: &mut Report,
    actor: &Actor<'_>,
    at: u32,
) -> Result<(), Memory>
    requires ready { IsReady (F.plain floor.old) actor.now.place None (Step.Down at ∷ []) }
    ensures ok { OnOk result (scene (F.plain floor.new) report.new ≡
        on_down (role actor.now) at (scene (F.plain floor.old) report.old)) }
    ensures held { places_held (F.plain floor.new) actor.now.place
        ≡ places_held (F.plain floor.old) actor.now.place }
    ensures err { OnErr result (report.new ≡ report.old) }
{
    let answer = floor.down(at);
    actor.tell(report, told_of_down(at, answer))
}

/// The job passes a latch, or its turn ends.
fn wait<F: Floor>(
    floor: &mut F,
    report: &mut Report,
    actor: &Actor<'_>,
    next: u32,
    at: u32,
) -> Result<Option<Progress>, Memory>
    requires ready { IsReady (F.plain floor.old) actor.now.place None (Step.Await at ∷ []) }
    requires room { HasRoom (F.plain floor.old) actor.now.place
        (take next actor.now.job.now.steps) (Step.Await at ∷ []) }
    requires next { next < 64 }
    ensures comes { Makes result
        (after_waiting (role actor.now) next at (wait_answer (F.plain floor.old) at)
        (scene (F.plain floor.old) report.old))
        (scene (F.plain floor.new) report.new) }
    ensures held { places_held (F.plain floor.new) actor.now.place
        ≡ places_held (F.plain floor.old) actor.now.place }
{
    let answer = floor.wait(at, actor.place);
    actor.tell(report, told_of_wait(at, answer))?;
    match answer {
        FloorTake::Now(_) => Ok(None),
        FloorTake::Waits(number) => Ok(Some(Progress::Waiting {
            next: next + 1,
            at,
            round: 0,
            number,
        })),
    }
}

/// The job arrives at a barrier as the last, or its turn ends.
fn arrive<F: Floor>(
    floor: &mut F,
    report: &mut Report,
    actor: &Actor<'_>,
    next: u32,
    at: u32,
) -> Result<Option<Progress>, Memory>
    requires ready { IsReady (F.plain floor.old) actor.now.place None (Step.Arrive at ∷ []) }
    requires room { HasRoom (F.plain floor.old) actor.now.place
        (take next actor.now.job.now.steps) (Step.Arrive at ∷ []) }
    requires few_steps { length actor.now.job.now.steps ≤ 64 }
    requires next { next < 64 }
    ensures comes { Makes result
        (after_arriving (role actor.now) next at
        (arrive_answer (F.plain floor.old) at actor.now.place)
        (scene (F.plain floor.old) report.old))
        (scene (F.plain floor.new) report.new) }
    ensures held { places_held (F.plain floor.new) actor.now.place
        ≡ places_held (F.plain floor.old) actor.now.place }
{
    let round = actor.arrivals(next, at);
    let answer = floor.arrive(at, actor.place);
    actor.tell(report, told_of_arrival(at, round, answer))?;
    match answer {
        FloorTake::Now(_) => Ok(None),
        FloorTake::Waits(number) => Ok(Some(Progress::Waiting {
            next: next + 1,
            at,
            round,
            number,
        })),
    }
}

/// Where the oldest of this resource stands in what is held.
fn oldest_of(held: &[u32], at: u32) -> Option<usize>
    ensures place { result ≡ position_from (λ place. at == place) 0 held.now }
    ensures there { IfSome result (λ place. place < length held.now) }
{
    held.iter().position(|place| at == *place)
}

/// The oldest of this resource isn't held any more.
fn forget_oldest(held: &mut Vec<u32>, at: u32)
    ensures { held.new.items ≡ without (λ place. place) at held.old.items }
{
    if let Some(oldest) = oldest_of(held.as_slice(), at) {
        held.remove(oldest);
    }
}

/// The job gives back the oldest that it holds of this resource, as a step.
fn give_step<F: Floor>(
    floor: &mut F,
    report: &mut Report,
    actor: &Actor<'_>,
    held: &mut Vec<u32>,
    at: u32,
) -> Result<(), Memory>
    requires held { held.old.items ≡ places_held (F.plain floor.old) actor.now.place }
    requires ready { IsReady (F.plain floor.old) actor.now.place None (Step.Give at ∷ []) }
    ensures ok { OnOk result (scene (F.plain floor.new) report.new ≡
        on_give (role actor.now) at (scene (F.plain floor.old) report.old)) }
    ensures held { OnOk result (held.new.items ≡ places_held (F.plain floor.new) actor.now.place) }
    ensures err { OnErr result (report.new ≡ report.old) }
{
    give(floor, report, actor, at)?;
    forget_oldest(held, at);
    Ok(())
}

/// The job makes a step. Its progress comes where its turn ends with this step.
fn make_step<F: Floor>(
    floor: &mut F,
    report: &mut Report,
    actor: &Actor<'_>,
    held: &mut Vec<u32>,
    next: u32,
    step: Step,
) -> Result<Option<Progress>, Memory>
    requires held { held.old.items ≡ places_held (F.plain floor.old) actor.now.place }
    requires ready { IsReady (F.plain floor.old) actor.now.place None (step ∷ []) }
    requires room { HasRoom (F.plain floor.old) actor.now.place
        (take next actor.now.job.now.steps) (step ∷ []) }
    requires few_steps { length actor.now.job.now.steps ≤ 64 }
    requires next { next < 64 }
    requires turn { actor.now.turn ≤ 40000 }
    ensures comes { Makes result
        (after_step (role actor.now) next step (scene (F.plain floor.old) report.old))
        (scene (F.plain floor.new) report.new) }
    ensures held { OnOk result (held.new.items ≡ places_held (F.plain floor.new) actor.now.place) }
{
    match step {
        Step::Work(turns) => Ok(Some(Progress::Working {
            next: next + 1,
            until: actor.turn + turns,
        })),
        Step::Take(at) => take(floor, report, actor, held, next, at),
        Step::Give(at) => {
            give_step(floor, report, actor, held, at)?;
            Ok(None)
        }
        Step::Down(at) => {
            down(floor, report, actor, at)?;
            Ok(None)
        }
        Step::Await(at) => wait(floor, report, actor, next, at),
        Step::Arrive(at) => arrive(floor, report, actor, next, at),
    }
}

/// The job makes its steps from this one on, until it works, waits or has ended.
fn make_steps<F: Floor>(
    floor: &mut F,
    report: &mut Report,
    actor: &Actor<'_>,
    held: &mut Vec<u32>,
    first: u32,
) -> Result<Progress, Memory>
    requires held { held.old.items ≡ places_held (F.plain floor.old) actor.now.place }
    requires ready { IsReady (F.plain floor.old) actor.now.place None
        (drop first actor.now.job.now.steps) }
    requires room { HasRoom (F.plain floor.old) actor.now.place
        (take first actor.now.job.now.steps) (drop first actor.now.job.now.steps) }
    requires few_steps { length actor.now.job.now.steps ≤ 64 }
    requires turn { actor.now.turn ≤ 40000 }
    ensures comes { LeavesAt result
        (go_on (role actor.now) first (scene (F.plain floor.old) report.old))
        (scene (F.plain floor.new) report.new) }
    ensures held { OnOk result (held.new.items ≡ places_held (F.plain floor.new) actor.now.place) }
{
    let steps = actor.job.steps.as_slice();
    for next in first as usize..steps.len() {
        let stops = make_step(floor, report, actor, held, next as u32, steps[next])?;
        if let Some(progress) = stops {
            return Ok(progress);
        }
    }
    finish(floor, report, actor, held)
}

/// Where it can be held, what came is the newest that the job holds.
fn hold(held: &mut Vec<u32>, actor: &Actor<'_>, at: u32) -> Result<(), Memory>
    ensures { OnOk result (held.new.items
        ≡ with_place (is_holdable_at actor.now.resources.now at) held.old.items at) }
{
    if actor.can_hold(at) {
        held.push(at)?;
    }
    Ok(())
}

/// What came too late is the newest that the job holds. Says how the job ends.
fn hold_late(
    held: &mut Vec<u32>,
    actor: &Actor<'_>,
    at: u32,
    answer: FloorLeave,
) -> Result<End, Memory>
    ensures end { IfOk result (λ end. end ≡ end_of answer) }
    ensures held { OnOk result (held.new.items
        ≡ left_with actor.now.resources.now held.old.items at answer) }
{
    match answer {
        FloorLeave::Gone => Ok(End::GaveUp),
        FloorLeave::Late(_) => {
            hold(held, actor, at)?;
            Ok(End::Late)
        }
    }
}

/// The job gave its wait up, and was answered so: it gives back all that it holds, and has ended.
fn give_up<F: Floor>(
    floor: &mut F,
    report: &mut Report,
    actor: &Actor<'_>,
    held: &mut Vec<u32>,
    at: u32,
    round: u32,
    number: u64,
    answer: FloorLeave,
) -> Result<Progress, Memory>
    requires held { places_held (F.plain floor.old) actor.now.place
        ≡ left_with actor.now.resources.now held.old.items at answer }
    requires ready { IsReady (F.plain floor.old) actor.now.place None [] }
    ensures comes { LeavesAt result
        (left_at (after_all_gives (role actor.now)
        (event (role actor.now) (scene (F.plain floor.old) report.old) (F.plain floor.old)
        (leave_told at round number answer))) (Ended (end_of answer)))
        (scene (F.plain floor.new) report.new) }
    ensures held { OnOk result (held.new.items ≡ places_held (F.plain floor.new) actor.now.place) }
{
    let end = hold_late(held, actor, at, answer)?;
    actor.tell(report, told_of_leave(at, round, number, answer))?;
    give_all(floor, report, actor, held)?;
    Ok(Progress::Ended(end))
}

/// The wait of the job is gone, and it makes the step again at which it waited.
fn retry<F: Floor>(
    floor: &mut F,
    report: &mut Report,
    actor: &Actor<'_>,
    held: &mut Vec<u32>,
    next: u32,
    at: u32,
    round: u32,
    number: u64,
) -> Result<Progress, Memory>
    requires some { 0 < next }
    requires held { held.old.items ≡ places_held (F.plain floor.old) actor.now.place }
    requires ready { IsReady (F.plain floor.old) actor.now.place None
        (drop (next - 1) actor.now.job.now.steps) }
    requires room { HasRoom (F.plain floor.old) actor.now.place
        (take (next - 1) actor.now.job.now.steps) (drop (next - 1) actor.now.job.now.steps) }
    requires few_steps { length actor.now.job.now.steps ≤ 64 }
    requires turn { actor.now.turn ≤ 40000 }
    ensures comes { LeavesAt result
        (go_on (role actor.now) (next - 1)
        (event (role actor.now) (scene (F.plain floor.old) report.old) (F.plain floor.old)
        (told_retries at round number)))
        (scene (F.plain floor.new) report.new) }
    ensures held { OnOk result (held.new.items ≡ places_held (F.plain floor.new) actor.now.place) }
{
    actor.tell(report, Told::Retries { at, round, number })?;
    make_steps(floor, report, actor, held, next - 1)
}

/// Whether the job, which is over time, makes the step again, by the answer to the leave of its
/// wait.
fn retries(actor: &Actor<'_>, patience: Patience, answer: FloorLeave) -> bool
    ensures { result ≡ retries (role actor.now) patience answer }
{
    match answer {
        FloorLeave::Gone => actor.may_retry(patience),
        FloorLeave::Late(_) => false,
    }
}

/// The job is over time: it gives its wait up, and then makes the step again, or has ended.
fn wait_too_long<F: Floor>(
    floor: &mut F,
    report: &mut Report,
    actor: &Actor<'_>,
    state: &mut JobState,
    next: u32,
    at: u32,
    round: u32,
    number: u64,
) -> Result<(), Memory>
    requires held { state.old.held.items ≡ places_held (F.plain floor.old) actor.now.place }
    requires kinds { (F.plain floor.old).kinds ≡ kinds_of actor.now.resources.now }
    requires ready { IsReady (F.plain floor.old) actor.now.place
        (Some (wait_at at round number)) (drop next actor.now.job.now.steps) }
    requires again { may_retry (role actor.now) state.old.patience ≡ true
        → CanRetry (F.plain floor.old) actor.now.place actor.now.job.now.steps next }
    requires few_steps { length actor.now.job.now.steps ≤ 64 }
    requires few_retries { actor.now.job.now.retry ≤ 64 }
    requires turn { actor.now.turn ≤ 40000 }
    ensures comes { ComesTo text_acted result
        (after_waiting_long (role actor.now) state.old.patience next at round number
        (leave_answer (F.plain floor.old) actor.now.place)
        (scene (F.plain floor.old) report.old))
        (left_at (scene (F.plain floor.new) report.new) state.new.progress) }
    ensures patience { OnOk result (state.new.patience
        ≡ after_leave_at (role actor.now) state.old.patience
        (leave_answer (F.plain floor.old) actor.now.place)) }
    ensures held { OnOk result (state.new.held.items
        ≡ places_held (F.plain floor.new) actor.now.place) }
{
    let answer = floor.leave(actor.place);
    let held = &mut state.held;
    if retries(actor, state.patience, answer) {
        state.progress = retry(floor, report, actor, held, next, at, round, number)?;
        state.patience = Patience {
            since: actor.turn,
            used: state.patience.used + 1,
        };
    } else {
        state.progress = give_up(floor, report, actor, held, at, round, number, answer)?;
    }
    Ok(())
}

/// The job was served: it holds what came as its newest, and goes on.
fn be_served<F: Floor>(
    floor: &mut F,
    report: &mut Report,
    actor: &Actor<'_>,
    held: &mut Vec<u32>,
    next: u32,
    at: u32,
    round: u32,
    number: u64,
    element: u32,
) -> Result<Progress, Memory>
    requires held { places_held (F.plain floor.old) actor.now.place
        ≡ with_place (is_holdable_at actor.now.resources.now at) held.old.items at }
    requires ready { IsReady (F.plain floor.old) actor.now.place None
        (drop next actor.now.job.now.steps) }
    requires room { HasRoom (F.plain floor.old) actor.now.place
        (take next actor.now.job.now.steps) (drop next actor.now.job.now.steps) }
    requires few_steps { length actor.now.job.now.steps ≤ 64 }
    requires turn { actor.now.turn ≤ 40000 }
    ensures comes { LeavesAt result
        (go_on (role actor.now) next (event (role actor.now) (scene (F.plain floor.old) report.old)
        (F.plain floor.old) (told_served at round number element)))
        (scene (F.plain floor.new) report.new) }
    ensures held { OnOk result (held.new.items ≡ places_held (F.plain floor.new) actor.now.place) }
{
    hold(held, actor, at)?;
    actor.tell(
        report,
        Told::Served {
            at,
            round,
            number,
            element,
        },
    )?;
    make_steps(floor, report, actor, held, next)
}

/// The job looks at its wait, and goes on where it was served.
fn look<F: Floor>(
    floor: &mut F,
    report: &mut Report,
    actor: &Actor<'_>,
    state: &mut JobState,
    next: u32,
    at: u32,
    round: u32,
    number: u64,
) -> Result<(), Memory>
    requires waits { state.old.progress ≡ Waiting next at round number }
    requires held { state.old.held.items ≡ places_held (F.plain floor.old) actor.now.place }
    requires kinds { (F.plain floor.old).kinds ≡ kinds_of actor.now.resources.now }
    requires ready { IsReady (F.plain floor.old) actor.now.place
        (Some (wait_at at round number))
        (drop next actor.now.job.now.steps) }
    requires room { HasRoom (F.plain floor.old) actor.now.place
        (take next actor.now.job.now.steps) (drop next actor.now.job.now.steps) }
    requires few_steps { length actor.now.job.now.steps ≤ 64 }
    requires turn { actor.now.turn ≤ 40000 }
    ensures comes { ComesTo text_acted result
        (after_looking (role actor.now) next at round number
        (look_answer (F.plain floor.old) actor.now.place)
        (scene (F.plain floor.old) report.old))
        (left_at (scene (F.plain floor.new) report.new) state.new.progress) }
    ensures patience { OnOk result (state.new.patience
        ≡ after_look_at (role actor.now) state.old.patience
        (look_answer (F.plain floor.old) actor.now.place)) }
    ensures held { OnOk result (state.new.held.items
        ≡ places_held (F.plain floor.new) actor.now.place) }
{
    // Nothing is written while a wait goes on: in most turns most jobs wait.
    match floor.look(actor.place) {
        FloorLook::Pending => Ok(()),
        FloorLook::Granted(element) => {
            let held = &mut state.held;
            state.progress = be_served(
                floor, report, actor, held, next, at, round, number, element,
            )?;
            state.patience.since = actor.turn;
            Ok(())
        }
    }
}

/// The job acts in its turn, since it doesn't rest.
pub fn act<F: Floor>(
    floor: &mut F,
    report: &mut Report,
    actor: &Actor<'_>,
    state: &mut JobState,
) -> Result<(), Memory>
    requires acts { rests actor.now.turn state.old.progress ≡ false }
    requires ready { IsSet (F.plain floor.old) (role actor.now) state.old }
    requires room { HasRoomFor (F.plain floor.old) actor.now.place actor.now.job.now.steps
        state.old.progress }
    requires again { CanRetryIn (F.plain floor.old) (role actor.now) state.old.patience
        state.old.progress }
    requires few_steps { length actor.now.job.now.steps ≤ 64 }
    requires few_retries { actor.now.job.now.retry ≤ 64 }
    requires turn { actor.now.turn ≤ 40000 }
    ensures comes { ComesTo text_acted result
        (after_acting (role actor.now) state.old.patience state.old.progress
        (scene (F.plain floor.old) report.old))
        (left_at (scene (F.plain floor.new) report.new) state.new.progress) }
    ensures patience { OnOk result (state.new.patience
        ≡ patience_after (role actor.now) state.old.patience state.old.progress
        (scene (F.plain floor.old) report.old)) }
    ensures held { OnOk result (state.new.held.items
        ≡ places_held (F.plain floor.new) actor.now.place) }
{
    match state.progress {
        Progress::Ended(_) => unreachable!(),
        Progress::Stepping(next) | Progress::Working { next, .. } => {
            state.progress = make_steps(floor, report, actor, &mut state.held, next)?;
            state.patience.since = actor.turn;
            Ok(())
        }
        Progress::Waiting {
            next,
            at,
            round,
            number,
        } if actor.is_over_time(state.patience) => {
            wait_too_long(floor, report, actor, state, next, at, round, number)
        }
        Progress::Waiting {
            next,
            at,
            round,
            number,
        } => look(floor, report, actor, state, next, at, round, number),
    }
}
