//! Workers beside each other.

ghost use Rattle.std.specs.Prelude.{◌≡◌, All, IfOk, OnOk, vec_len};
ghost use Rattle.cqs_plan.specs.Runnable.{IsRunnable};
ghost use Rattle.cqs_work.specs.Desk.{fresh_desk};
ghost use Rattle.cqs_work.specs.Gated.{told_by};
ghost use Rattle.cqs_work.specs.Hands.{at_hand};
ghost use Rattle.cqs_work.specs.Works.{RunsOn, HasWorkedOn, AllWorked};
ghost use Rattle.cqs_work.specs.Met.{CanMeet, HaveMet, shared_of};

use crate::clerk::Clerk;
use crate::gate::Gate;
use crate::turns::{all_turns, close_jobs};
use crate::waits::Waited;
use cqs_core::Memory;
use cqs_floor_shared::SharedFloor;
use cqs_plan::Plan;
use cqs_turns_report::JobState;
use std::alloc::Global;
use std::sync::Wait;
use std::thread;
use std::thread::Threads;

/// A worker before its first turn: its number, its floor, and how far each job of the plan is. To
/// it the jobs of the others have ended.
#[derive(Drop)]
pub struct Post<F> {
    pub worker: u32,
    pub floor: F,
    pub states: Vec<JobState>,
}

/// A worker after its last call.
#[derive(Drop)]
pub struct Worker<F> {
    pub floor: F,
    pub states: Vec<JobState>,
    /// Which waits its jobs were told, in order.
    pub waits: Vec<Waited>,
}

/// A worker's work: its turns, and then the calls after the last turn.
fn work_on<R: Threads + Wait, G: Gate, F: SharedFloor>(
    clerk: &mut Clerk<'_, R, G, F>,
    plan: &Plan,
    states: &mut [JobState],
) -> Result<(), Memory>
    requires runnable { IsRunnable plan.now }
    requires runs { RunsOn plan.now (F.shared clerk.old.floor) states.old }
    ensures { OnOk result (HasWorkedOn plan.now
        (at_hand F.shared G.begun G.ended clerk.old) states.old states.new
        (F.shared clerk.new.floor) clerk.new.waits.items) }
{
    all_turns(clerk, plan, states)?;
    close_jobs(clerk, plan, states)
}

/// A worker works from its post on.
fn work<R: Threads + Wait, G: Gate, F: SharedFloor + Drop>(
    rt: &R,
    alloc: Global,
    plan: &Plan,
    gate: &G,
    post: Post<F>,
) -> Result<Worker<F>, Memory>
    requires runnable { IsRunnable plan.now }
    requires runs { RunsOn plan.now (F.shared post.floor) post.states.items }
    ensures { IfOk result
        (λ worker. HasWorkedOn plan.now
        (fresh_desk (F.shared post.floor) (told_by G.begun G.ended gate.now post.worker))
        post.states.items worker.states.items (F.shared worker.floor) worker.waits.items) }
{
    let Post {
        worker,
        floor,
        mut states,
    } = post;
    let mut clerk = Clerk {
        rt,
        gate,
        worker,
        calls: 0,
        floor,
        waits: Vec::new(alloc),
    };
    work_on(&mut clerk, plan, states.as_mut_slice())?;
    Ok(Worker {
        floor: clerk.floor,
        states,
        waits: clerk.waits,
    })
}

/// All workers work, each in a thread of its own where one can be made. A worker without memory
/// says so in its place.
pub fn work_all<R: Threads + Wait + Sync, G: Gate + Sync, F: SharedFloor + Send + Drop>(
    rt: &R,
    alloc: Global,
    plan: &Plan,
    gate: &G,
    posts: Vec<Post<F>>,
) -> Result<Vec<Result<Worker<F>, Memory>>, Memory>
    requires runnable { IsRunnable plan.now }
    requires runs { All (λ post. RunsOn plan.now (F.shared post.floor) post.states.items)
        posts.items }
    ensures len { IfOk result (λ all. vec_len all ≡ vec_len posts) }
    ensures each { IfOk result (λ all. AllWorked F.shared (told_by G.begun G.ended gate.now)
        plan.now posts.items all.items) }
{
    Ok(thread::map_vec(rt, posts, &|post| { work(rt, alloc, plan, gate, post) })?)
}

/// All floors meet in the first, in order.
pub fn meet_all<R: Wait, F: SharedFloor + Drop>(rt: &R, mut first: F, given: Vec<F>) -> F
    requires { CanMeet (F.shared first) (shared_of F.shared given.items) }
    ensures { HaveMet (F.shared first) (shared_of F.shared given.items) (F.shared result) }
{
    for floor in given {
        match first.meet(rt, floor) {
            Ok(()) => {}
            Err(_) => unreachable!(),
        }
    }
    first
}
