//! Several workers run one plan.

ghost use Rattle.std.specs.Prelude.{◌≡◌, ◌<◌, ◌++◌, ◌∷◌, [], IfOk, OnOk, length, map, vec_len};
ghost use Rattle.cqs_core.specs.Numbered.{EachAt};
ghost use Rattle.cqs_plan.specs.Runnable.{IsRunnable};
ghost use Rattle.cqs_work.specs.Drawn.{AreFew, AreWide};
ghost use Rattle.cqs_work.specs.Ends.{job_end};
ghost use Rattle.cqs_work.specs.Gated.{told_by};
ghost use Rattle.cqs_work.specs.Met.{shared_of, CanMeetAll, HaveMetAll};
ghost use Rattle.cqs_work.specs.Opening.{AreSplit};
ghost use Rattle.cqs_work.specs.Worked.{AreParted, AreEnds, AreTold, AreGated, AreWaits, AreBounded, AreUncrowded, HaveAllIn, AreQuiet};

use crate::ends::{JobEnd, JobEnds};
use crate::gate::Gate;
use crate::posts::posts_for;
use crate::waits::{WaitLines, Waited, lines_of};
use crate::works::{Worker, meet_all, work_all};
use cqs_core::Memory;
use cqs_floor_shared::SharedFloor;
use cqs_plan::Plan;
use cqs_turns_report::{End, JobState, Progress};
use std::alloc::Global;
use std::sync::Wait;
use std::thread::Threads;

/// What workers left of a plan: the floor in which theirs have met, how each job ended, and the
/// waits of its semaphores.
#[derive(Drop)]
pub struct Worked<F> {
    pub floor: F,
    pub ends: JobEnds,
    pub waits: WaitLines,
}

/// What the workers left: their floors, how far their jobs are, and which waits these were told.
#[derive(Drop)]
struct Parted<F> {
    floors: Vec<F>,
    states: Vec<Vec<JobState>>,
    waits: Vec<Vec<Waited>>,
}

impl<F: Drop> Parted<F> {
    fn add(&mut self, worker: Worker<F>) -> Result<(), Memory>
        ensures floors { OnOk result (self.new.floors.items
            ≡ self.old.floors.items ++ worker.floor ∷ []) }
        ensures states { OnOk result (self.new.states.items
            ≡ self.old.states.items ++ worker.states ∷ []) }
        ensures waits { OnOk result (self.new.waits.items
            ≡ self.old.waits.items ++ worker.waits ∷ []) }
    {
        self.floors.push(worker.floor)?;
        self.states.push(worker.states)?;
        self.waits.push(worker.waits)?;
        Ok(())
    }
}

/// Puts all floors together, all states and all waits, where no worker was without memory.
fn part<F: Drop>(
    alloc: Global,
    workers: Vec<Result<Worker<F>, Memory>>,
) -> Result<Parted<F>, Memory>
    ensures { IfOk result (λ parted. AreParted workers.items parted.floors.items
        (map (λ own. own.items) parted.states.items)
        (map (λ own. own.items) parted.waits.items)) }
{
    let floors = Vec::with_capacity(alloc, workers.len())?;
    let states = Vec::with_capacity(alloc, workers.len())?;
    let waits = Vec::with_capacity(alloc, workers.len())?;
    let mut parted = Parted {
        floors,
        states,
        waits,
    };
    for one in workers {
        let worker = one?;
        parted.add(worker)?;
    }
    Ok(parted)
}

/// How a job ended that is so far after the last turn.
fn job_end(progress: Progress) -> JobEnd
    ensures { result ≡ job_end progress }
{
    match progress {
        Progress::Ended(End::Done) => JobEnd::Done,
        Progress::Ended(End::GaveUp) => JobEnd::GaveUp,
        Progress::Ended(End::Late) => JobEnd::Late,
        Progress::Ended(End::Crowded) => JobEnd::Crowded,
        Progress::Stepping(_) | Progress::Working { .. } | Progress::Waiting { .. } => {
            JobEnd::Unfinished
        }
    }
}

/// How each job ended, by the states of the worker that had it.
fn ends_of(alloc: Global, jobs: usize, states: &[Vec<JobState>]) -> Result<Vec<JobEnd>, Memory>
    requires some { 0 < length states.now }
    requires long { EachAt (λ worker own. length own.items ≡ jobs) states.now }
    ensures { IfOk result (λ ends. AreEnds jobs (map (λ own. own.items) states.now) ends.items) }
{
    let mut ends = Vec::with_capacity(alloc, jobs)?;
    for place in 0..jobs {
        let worker = place % states.len();
        let own = states[worker].as_slice();
        let end = job_end(own[place].progress);
        ends.push(end)?;
    }
    Ok(ends)
}

/// All floors meet in the first one.
fn meet_in_first<R: Wait, F: SharedFloor + Drop>(rt: &R, mut floors: Vec<F>) -> F
    requires some { 0 < vec_len floors }
    requires can { CanMeetAll (shared_of F.shared floors.items) }
    ensures { HaveMetAll (shared_of F.shared floors.items) (F.shared result) }
{
    let first = floors.remove(0);
    meet_all(rt, first, floors)
}

/// Workers run a plan, one on each floor. The job at the place `i` is that of the worker `i % n`,
/// of n. Each worker makes its turns, then its jobs leave their lines and give back what they hold;
/// then all floors meet in the first.
pub fn work_plan<R: Threads + Wait + Sync, F: SharedFloor + Send + Drop, G: Gate + Sync>(
    rt: &R,
    alloc: Global,
    plan: &Plan,
    floors: Vec<F>,
    gate: &G,
) -> Result<Worked<F>, Memory>
    requires runnable { IsRunnable plan.now }
    requires split { AreSplit plan.now (shared_of F.shared floors.items) }

    // There is one end for each job.
    ensures ends { IfOk result (λ worked. length worked.ends ≡ length plan.now.jobs) }

    // For each worker there are answers, one for each call, from which its jobs ended so; their
    // entries are in order those of the histories that name its pass; and what stands behind an end
    // as GaveUp, Late or Crowded is in the histories.
    ensures told { IfOk result (λ worked. AreTold plan.now (shared_of F.shared floors.items)
        (F.shared worked.floor) worked.ends worked.waits) }

    // The gate was told of each of these calls, before it was made and after, by the numbers from 1
    // on.
    ensures gate { IfOk result (λ worked. AreGated plan.now (shared_of F.shared floors.items)
        (F.shared worked.floor) worked.ends worked.waits
        (told_by G.begun G.ended gate.now)) }

    // The waits at each semaphore are the numbers that were drawn there, in order, each with a job
    // of the worker whose pass drew it.
    ensures waits { IfOk result (λ worked. AreWaits (shared_of F.shared floors.items)
        (F.shared worked.floor) worked.waits) }

    // A worker's takes of a semaphore are at least those of its jobs that are done, and at most all
    // of its jobs' take steps, with the retries of those that take there.
    ensures bounds { IfOk result (λ worked. AreBounded plan.now (shared_of F.shared floors.items)
        (F.shared worked.floor) worked.ends) }

    // At each resource no more numbers were drawn, at a barrier in one round, than the plan's jobs
    // may begin to wait there; so none is crowded where the limits are above that.
    ensures few { IfOk result (λ worked. AreFew plan.now (F.shared worked.floor)) }
    ensures uncrowded { IfOk result (λ worked. AreWide plan.now
        (shared_of F.shared floors.items) → AreUncrowded plan.now worked.ends) }

    // No semaphore or mutex has anything held, on its way, at the door or in line, and no pool has
    // an element held or anybody in line.
    ensures quiet { IfOk result (λ worked. AreQuiet (F.shared worked.floor)) }

    // All floors have met in this one, which has seen legal histories; no job waits or holds
    // anything.
    ensures met { IfOk result (λ worked. HaveAllIn plan.now (length floors.items)
        (F.shared worked.floor)) }
{
    let posts = posts_for(alloc, plan, floors)?;
    let all = work_all(rt, alloc, plan, gate, posts)?;
    let parted = part(alloc, all)?;
    let jobs = plan.jobs.as_slice().len();
    let states = parted.states.as_slice();
    let ends = ends_of(alloc, jobs, states)?;
    let resources = plan.resources.as_slice();
    let lines = lines_of(alloc, resources, parted.waits.as_slice())?;
    let floor = meet_in_first(rt, parted.floors);
    let ends = JobEnds::from(ends);
    let waits = WaitLines::from(lines);
    Ok(Worked { floor, ends, waits })
}
