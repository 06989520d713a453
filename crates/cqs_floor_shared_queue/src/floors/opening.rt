//! The making of the floors of several workers for a plan: its resources, what each worker has of
//! them, and the memory for all that the steps can lead to.

ghost use Rattle.std.specs.Prelude.{◌≡◌, ℕ, ◌+◌, ◌-◌, ◌*◌, ◌%◌, ◌&&◌, nat_le, cond, ◌<◌, ◌≤◌, ◌∷◌, IfOk, length, map, replicate, slice_index, sum, vec_len};
ghost use Rattle.std.specs.List.{list_any};
ghost use Rattle.cqs_core.specs.Numbered.{EachAt};
ghost use Rattle.cqs_plan.specs.PlanSteps.{is_arrival};
ghost use Rattle.cqs_plan.specs.Runnable.{AreSized, IsRunnable, kinds_of};
ghost use Rattle.cqs_work.specs.Opening.{AreSplit, IsOpening};
ghost use Rattle.cqs_floor_shared_any.specs.AnyShares.{share_any};
ghost use Rattle.cqs_floor_shared_queue.specs.Ledgers.{shared_in};
ghost use Rattle.cqs_floor_shared_queue.specs.Openings.{
  AreFresh,
  AreLimits,
  CanSplitEach,
  HaveOpened,
  HaveSplitEach,
  IsMade,
  arriving_from,
  own_arriving,
  plan_name,
};
ghost use Rattle.cqs_floor_shared_kinds.specs.ShareCalls.{CanSplit, HasSplit};
ghost use Rattle.cqs_floor_shared_queue.specs.Spots.{no_spot};

use super::desk::Desk;
use super::share_floor::ShareFloor;
use super::spots::Spot;
use cqs_core::Memory;
use cqs_floor_common::count_room;
use cqs_floor_shared_any::AnyShared;
use cqs_floor_shared_kinds::{ForEachKind, SharedResource};
use cqs_plan::{Job, Kind, Plan, Resource, Step};
use std::alloc::{AllocError, Global};

/// A floor for each of so many workers, on resources of the running queue that all of them share.
/// The first has the first pass of each, and each other one a pass that was split from the one
/// before. A floor has room for all steps and retries of the plan, and holds a party for each of
/// its worker's jobs that arrives at a barrier.
pub fn shared_floors(
    alloc: Global,
    plan: &Plan,
    workers: u32,
) -> Result<Vec<ShareFloor<AnyShared>>, Memory>
    requires runnable { IsRunnable plan.now }
    requires sized { AreSized plan.now.resources }
    requires some { 1 ≤ workers }
    requires few { workers ≤ 16 }
    ensures split { IfOk result (λ floors. AreSplit plan.now
        (map (shared_in share_any) floors.items)) }
    ensures many { IfOk result (λ floors. vec_len floors ≡ workers) }
    ensures wide { IfOk result (λ floors. EachAt (λ worker f. AreLimits plan.now f.limits)
        (map (shared_in share_any) floors.items)) }
{
    open_floors(alloc, plan, workers)
}

/// The same, over resources of any sort.
fn open_floors<X: ForEachKind>(
    alloc: Global,
    plan: &Plan,
    workers: u32,
) -> Result<Vec<ShareFloor<X>>, Memory>
    requires runnable { IsRunnable plan.now }
    requires sized { AreSized plan.now.resources }
    requires some { 1 ≤ workers }
    requires few { workers ≤ 16 }
    ensures split { IfOk result (λ floors. AreSplit plan.now
        (map (shared_in X.share) floors.items)) }
    ensures many { IfOk result (λ floors. vec_len floors ≡ workers) }
    ensures wide { IfOk result (λ floors. EachAt (λ worker f. AreLimits plan.now f.limits)
        (map (shared_in X.share) floors.items)) }
{
    X::law();
    let resources = plan.resources.as_slice();
    let jobs = plan.jobs.as_slice();
    let room = count_room(alloc, resources.len(), jobs)?;
    let mut shares = open_shares(alloc, resources, workers, &room)?;
    let mut floors = Vec::with_capacity(alloc, workers as usize)?;
    for worker in 1..workers {
        let next = split_shares(alloc, &mut shares, jobs, workers, worker)?;
        floors.push(make_floor(alloc, plan, shares, workers, worker - 1)?)?;
        shares = next;
    }
    floors.push(make_floor(alloc, plan, shares, workers, workers - 1)?)?;
    Ok(floors)
}

/// The floor of a worker, with what each resource is kept as for it.
fn make_floor<X: SharedResource>(
    alloc: Global,
    plan: &Plan,
    shares: Vec<X>,
    workers: u32,
    worker: u32,
) -> Result<ShareFloor<X>, Memory>
    requires runnable { IsRunnable plan.now }
    requires sized { AreSized plan.now.resources }
    requires worker { worker < workers }
    requires few { workers ≤ 16 }
    requires fresh { AreFresh X.share plan.now.resources workers worker
        (λ at. own_arriving workers worker at plan.now.jobs) shares.items }
    ensures opens { IfOk result (λ floor. IsOpening plan.now workers worker
        (shared_in X.share floor)) }
    ensures number { IfOk result (λ floor. floor.number ≡ worker) }
    ensures family { IfOk result (λ floor. (shared_in X.share floor).family
        ≡ plan_name plan.now workers ∷ map X.share.family shares.items) }
    ensures limits { IfOk result (λ floor. (shared_in X.share floor).limits
        ≡ map X.share.limit shares.items) }
{
    X::law();
    let desk = make_desk(alloc, plan, shares, workers, worker)?;
    Ok(ShareFloor { desk })
}

/// What it is made of.
fn make_desk<X: SharedResource>(
    alloc: Global,
    plan: &Plan,
    shares: Vec<X>,
    workers: u32,
    worker: u32,
) -> Result<Desk<X>, Memory>
    requires runnable { IsRunnable plan.now }
    requires few { workers ≤ 16 }
    ensures { IfOk result (IsMade plan.now workers worker shares.items) }
{
    let resources = plan.resources.as_slice();
    let jobs = plan.jobs.as_slice();
    let room = count_room(alloc, resources.len(), jobs)?;
    let budget = total(&room);
    let space = budget as usize * workers as usize;
    Ok(Desk {
        kinds: kinds(alloc, resources)?,
        shares,
        spots: no_spots(alloc, jobs.len())?,
        rounds: no_rounds(alloc, jobs.len(), resources.len())?,
        holdings: Vec::with_capacity(alloc, space)?,
        number: worker,
        met: Vec::with_capacity(alloc, workers as usize)?,
        floors: workers,
        budget,
        room,
    })
}

/// What each resource is.
fn kinds(alloc: Global, resources: &[Resource]) -> Result<Vec<Kind>, AllocError>
    ensures { IfOk result (λ kinds. kinds.items ≡ kinds_of resources.now) }
{
    resources
        .iter()
        .map(|resource| resource.kind)
        .collect(alloc)
}

/// How often the jobs may begin to wait at all resources together.
fn total(room: &[u32]) -> u32
    requires { sum room.now ≤ 33554432 }
    ensures { result ≡ sum room.now }
{
    room.iter().copied().sum()
}

/// A list in which no job has a wait.
fn no_spots(alloc: Global, jobs: usize) -> Result<Vec<Spot>, AllocError>
    ensures { IfOk result (λ spots. spots.items ≡ replicate jobs no_spot) }
{
    let mut spots = Vec::with_capacity(alloc, jobs)?;
    for _job in 0..jobs {
        spots.push(Spot {
            wait: None,
            came: false,
        })?;
    }
    Ok(spots)
}

/// Rounds of no job at any resource.
fn no_rounds(alloc: Global, jobs: usize, resources: usize) -> Result<Vec<Vec<u32>>, AllocError>
    ensures { IfOk result (λ rounds. map (λ own. own.items) rounds.items
        ≡ replicate jobs (replicate resources 0)) }
{
    let mut rounds = Vec::with_capacity(alloc, jobs)?;
    for _job in 0..jobs {
        rounds.push(vec![in alloc; 0u32; resources]?)?;
    }
    Ok(rounds)
}

/// What each resource is kept as for the first worker.
fn open_shares<X: ForEachKind>(
    alloc: Global,
    resources: &[Resource],
    workers: u32,
    room: &[u32],
) -> Result<Vec<X>, Memory>
    requires sized { AreSized resources.now }
    requires same { length room.now ≡ length resources.now }
    requires few { (at : ℕ) → slice_index room.now at ≤ 524288 }
    requires some { 1 ≤ workers }
    requires few_workers { workers ≤ 16 }
    ensures opened { IfOk result (λ shares. HaveOpened X.share resources.now workers room.now
        shares.items) }
    ensures long { IfOk result (λ shares. length shares.items ≡ length resources.now) }
{
    let mut shares = Vec::with_capacity(alloc, resources.len())?;
    for (at, resource) in resources.iter().enumerate() {
        shares.push(X::open(alloc, resource.kind, workers, room[at])?)?;
    }
    Ok(shares)
}

/// What each resource is kept as for the next worker, whose pass is split from that of the one
/// before. It has a party for each job of that worker and of those after it.
fn split_shares<X: SharedResource>(
    alloc: Global,
    shares: &mut Vec<X>,
    jobs: &[Job],
    workers: u32,
    worker: u32,
) -> Result<Vec<X>, Memory>
    requires jobs { length jobs.now ≤ 4096 }
    requires some { 1 ≤ workers }
    requires few { length shares.old.items ≤ 64 }
    requires can { CanSplitEach X.share (λ at. arriving_from workers worker at 0 jobs.now)
        shares.old.items }
    ensures { IfOk result (λ made. HaveSplitEach X.share
        (λ at. arriving_from workers worker at 0 jobs.now) worker shares.old.items made.items
        shares.new.items) }
{
    let mut made = Vec::with_capacity(alloc, shares.len())?;
    for at in 0..shares.len() {
        let gives = count_arriving(jobs, workers, worker, at as u32);
        let one = split_one(alloc, &mut shares[at], gives, worker)?;
        made.push(one)?;
    }
    Ok(made)
}

/// What one resource is kept as for the next worker.
fn split_one<X: SharedResource>(
    alloc: Global,
    share: &mut X,
    gives: u32,
    worker: u32,
) -> Result<X, Memory>
    requires { CanSplit X.share gives share.old }
    ensures split { IfOk result (λ made. HasSplit X.share gives share.old made share.new) }
    ensures number { IfOk result (λ made. X.share.number made ≡ worker) }
{
    let made = share.split(alloc, gives)?;
    // Nobody else has a pass yet, so the passes have their numbers in order. A split doesn't tell
    // so.
    if made.number() != worker {
        return Err(Memory);
    }
    Ok(made)
}

/// How many jobs of the workers from this one on arrive at the barrier.
fn count_arriving(jobs: &[Job], workers: u32, worker: u32, at: u32) -> u32
    requires some { 1 ≤ workers }
    requires few { length jobs.now ≤ 4096 }
    ensures { result ≡ arriving_from workers worker at 0 jobs.now }
{
    let mut many = 0;
    for (place, job) in jobs.iter().enumerate() {
        many += one_arriving(job.steps.as_slice(), workers, worker, at, place as u32);
    }
    many
}

/// One, where the job at this place is of the workers from this one on and arrives at the barrier.
fn one_arriving(steps: &[Step], workers: u32, worker: u32, at: u32, place: u32) -> u32
    requires { 1 ≤ workers }
    ensures { result ≡ cond (nat_le worker (place % workers) && list_any (is_arrival at) steps.now)
        1 0 }
{
    if place % workers >= worker && arrives(steps, at) {
        1
    } else {
        0
    }
}

/// Whether one of the steps arrives at the barrier.
fn arrives(steps: &[Step], at: u32) -> bool
    ensures { result ≡ list_any (is_arrival at) steps.now }
{
    steps.iter().any(|step| arrives_at(*step, at))
}

fn arrives_at(step: Step, at: u32) -> bool
    ensures { result ≡ is_arrival at step }
{
    match step {
        Step::Arrive(place) => place == at,
        Step::Take(_) | Step::Give(_) | Step::Down(_) | Step::Await(_) | Step::Work(_) => false,
    }
}
