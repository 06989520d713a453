//! How often the jobs of a plan may begin to wait.

ghost use Rattle.std.specs.Prelude.{◌≡◌, ℕ, ◌+◌, ◌^◌, ◌<◌, ◌≤◌, IfOk, length, map, count_by, slice_index, sum};
ghost use Rattle.std.specs.List.{list_any, range_with_len};
ghost use Rattle.cqs_core.specs.Numbered.{EachAt};
ghost use Rattle.cqs_plan.specs.Floor.{times_at, waits_of_job};
ghost use Rattle.cqs_plan.specs.PlanSteps.{may_wait};
ghost use Rattle.cqs_floor_common.specs.Room.{AreWithin, IsCountable, room_of};

use cqs_plan::{Job, Step};
use std::alloc::{AllocError, Global};

/// For each resource how often the jobs may begin to wait there: once for each take, wait and
/// arrival of a job, and once for each of its retries.
pub fn count_room(alloc: Global, resources: usize, jobs: &[Job]) -> Result<Vec<u32>, AllocError>
    requires few { length jobs.now ≤ 4096 }
    requires few_resources { resources ≤ 64 }
    requires countable { EachAt (λ place job. IsCountable resources job) jobs.now }
    ensures counts { IfOk result (λ room. room.items
        ≡ map (room_of jobs.now) (range_with_len 0 resources)) }
    ensures few { IfOk result (λ room. (at : ℕ) → slice_index room.items at ≤ 524288) }
    ensures few_in_all { IfOk result (λ room. sum room.items ≤ 33554432) }
{
    let mut room = vec![in alloc; 0u32; resources]?;
    for job in jobs {
        count_job(&mut room, job);
    }
    Ok(room)
}

/// Adds to each resource how often the job may begin to wait there.
fn count_job(room: &mut [u32], job: &Job)
    requires few { (at : ℕ) → slice_index room.old at + 128 < 2 ^ 32 }
    requires few_resources { length room.old ≤ 64 }
    requires countable { IsCountable (length room.old) job.now }
    ensures counts { (at : ℕ) → at < length room.old → slice_index room.new at
        ≡ slice_index room.old at + waits_of_job at job.now }
    ensures few { (at : ℕ) → slice_index room.new at ≤ slice_index room.old at + 128 }
{
    count_steps(room, job.steps.as_slice());
    count_retries(room, job);
}

/// Adds to each resource how many of the steps are takes, waits or arrivals of it.
fn count_steps(room: &mut [u32], steps: &[Step])
    requires few { (at : ℕ) → slice_index room.old at + length steps.now < 2 ^ 32 }
    requires within { AreWithin (length room.old) steps.now }
    ensures counts { (at : ℕ) → slice_index room.new at
        ≡ slice_index room.old at + count_by (may_wait at) steps.now }
{
    for step in steps {
        match step {
            Step::Take(at) | Step::Await(at) | Step::Arrive(at) => room[*at as usize] += 1,
            Step::Give(_) | Step::Down(_) | Step::Work(_) => {}
        }
    }
}

fn may_wait(at: u32, step: Step) -> bool
    ensures { result ≡ may_wait at step }
{
    match step {
        Step::Take(place) | Step::Await(place) | Step::Arrive(place) => place == at,
        Step::Give(_) | Step::Down(_) | Step::Work(_) => false,
    }
}

/// The job takes of this resource, waits there or arrives.
fn waits_at(job: &Job, at: u32) -> bool
    ensures { result ≡ list_any (may_wait at) job.now.steps }
{
    job.steps.as_slice().iter().any(|step| may_wait(at, *step))
}

/// Adds the job's retries to each resource at which it may have to wait.
fn count_retries(room: &mut [u32], job: &Job)
    requires few { (at : ℕ) → slice_index room.old at + job.now.retry < 2 ^ 32 }
    requires few_resources { length room.old ≤ 64 }
    ensures counts { (at : ℕ) → at < length room.old → slice_index room.new at
        ≡ slice_index room.old at + times_at at job.now job.now.retry }
    ensures few { (at : ℕ) → slice_index room.new at ≤ slice_index room.old at + job.now.retry }
{
    if job.retry == 0 {
        return;
    }
    for at in 0..room.len() {
        if waits_at(job, at as u32) {
            room[at] += job.retry;
        }
    }
}
