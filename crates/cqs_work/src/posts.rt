//! A plan's jobs are dealt to workers.

ghost use Rattle.std.specs.Prelude.{◌≡◌, ◌<◌, ◌≤◌, IfOk, length, vec_len};
ghost use Rattle.cqs_work.specs.Opening.{starting, AreStarting, ArePosts};

use crate::works::Post;
use cqs_core::Memory;
use cqs_plan::Plan;
use cqs_turns_report::{End, JobState, Patience, Progress};
use std::alloc::Global;

/// The job at a place goes to the worker `place % workers`. To the others it has ended.
fn starting(workers: u32, worker: u32, place: u32) -> Progress
    requires { 0 < workers }
    ensures { result ≡ starting workers worker place }
{
    if place % workers == worker {
        Progress::Stepping(0)
    } else {
        Progress::Ended(End::Done)
    }
}

/// How far so many jobs are to a worker that hasn't begun.
fn starting_states(
    alloc: Global,
    jobs: u32,
    workers: u32,
    worker: u32,
) -> Result<Vec<JobState>, Memory>
    requires { 0 < workers }
    ensures { IfOk result (λ states. AreStarting jobs workers worker states.items) }
{
    let mut states = Vec::with_capacity(alloc, jobs as usize)?;
    for place in 0..jobs {
        let state = JobState {
            progress: starting(workers, worker, place),
            patience: Patience { since: 0, used: 0 },
            held: Vec::new(alloc),
        };
        states.push(state)?;
    }
    Ok(states)
}

/// The post of each worker.
pub fn posts_for<F: Drop>(
    alloc: Global,
    plan: &Plan,
    floors: Vec<F>,
) -> Result<Vec<Post<F>>, Memory>
    requires some { 0 < vec_len floors }
    requires few { vec_len floors ≤ 16 }
    requires jobs { length plan.now.jobs ≤ 4096 }
    ensures { IfOk result (λ posts. ArePosts (length plan.now.jobs) (length floors.items)
        floors.items
        posts.items) }
{
    let workers = floors.len() as u32;
    let jobs = plan.jobs.as_slice().len() as u32;
    let mut posts = Vec::with_capacity(alloc, floors.len())?;
    for floor in floors {
        let worker = posts.len() as u32;
        let states = starting_states(alloc, jobs, workers, worker)?;
        posts.push(Post {
            worker,
            floor,
            states,
        })?;
    }
    Ok(posts)
}
