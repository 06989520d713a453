//! The plan that a number makes.

ghost use Rattle.std.specs.Prelude.{◌≡◌, ◌*◌, ◌+◌, ◌<◌, ◌≤◌, ◌^◌, ◌++◌, codes, decimal, vec_len, IfOk};
ghost use Rattle.cqs_plan.specs.Validity.{IsValid};
ghost use Rattle.cqs_plan.specs.Runnable.{AreSized, IsRunnable};
ghost use Rattle.cqs_plan_generator.specs.Draws.{number_of, next_state};
ghost use Rattle.cqs_plan_generator.specs.Generated.{plan_of_number, job_of, resources, deadline_of, steps_of};

use crate::draws::Draws;
use cqs_plan::{Job, Jobs, Kind, Memory, Name, Plan, Resource, Resources, Step, Steps};
use std::alloc::Global;

/// The plan of this number, with so many jobs: they share a semaphore `db` of two permits and a
/// pool `buf` of one element. Each job works for up to five turns, takes a permit, by an odd number
/// the element, too, and works for up to four turns; it has a deadline of up to 30 turns where its
/// third number is a multiple of 3.
pub fn make_plan(alloc: Global, number: u32, jobs: u32) -> Result<Plan, Memory>
    requires number { number < 2 ^ 31 }
    requires jobs { (1 ≤ jobs) × (jobs ≤ 4096) }
    ensures plan { IfOk result (λ plan. plan ≡ plan_of_number number jobs) }
    ensures valid { IfOk result IsValid }
    ensures runnable { IfOk result IsRunnable }
    ensures sized { IfOk result (λ plan. AreSized plan.resources) }
{
    Ok(Plan {
        version: 1,
        turns: 8 * jobs + 16,
        resources: make_resources(alloc)?,
        jobs: make_jobs(alloc, number, jobs)?,
    })
}

/// The two resources.
fn make_resources(alloc: Global) -> Result<Resources, Memory>
    ensures { IfOk result (λ made. made ≡ resources) }
{
    let mut made = Vec::with_capacity(alloc, 2)?;
    made.push(Resource {
        name: name_of(alloc, "db")?,
        kind: Kind::Semaphore(2),
    })?;
    made.push(Resource {
        name: name_of(alloc, "buf")?,
        kind: Kind::Pool(1),
    })?;
    Ok(Resources::from(made))
}

/// A name of these bytes.
fn name_of(alloc: Global, text: &str) -> Result<Name, Memory>
    ensures { IfOk result (λ name. name ≡ text.now) }
{
    Ok(Name::from(Vec::from_slice(alloc, text.as_bytes())?))
}

/// The jobs, each of which has the next three numbers that are drawn.
fn make_jobs(alloc: Global, number: u32, jobs: u32) -> Result<Jobs, Memory>
    requires number { number < 2 ^ 31 }
    ensures { IfOk result (λ made. made ≡ (plan_of_number number jobs).jobs) }
{
    let mut draws = Draws::new(number);
    let mut made = Vec::with_capacity(alloc, jobs as usize)?;
    for index in 0..jobs {
        made.push(make_job(alloc, &mut draws, index)?)?;
    }
    Ok(Jobs::from(made))
}

/// The next job.
fn make_job(alloc: Global, draws: &mut Draws, index: u32) -> Result<Job, Memory>
    ensures draws { draws.new.state ≡ next_state (next_state (next_state draws.old.state)) }
    ensures job { IfOk result (λ job. job ≡ job_of index (number_of (next_state draws.old.state))
        (number_of (next_state (next_state draws.old.state))) (number_of draws.new.state)) }
{
    let first = draws.draw();
    let second = draws.draw();
    let third = draws.draw();
    Ok(Job {
        name: job_name(alloc, index)?,
        steps: make_steps(alloc, first, second)?,
        deadline: make_deadline(third),
        within: None,
        retry: 0,
    })
}

/// The name of the job at this place.
fn job_name(alloc: Global, index: u32) -> Result<Name, Memory>
    ensures { IfOk result (λ name. name ≡ codes "j" ++ decimal index) }
{
    let text = format!(in alloc; "j{index}")?;
    Ok(Name::from(text.into_bytes()))
}

/// A job's steps, by its first two numbers.
fn make_steps(alloc: Global, first: u32, second: u32) -> Result<Steps, Memory>
    ensures { IfOk result (λ made. made ≡ steps_of first second) }
{
    let mut made = Vec::with_capacity(alloc, 4)?;
    made.push(Step::Work(first % 5 + 1))?;
    made.push(Step::Take(0))?;
    if second % 2 == 1 {
        made.push(Step::Take(1))?;
    }
    made.push(Step::Work(second % 4 + 1))?;
    Ok(Steps::from(made))
}

/// A job's deadline, by its third number.
fn make_deadline(third: u32) -> Option<u32>
    ensures { result ≡ deadline_of third }
{
    if third % 3 == 0 {
        Some(third % 30 + 1)
    } else {
        None
    }
}
