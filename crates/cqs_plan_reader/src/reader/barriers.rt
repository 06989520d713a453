//! How many jobs arrive at the barriers of a plan.
ghost use Rattle.std.specs.Prelude.{◌≡◌, IfErr, IfOk, codes};
ghost use Rattle.cqs_plan.specs.Arriving.{arrives, arriving, has_parties};
ghost use Rattle.cqs_plan_reader.specs.Faults.{barrier_faults, barriers_faults};
ghost use Rattle.cqs_plan.specs.Order.{AreFew};
ghost use Rattle.cqs_plan_reader.specs.Places.{below_place};
ghost use Rattle.cqs_plan_reader.specs.Reading.{Reads};

use cqs_plan::{FaultKind, Job, Kind, Name, PlanError, Resource, Step};
use std::alloc::Global;

fn arrives(job: &Job, barrier: u32) -> bool
    ensures { result ≡ arrives barrier job.now }
{
    job.steps.as_slice().iter().any(|step| matches!(step, Step::Arrive(place) if *place == barrier))
}

fn arriving(jobs: &[Job], barrier: u32) -> usize
    ensures { result ≡ arriving barrier jobs.now }
{
    jobs.iter().filter(|job| arrives(job, barrier)).count()
}

/// No more jobs arrive at a resource than its kind allows: only a barrier limits them.
fn has_parties(kind: Kind, jobs: &[Job], at: u32) -> bool
    ensures { result ≡ has_parties kind (arriving at jobs.now) }
{
    match kind {
        Kind::Rounds { parties, .. } => arriving(jobs, at) <= parties as usize,
        Kind::Semaphore(_) | Kind::Mutex | Kind::Pool(_) | Kind::Latch(_) => true,
    }
}

/// The place of a barrier in a document, as `barrier.start`.
fn barrier_place(alloc: Global, name: &[u8]) -> Result<Name, PlanError>
    ensures value { IfOk result (λ place. place ≡ below_place (codes "barrier") name.now) }
    ensures memory { IfErr result (λ error. error ≡ PlanError.Memory) }
{
    let mut place = "barrier.".as_bytes().to_vec(alloc)?;
    place.extend_from_slice(name)?;
    Ok(Name::from(place))
}

/// A barrier at which more jobs arrive than it has parties is a fault.
fn barrier(alloc: Global, at: u32, resource: &Resource, jobs: &[Job]) -> Result<(), PlanError>
    ensures { Reads result (barrier_faults jobs.now at resource.now) }
{
    if has_parties(resource.kind, jobs, at) {
        return Ok(());
    }
    let place = barrier_place(alloc, resource.name.as_slice())?;
    Err(PlanError::Fault {
        place,
        kind: FaultKind::Many,
    })
}

/// Looks at the barriers of a plan, in order.
pub fn barriers(alloc: Global, resources: &[Resource], jobs: &[Job]) -> Result<(), PlanError>
    requires { AreFew resources.now }
    ensures { Reads result (barriers_faults resources.now jobs.now) }
{
    for (at, resource) in resources.iter().enumerate() {
        barrier(alloc, at as u32, resource, jobs)?;
    }
    Ok(())
}
