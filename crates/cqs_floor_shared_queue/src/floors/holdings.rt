//! What jobs hold of all resources of a floor. It is kept for contracts, which say what each job
//! holds, in order; each resource knows for itself what may be given back.

ghost use Rattle.std.specs.Prelude.{◌≡◌, ◌<◌, ◌+◌, ◌≤◌, ◌++◌, length, vec_capacity, IsTrue};
ghost use Rattle.std.specs.List.{list_any};
ghost use Rattle.cqs_floor_shared_queue.specs.Holdings.{
  and_brought,
  and_more,
  and_taken,
  is_of,
  less_oldest,
};

use cqs_floor_shared_kinds::Came;
use cqs_plan::Kind;

/// Something that a job holds: which element of which resource. A permit has the number 0.
#[derive(Clone, Copy)]
pub struct JobHolding {
    pub job: u32,
    pub at: u32,
    pub element: u32,
}

/// The job has what it took at once.
pub(super) fn hold_taken(holdings: &mut Vec<JobHolding>, at: u32, job: u32, came: Came)
    requires { length holdings.old.items < vec_capacity holdings.old }
    ensures items { holdings.new.items ≡ and_taken holdings.old.items at job came }
    ensures capacity { vec_capacity holdings.new ≡ vec_capacity holdings.old }
{
    match came {
        Came::Now(element) => holdings.push_reserved(JobHolding { job, at, element }),
        Came::Under(_) | Came::Waits(_) | Came::Worn => {}
    }
}

/// The job has what came for its wait, where the resource is one that can be held.
pub(super) fn hold_brought(
    holdings: &mut Vec<JobHolding>,
    kind: Kind,
    at: u32,
    job: u32,
    element: u32,
)
    requires { length holdings.old.items < vec_capacity holdings.old }
    ensures items { holdings.new.items ≡ and_brought kind holdings.old.items at job element }
    ensures capacity { vec_capacity holdings.new ≡ vec_capacity holdings.old }
{
    match kind {
        Kind::Semaphore(_) | Kind::Mutex | Kind::Pool(_) => {
            holdings.push_reserved(JobHolding { job, at, element });
        }
        Kind::Latch(_) | Kind::Rounds { .. } => {}
    }
}

/// The oldest that the job holds of the resource is gone.
pub(super) fn drop_oldest(holdings: &mut Vec<JobHolding>, at: u32, job: u32)
    requires { IsTrue (list_any (is_of at job) holdings.old.items) }
    ensures items { holdings.new.items ≡ less_oldest at job holdings.old.items }
    ensures capacity { vec_capacity holdings.new ≡ vec_capacity holdings.old }
{
    let Some(oldest) = holdings.iter().position(|h| h.job == job && h.at == at) else {
        unreachable!()
    };
    holdings.remove(oldest);
}

/// The jobs hold these as well, behind what they held.
pub(super) fn take_over(holdings: &mut Vec<JobHolding>, given: &[JobHolding])
    requires { length holdings.old.items + length given.now ≤ vec_capacity holdings.old }
    ensures items { holdings.new.items ≡ holdings.old.items ++ given.now }
    ensures capacity { vec_capacity holdings.new ≡ vec_capacity holdings.old }
{
    for one in given {
        holdings.push_reserved(*one);
    }
}
