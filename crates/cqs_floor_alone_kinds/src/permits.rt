//! The calls of a semaphore with one caller, made for the jobs of a plan.

ghost use Rattle.cqs_floor_alone_kinds.specs.Lifted.{of_semaphore};
ghost use Rattle.cqs_floor_alone_kinds.specs.Stores.{
  Acquires,
  CanAcquire,
  CanEnd,
  CanRelease,
  CanTell,
  Cancels,
  Polls,
  Releases,
  Tells,
};

use crate::sole::{SoleSemaphore, Stand, permits};
use crate::sole_resource::{Left, Looked, Taken};
use cqs_plan::{FloorEnd, FloorGive, Kind};
use cqs_rule::Place;

/// The job takes a permit, or waits.
pub(super) fn take<S: SoleSemaphore>(sole: &mut S, job: u32) -> Taken
    requires { CanAcquire (of_semaphore S.sole) job sole.old }
    ensures { Acquires (of_semaphore S.sole) job sole.old result sole.new }
{
    let _ = job;
    match sole.acquire() {
        None => Taken::Now(0),
        Some(wait) => Taken::Waits(wait),
    }
}

/// The job gives a permit back.
pub(super) fn give<S: SoleSemaphore>(sole: &mut S, job: u32) -> FloorGive
    requires { CanRelease (of_semaphore S.sole) job sole.old }
    ensures { Releases (of_semaphore S.sole) job sole.old result sole.new }
{
    let _ = job;
    match sole.release() {
        None => FloorGive::Free(0),
        Some(number) => FloorGive::Sent(0, number),
    }
}

/// The job looks at its wait.
pub(super) fn look<S: SoleSemaphore>(sole: &mut S, job: u32, round: u32, wait: Place) -> Looked
    requires { CanEnd (of_semaphore S.sole) job round wait sole.old }
    ensures { Polls (of_semaphore S.sole) job sole.old round wait result sole.new }
{
    let _ = (job, round);
    if sole.poll(wait) {
        Looked::Got(0)
    } else {
        Looked::Pending
    }
}

/// The job gives its wait up.
pub(super) fn leave<S: SoleSemaphore>(sole: &mut S, job: u32, round: u32, wait: Place) -> Left
    requires { CanEnd (of_semaphore S.sole) job round wait sole.old }
    ensures { Cancels (of_semaphore S.sole) job sole.old round wait result sole.new }
{
    let _ = (job, round);
    if sole.cancel(wait) {
        Left::Gone
    } else {
        Left::Late(0)
    }
}

/// How the semaphore stands, as a resource of its kind.
pub(super) fn end<S: SoleSemaphore>(sole: &mut S, kind: Kind) -> FloorEnd
    requires { CanTell (of_semaphore S.sole) kind sole.old }
    ensures { Tells (of_semaphore S.sole) kind sole.old result sole.new }
{
    let Stand { free, line } = sole.stand();
    FloorEnd::Permits {
        free,
        held: permits(kind) - free,
        line,
    }
}
