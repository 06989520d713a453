//! The making of a desk: its resources, and the memory for all that the steps of a plan can lead
//! to.

ghost use Rattle.std.specs.Prelude.{◌≡◌, ℕ, ◌*◌, ◌<◌, ◌≤◌, IfOk, length, map, replicate, slice_index, sum, None};
ghost use Rattle.cqs_plan.specs.Runnable.{IsRunnable, kinds_of};
ghost use Rattle.cqs_floor_alone.specs.Opening.{AreOpened, AreSized, IsOpening};
ghost use Rattle.cqs_floor_alone_kinds.specs.Waits.{slot_wait};

use crate::desk::Desk;
use cqs_core::Memory;
use cqs_floor_alone_kinds::{ForEachKind, WaitSlot};
use cqs_floor_common::count_room;
use cqs_plan::{Kind, Plan, Resource};
use std::alloc::{AllocError, Global};

impl<S: ForEachKind> Desk<S> {
    /// A desk at which nothing has happened, with memory for all that the plan's steps can lead to.
    pub fn new(alloc: Global, plan: &Plan) -> Result<Self, Memory>
        requires runnable { IsRunnable plan.now }
        requires sized { AreSized plan.now.resources }
        ensures { IfOk result (IsOpening S.store plan.now) }
    {
        let resources = plan.resources.as_slice();
        let jobs = plan.jobs.as_slice();
        let room = count_room(alloc, resources.len(), jobs)?;
        let all = total(&room);
        Ok(Desk {
            kinds: kinds(alloc, resources)?,
            soles: open_soles(alloc, resources, &room)?,
            waits: no_waits(alloc, jobs.len())?,
            rounds: no_rounds(alloc, jobs.len(), resources.len())?,
            transfers: Vec::with_capacity(alloc, 2 * all)?,
            room,
        })
    }
}

/// What each resource is.
fn kinds(alloc: Global, resources: &[Resource]) -> Result<Vec<Kind>, AllocError>
    ensures { IfOk result (λ kinds. kinds.items ≡ kinds_of resources.now) }
{
    resources
        .iter()
        .map(|resource| resource.kind)
        .collect(alloc)
}

/// How often the jobs may begin to wait at all resources together.
fn total(room: &[u32]) -> usize
    requires { sum room.now ≤ 33554432 }
    ensures { result ≡ sum room.now }
{
    room.iter().map(|here| *here as usize).sum()
}

/// A list in which no job has a wait.
fn no_waits(alloc: Global, jobs: usize) -> Result<Vec<WaitSlot>, AllocError>
    ensures { IfOk result (λ waits. map slot_wait waits.items ≡ replicate jobs None) }
{
    let mut waits = Vec::with_capacity(alloc, jobs)?;
    for _job in 0..jobs {
        waits.push(WaitSlot::Free)?;
    }
    Ok(waits)
}

/// Rounds of no job at any resource.
fn no_rounds(alloc: Global, jobs: usize, resources: usize) -> Result<Vec<Vec<u32>>, AllocError>
    ensures { IfOk result (λ rounds. map (λ own. own.items) rounds.items
        ≡ replicate jobs (replicate resources 0)) }
{
    let mut rounds = Vec::with_capacity(alloc, jobs)?;
    for _job in 0..jobs {
        rounds.push(vec![in alloc; 0u32; resources]?)?;
    }
    Ok(rounds)
}

/// What each resource is kept as.
fn open_soles<S: ForEachKind>(
    alloc: Global,
    resources: &[Resource],
    room: &[u32],
) -> Result<Vec<S>, Memory>
    requires sized { AreSized resources.now }
    requires same { length room.now ≡ length resources.now }
    requires few { (at : ℕ) → slice_index room.now at ≤ 524288 }
    ensures opened { IfOk result (λ soles. AreOpened S.store resources.now room.now soles.items) }
    ensures long { IfOk result (λ soles. length soles.items ≡ length resources.now) }
{
    let mut soles = Vec::with_capacity(alloc, resources.len())?;
    for (at, resource) in resources.iter().enumerate() {
        soles.push(S::open(alloc, resource.kind, room[at])?)?;
    }
    Ok(soles)
}
