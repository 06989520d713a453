//! What the workers hand back is put together.

ghost use Rattle.std.specs.Prelude.{◌≡◌, ◌<◌, ◌%◌, Ok, Some, IfOk, length, map, slice_get};
ghost use Rattle.cqs_limiter_workers.specs.declared.works.Told.{Told};
ghost use Rattle.cqs_limiter_workers.specs.Gathering.{AreAllThere, AreGathered, IsTakenFrom, IsWith};

use crate::works::Told;
use std::alloc::{AllocError, Global};

/// What the workers have, where none was without memory.
pub fn part<T: Drop>(
    alloc: Global,
    workers: Vec<Result<Told<T>, AllocError>>,
) -> Result<Vec<Told<T>>, AllocError>
    ensures { IfOk result (λ hands. workers.items ≡ map (λ told. Ok told) hands.items) }
{
    let mut hands = Vec::with_capacity(alloc, workers.len())?;
    for one in workers {
        let told = one?;
        hands.push(told)?;
    }
    Ok(hands)
}

/// Takes a tenant from its place at the worker.
fn take<T: Drop>(hands: &mut Vec<Told<T>>, worker: usize, place: usize) -> T
    requires worker { worker < length hands.old.items }
    requires there { (told : Told T) → slice_get hands.old.items worker ≡ Some told
        → (x : T) × (slice_get told.desks.items place ≡ Some (Some x)) }
    ensures { IsTakenFrom hands.old.items worker place result hands.new.items }
{
    match hands[worker].desks[place].take() {
        Some(tenant) => tenant,
        None => unreachable!(),
    }
}

/// The tenants in order of place: each stands with its worker.
pub fn gather<T: Drop>(
    alloc: Global,
    mut hands: Vec<Told<T>>,
    tenants: usize,
) -> Result<Vec<T>, AllocError>
    requires some { 0 < length hands.items }
    requires there { AreAllThere hands.items 0 tenants }
    ensures { IfOk result (λ all. AreGathered hands.items tenants all.items) }
{
    let workers = hands.len();
    let mut all = Vec::with_capacity(alloc, tenants)?;
    for place in 0..tenants {
        all.push(take(&mut hands, place % workers, place))?;
    }
    Ok(all)
}
