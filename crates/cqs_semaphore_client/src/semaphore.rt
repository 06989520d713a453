//! A semaphore by its one word, the state. Where it is above 0, so many permits are free; below 0
//! so many callers wait with no permit on its way.

ghost use Rattle.std.specs.Prelude.{◌≡◌, ◌+◌, ◌<◌, ◌≤◌, [], ◌∷◌, true, false};

mod callbacks;
mod calls;
mod client;
mod events;

pub use calls::{give_permit, load_state, next_wait, read_state, take_permit, try_take};
use cqs_rule::{Kept, Unparked};
pub use events::{Decide, Give, Take, TryLoad, TrySwap};
use std::marker::PhantomData;

/// A semaphore whose permits carry what `T` says: a value in a slot, or nothing. Where it is
/// synchronous, each of its resumes looks so often at the value that it left.
#[derive(Drop)]
pub struct SemClient<T = ()> {
    permits: u32,
    sync: bool,
    looks: u32,
    value: PhantomData<T>,
    ghost some: { 0 < permits },
    ghost few: { permits ≤ 1048576 },
    ghost few_looks: { looks ≤ 1024 },
}

impl<T> SemClient<T> {
    ghost use Rattle.cqs_semaphore_client.specs.SemaphoreMade.{looks_of, permits_of, sync_of};

    // One that isn't synchronous.
    fn plain(permits: u32) -> SemClient<T>
        requires some { 0 < permits }
        requires few { permits ≤ 1048576 }
        ensures permits { permits_of result ≡ permits }
        ensures plain { sync_of result ≡ false }
        ensures looks { looks_of result ≡ 0 }
    {
        SemClient {
            permits,
            sync: false,
            looks: 0,
            value: PhantomData,
        }
    }

    /// A synchronous semaphore that opens with this many permits. A resume that left a value looks
    /// so often whether it was taken, and then takes it back.
    pub fn new_sync(permits: u32, looks: u32) -> SemClient<T>
        requires some { 0 < permits }
        requires few { permits ≤ 1048576 }
        requires few_looks { looks ≤ 1024 }
        ensures permits { permits_of result ≡ permits }
        ensures sync { sync_of result ≡ true }
        ensures looks { looks_of result ≡ looks }
    {
        SemClient {
            permits,
            sync: true,
            looks,
            value: PhantomData,
        }
    }
}

impl SemClient {
    ghost use Rattle.cqs_semaphore_client.specs.SemaphoreMade.{looks_of, permits_of, sync_of};

    /// A semaphore that opens with this many permits.
    pub fn new(permits: u32) -> SemClient
        requires some { 0 < permits }
        requires few { permits ≤ 1048576 }
        ensures permits { permits_of result ≡ permits }
        ensures plain { sync_of result ≡ false }
        ensures looks { looks_of result ≡ 0 }
    {
        SemClient::plain(permits)
    }
}

impl SemClient<Unparked> {
    ghost use Rattle.cqs_semaphore_client.specs.SemaphoreMade.{looks_of, permits_of, sync_of};

    /// A semaphore that opens with this many permits, and whose callers never park.
    pub fn unparked(permits: u32) -> SemClient<Unparked>
        requires some { 0 < permits }
        requires few { permits ≤ 1048576 }
        ensures permits { permits_of result ≡ permits }
        ensures plain { sync_of result ≡ false }
        ensures looks { looks_of result ≡ 0 }
    {
        SemClient::plain(permits)
    }
}

impl<T> SemClient<Kept<T>> {
    ghost use Rattle.cqs_semaphore_client.specs.SemaphoreMade.{looks_of, permits_of, sync_of};

    /// A semaphore of one permit, which carries a value.
    pub fn guarded() -> SemClient<Kept<T>>
        ensures permits { permits_of result ≡ 1 }
        ensures plain { sync_of result ≡ false }
        ensures looks { looks_of result ≡ 0 }
    {
        SemClient::plain(1)
    }
}
