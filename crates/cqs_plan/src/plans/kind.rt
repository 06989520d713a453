//! The kinds of resource.

/// What a resource is, with its numbers.
#[derive(Clone, Copy)]
pub enum Kind {
    /// A semaphore with this many permits.
    Semaphore(u32),
    Mutex,
    /// A pool with this many elements.
    Pool(u32),
    /// A latch that opens after this many `down` steps.
    Latch(u32),
    /// A barrier that `parties` jobs pass together, `rounds` times.
    Rounds { parties: u32, rounds: u32 },
}
