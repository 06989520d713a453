//! What the lines of the report tell.

/// What a job did: at the place of a resource, with the number of a wait or an element of a pool.
/// What isn't of a pool has the element 0, and tells none; what isn't of a barrier has the round 0,
/// and tells none.
#[derive(Clone, Copy)]
pub enum Told {
    Takes {
        at: u32,
        element: u32,
    },
    Waits {
        at: u32,
        round: u32,
        number: u64,
    },
    Served {
        at: u32,
        round: u32,
        number: u64,
        element: u32,
    },
    /// It gave back what nobody waits for.
    GivesFree {
        at: u32,
        element: u32,
    },
    /// It gave back, and this wait was served.
    GivesSent {
        at: u32,
        element: u32,
        number: u64,
    },
    GaveUp {
        at: u32,
        round: u32,
        number: u64,
    },
    /// It gave this wait up, and makes the step again at which it waited.
    Retries {
        at: u32,
        round: u32,
        number: u64,
    },
    Late {
        at: u32,
        round: u32,
        number: u64,
    },
    /// It passed a latch that was open.
    Passes {
        at: u32,
    },
    /// It counted a latch down, and so many are left.
    DownsLeft {
        at: u32,
        left: u32,
    },
    /// It counted a latch down for the last time: the latch is open.
    DownsOpen {
        at: u32,
    },
    /// It counted a latch down that was open.
    DownsAlready {
        at: u32,
    },
    /// It was the last to arrive in a round of a barrier.
    ArrivesLast {
        at: u32,
        round: u32,
    },
    Done,
}
