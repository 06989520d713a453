//! What the calls of a floor answer. An element's number is that of a pool's element, and 0 for
//! every other kind of resource.

/// What a job's take, its wait at a latch or its arrival at a barrier came to.
#[derive(Clone, Copy)]
pub enum FloorTake {
    /// The job holds this element; or it goes on, and the element is 0.
    Now(u32),
    /// The job waits under this number.
    Waits(u64),
}

/// Where what a job gave back went.
#[derive(Clone, Copy)]
pub enum FloorGive {
    /// Nobody waits: this element is free.
    Free(u32),
    /// This element was sent to the wait of this number.
    Sent(u32, u64),
}

/// What a job found that looked at its wait.
#[derive(Clone, Copy)]
pub enum FloorLook {
    /// It isn't served yet.
    Pending,
    /// It was served: the job holds this element, if it waited for one.
    Granted(u32),
}

/// What a job found that wanted to leave the line.
#[derive(Clone, Copy)]
pub enum FloorLeave {
    /// Its wait is gone.
    Gone,
    /// Its wait was served before: the job holds this element, if it waited for one.
    Late(u32),
}

/// What a count down of a latch came to.
#[derive(Clone, Copy)]
pub enum FloorDown {
    /// The latch is still to be counted down so often.
    Left(u32),
    /// It was the last, and the latch is open.
    Last,
    /// The latch was open before.
    Already,
}

/// How a resource stands.
#[derive(Clone, Copy)]
pub enum FloorEnd {
    /// What can be taken and given: how many are free, how many jobs hold or were sent and not yet
    /// looked at, and how many waits stand in the line.
    Permits { free: u32, held: u32, line: u32 },
    /// What a latch still counts, and how many waits stand in its line.
    Latch { count: u32, line: u32 },
    /// How many rounds of a barrier are over.
    Rounds { over: u32 },
}
