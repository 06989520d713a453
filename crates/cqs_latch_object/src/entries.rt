//! The entries of a history of a count-down latch.

/// One entry of a history: what a call did to the plain latch with its line of waiters.
#[derive(Clone, Copy)]
pub enum LatchEntry {
    /// The caller counted down, and so many are left.
    DownLeft { pass: u32, left: u32 },
    /// The caller counted down the last one: it is to open the latch.
    DownLast { pass: u32 },
    /// The caller came to count down, and the count was used up before.
    DownAlready { pass: u32 },
    /// The caller opened the latch: a resumption is on its way for each who waits.
    Open { pass: u32 },
    /// The caller came to wait, and the count was used up before.
    Passed { pass: u32 },
    /// The latch isn't open: the caller joined the door.
    AwaitDoor { pass: u32 },
    /// The caller went from the door to the end of the line, under this number.
    Enter { pass: u32, wait: u64 },
    /// A resumption on its way reached this wait.
    Deliver { wait: u64 },
    /// The caller left the line.
    Leave { pass: u32, wait: u64 },
    /// A resumption came to this wait, which had left, and ended there.
    Miss { wait: u64 },
    /// The caller wanted to leave, but this wait was served before.
    Late { pass: u32, wait: u64 },
    /// The caller looked, and this wait was served.
    LookGranted { pass: u32, wait: u64 },
    /// The caller looked, and this wait is still in the line.
    LookPending { pass: u32, wait: u64 },
}
