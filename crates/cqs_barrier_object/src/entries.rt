//! The entries of a history of the barrier.

/// One entry of a history: what a call did to the plain barrier with its line of waiting parties.
#[derive(Clone, Copy)]
pub enum BarrierEntry {
    /// The caller's party arrived, and was the last.
    ArriveLast { pass: u32 },
    /// The caller's party arrived, and others are still to come: it joined the door.
    ArriveDoor { pass: u32 },
    /// The caller went from the door to the end of the line, under this number.
    Enter { pass: u32, wait: u64 },
    /// A resumption on its way reached this wait: its party may go through.
    Deliver { wait: u64 },
    /// The caller withdrew its party before the last had come: it is to arrive again.
    Withdraw { pass: u32, wait: u64 },
    /// The caller wanted to withdraw when all had arrived: its party counts as through.
    Stay { pass: u32, wait: u64 },
    /// The caller wanted to withdraw, but this wait was served before.
    Late { pass: u32, wait: u64 },
    /// The caller looked, and this wait was served.
    LookGranted { pass: u32, wait: u64 },
    /// The caller looked, and this wait is still in the line.
    LookPending { pass: u32, wait: u64 },
}
