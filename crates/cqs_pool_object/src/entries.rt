//! The entries of a history of the pool.

/// One entry of a history: what a call did to the plain pool with its line of waiters.
#[derive(Clone, Copy)]
pub enum PoolEntry {
    /// The caller gave this element back, and it is on its way.
    Put { pass: u32, element: u32 },
    /// The caller came to the end of the line, under this number.
    Enter { pass: u32, wait: u64 },
    /// This element, which was on its way, reached this wait.
    Deliver { wait: u64, element: u32 },
    /// The caller left the line.
    Leave { pass: u32, wait: u64 },
    /// The caller wanted to leave, but this wait was served before; the element is the caller's.
    Late { pass: u32, wait: u64, element: u32 },
    /// The caller looked, and this wait was served with this element.
    LookGranted { pass: u32, wait: u64, element: u32 },
    /// The caller looked, and this wait is still in the line.
    LookPending { pass: u32, wait: u64 },
}
