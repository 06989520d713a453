//! The events of the core: one atomic step of one pass each.

/// One atomic step of a pass. `Core::step` makes it where the table of events allows it.
#[derive(Clone, Copy)]
pub enum Event {
    /// Acquire: one is taken from the state.
    Take { pass: u32 },
    /// Try to acquire: the state is loaded.
    TryLoad { pass: u32 },
    /// Try to acquire: the state is exchanged, if it is still the one that was loaded.
    TrySwap { pass: u32 },
    /// Suspend: the next number is drawn.
    Draw { pass: u32 },
    /// Suspend: the drawn cell gets a waiter, or gives its value.
    Install { pass: u32 },
    /// Release: one is added to the state.
    Give { pass: u32 },
    /// Resume: the next number is drawn.
    Reach { pass: u32 },
    /// Resume: the drawn cell is served, gets the value, is passed over, or ends the resumption.
    Meet { pass: u32 },
    /// Resume, synchronous: the cell in which the value was left is loaded.
    See { pass: u32 },
    /// Resume, synchronous: the value is taken back, and its cell is broken; or it was taken.
    Break { pass: u32 },
    /// Cancel: the waiter begins to leave, or finds itself served.
    Leave { pass: u32, wait: u64 },
    /// Cancel: one is added to the state, which answers whether resumes pass over the cell.
    Decide { pass: u32 },
    /// Cancel: the cell gets its last state.
    Settle { pass: u32 },
    /// Poll: the waiter looks whether it was served.
    Look { pass: u32, wait: u64 },
}
