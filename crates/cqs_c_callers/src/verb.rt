//! What a caller may do with its pass.

/// A call with one pass. Each primitive has some of them, under names of its own.
#[derive(Clone, Copy, Drop)]
pub enum Verb {
    /// `acquire` of a semaphore, `take` of a pool, `wait` of a latch, `arrive` of a barrier.
    Enter,
    /// The same, without waiting: of a semaphore.
    Try,
    /// Looks at a wait.
    Poll,
    /// Gives a wait up.
    Cancel,
    /// `release` of a semaphore, `put` of a pool, `count_down` of a latch.
    Leave,
    /// Goes on with what is owed.
    Finish,
    /// The state of a semaphore.
    State,
    /// Whether no other pass is there.
    Sole,
}
