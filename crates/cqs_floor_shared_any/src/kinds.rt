//! The kinds of resource that let callers through, on the floor of a worker, and all kinds as one.

mod any;
mod latch;
mod round;
mod rounds;

pub use any::AnyShared;
pub use latch::SharedLatch;
pub use round::SharedRound;
pub use rounds::SharedRounds;
