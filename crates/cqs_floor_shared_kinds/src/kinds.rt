//! The kinds of resource that hand something out, on the floor of a worker.

mod permits;
mod pool;

pub use permits::SharedPermits;
pub use pool::SharedPool;
