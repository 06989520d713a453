//! Waiters that are polled, and waiters that block.
//!
//! A caller of a semaphore, a mutex or a pool who must wait has a token of its wait, and looks at
//! it when it likes. Here are the two ways in which most callers want to wait: a future, which an
//! executor polls, and a call that comes back with the permit, the guard or the item.
//!
//! ```text
//!  AcquireFuture, LockFuture,    acquire_wait, lock_wait,
//!  TakeFuture                    take_wait
//!     |  first poll                 |
//!     v                             v
//!  acquire, lock, take ----- it is free -------------> ready, or back with it
//!     |  a wait                     |  a wait
//!     v                             v
//!  look, pending: yields         look, pending: pauses; after some looks it parks
//!                                on the cell of the wait, until it is served
//! ```
//!
//! A caller at a latch and a party at a barrier wait in the second way: by `wait_open`, which comes
//! back when the latch was opened, and by `arrive_wait`, which comes back when all have arrived.
//! All these calls look by one rule, `Looks`.
#![tactic(auto)]

mod acquire_future;
mod barriers;
mod blocking;
mod latches;
mod lock_future;
mod locking;
mod looks;
mod take_future;
mod taking;

pub use acquire_future::{AcquireFuture, Acquisition};
pub use barriers::{Passage, arrive_wait};
pub use blocking::acquire_wait;
pub use latches::wait_open;
pub use lock_future::{LockFuture, LockOutcome};
pub use locking::lock_wait;
pub use looks::{LOOKS, Looks};
pub use take_future::{TakeFuture, TakeOutcome};
pub use taking::take_wait;
