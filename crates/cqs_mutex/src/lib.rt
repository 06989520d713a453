//! A fair mutex: one permit of a semaphore, and a value that moves with it.
//!
//! ```text
//!  lock --- it is free ----------------------> Now, with the guard
//!     '---- it is held: the caller waits ----> Later, then poll or cancel
//!
//!  unlock, with the guard --- nobody waits --> Freed
//!     '---------------------- somebody does -> Sent, Left, Void, or Under, then finish
//! ```
//!
//! The value lies in a slot of the table, or in one guard. A new guard has the value that the last
//! unlock handed in, or else the opening value. A guard that is dropped keeps its value and the
//! permit: the mutex stays locked for good.
#![tactic(auto)]

mod answers;
mod guard;
mod laws;
mod locking;
mod mutex;
mod seats;
mod standing;
mod threads;
mod unlocking;
mod waiting;

pub use answers::{LockLeft, Locked, PolledLock, TriedLock};
pub use guard::{Guard, LockWait};
pub use laws::guards_get_the_last_unlocked;
pub use mutex::{Mutex, MutexPass};
