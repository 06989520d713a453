//! A fair semaphore that gives no permit away unseen: a release that finds its caller not yet there
//! leaves the permit in the cell, looks a stated number of times, and takes it back where nobody
//! came for it.
//!
//! ```text
//!  acquire --- a permit is free --------------------------------> Now
//!     |
//!     '------- none is: a number is drawn, and its cell is found
//!                |-- empty: the caller waits ------------------> Later, then poll or cancel
//!                |-- with a permit that its release still holds out -> Now
//!                '-- broken: that release took the permit back -> Broke, and the caller is out
//!
//!  release --- nobody waits for want of a permit ----------------> Freed
//!     |
//!     '------- somebody does: the next number is resumed
//!                |-- the caller waits there ------------------> Sent
//!                |-- nobody is there yet: the permit is held out, and looked at
//!                |      taken ---------------------------------> Sent
//!                |      still there after the last look -------> Broke, with the permit
//!                |-- the caller is about to leave -------------> Handling, then finish
//!                '-- it left, and freed a permit --------------> Void
//!                    or too many had left ---------------------> Under, then finish
//! ```
//!
//! It stands beside `cqs_semaphore`, on the same client, with the same passes and permits. A
//! release by which a permit goes to a caller tells that the caller has it; by one of a
//! `Semaphore` the permit may still lie in a cell.
#![tactic(auto)]

mod acquiring;
mod answers;
mod cancelling;
mod histories;
mod looking;
mod releasing;
mod seats;
mod sync_semaphore;
mod threads;

pub use answers::{SyncAcquired, SyncLeft, SyncReleased, Under};
pub use sync_semaphore::SyncSemaphore;
