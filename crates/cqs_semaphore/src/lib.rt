//! A fair semaphore on the running queue: permits that callers take, wait for in line, give back,
//! and stop waiting for.
//!
//! ```text
//!  acquire --- a permit is free --------------------------------> Now
//!     |
//!     '------- none is: a number is drawn, and its cell is found
//!                |-- empty: the caller waits ------------------> Later, then poll or cancel
//!                '-- with the value of the resume that was first -> Now
//!
//!  release --- nobody waits for want of a permit ----------------> Freed
//!     |
//!     '------- somebody does: the next number is resumed -------> Sent, Left, Void,
//!                                                                 or Under, then finish
//! ```
//!
//! Each caller makes its calls with a pass of its own. Contracts see what the pass has seen of the
//! one history of all callers: the calls of the plain semaphore of `cqs_core`, with a plain line of
//! waiters.
//!
//! The calls that are made often are compiled into their callers: a call that got the pass by its
//! address would have it lie in memory also where that call isn't made. What was handed back is
//! finished apart, with the pass by value. `split`, `meet`, `sole` and `state` are calls like any
//! others.
//!
//! What a synchronous semaphore does just so is a function over the queue of either kind, for the
//! crate of that semaphore: `try_permit`, `poll_wait`, `state_now`.
#![tactic(auto)]

mod acquiring;
mod answers;
mod cancelling;
mod guarded;
mod histories;
mod polling;
mod releasing;
mod seats;
mod semaphore;
mod state;
mod threads;
mod trying;

pub use answers::{Acquired, CancelAnswer, Permit, Polled, Released, Tried};
pub use histories::{calls_stand_in_one_history, no_number_is_broken};
pub use polling::poll_wait;
pub use releasing::permit_by;
pub use semaphore::{SemPass, Semaphore};
pub use state::state_now;
pub use trying::try_permit;
