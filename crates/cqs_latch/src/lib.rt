//! A count-down latch on the running queue: callers count it down, and callers wait until it is
//! open.
//!
//! ```text
//!  wait --------- the count is used up ------------------------> Passed
//!     |
//!     '---------- it isn't: one is added to the waiters
//!                   |-- the done bit is set --------------------> Passed
//!                   '-- it isn't: a number is drawn, and its cell is found
//!                         |-- empty: the caller waits ----------> Later, then poll or cancel
//!                         '-- its resume was first -------------> Passed
//!
//!  count_down --- the count is used up ------------------------> Already
//!     |
//!     '---------- one is taken from it
//!                   |-- so many are left -----------------------> Left
//!                   '-- it was the last: the done bit is set, and as many resumptions
//!                       are made as waiters were counted -------> Last, or LastOwing, then finish
//! ```
//!
//! There are two words. One has the count, which may fall below 0. The other has the number of
//! waiters, and above it the done bit, which says that the latch is open.
//!
//! How a wait leaves is up to the mode. In smart mode who cancels is counted out of the waiters; if
//! the done bit is set by then, it is refused, and the resumption that is on its way to it ends at
//! its cell. In simple mode its number stays behind as a hole, and the resumption that comes for it
//! ends there.
//!
//! Each caller makes its calls with a pass of its own. Contracts see what the pass has seen of the
//! one history of all callers: the calls of the plain latch of `cqs_latch_object`.
#![tactic(auto)]

mod answers;
mod callbacks;
mod cancelling;
mod client;
mod counting;
mod events;
mod histories;
mod latch;
mod parking;
mod polling;
mod seats;
mod steps;
mod threads;
mod waiting;
mod waking;

pub use answers::{Down, LatchLeft, LatchPolled, LatchWait, Owed};
pub use client::LatchClient;
pub use events::{Come, CountDown, Decide, LoadToCount, LoadToWait, Open, TurnBack};
pub use latch::{Latch, LatchPass};
