//! A barrier on the running queue: parties that arrive, wait for the last, and may withdraw until
//! it has come.
//!
//! ```text
//!  arrive --- one is taken from the remaining number
//!               |-- it was the last: it resumes all others ----> Last, or LastOwing, then finish
//!               '-- others are to come: a number is drawn, and its cell is found
//!                     |-- empty: the party waits --------------> Later, then poll or cancel
//!                     '-- its resume was first ----------------> Last
//!
//!  cancel --- the cell is closed to the line, and the remaining number loaded
//!               |-- others are to come: one is added ----------> Withdrawn: it arrives again
//!               |-- another party was first -------------------> Contended, then leave_again
//!               '-- all have come, or its cell was served -----> TooLate
//! ```
//!
//! There is one word, with two numbers: the parties that are still to arrive, and all parties. So
//! the step of the last arrival tells how many others there are. The last party owes a resumption
//! for each of them, and makes them one after the other.
//!
//! A pass holds parties, like permits: the first pass holds all, and `split` gives some to another.
//! A barrier is for one time; `cqs_barrier_rounds` has several rounds.
//!
//! Contracts see what a pass has seen of the one history of all callers: the calls of the plain
//! barrier of `cqs_barrier_object`.
#![tactic(auto)]

mod answers;
mod arriving;
mod barrier;
mod client;
mod events;
mod histories;
mod leaving;
mod parking;
mod polling;
mod resuming;
mod seats;
mod sharing;
mod steps;
mod word;

pub use answers::{Arrived, Leaving, Owing, PartyLeft, PartyPolled, PartyWait};
pub use barrier::{Barrier, BarrierPass};
pub use client::BarrierClient;
pub use events::{Arrive, LookToLeave, Withdraw};
pub use sharing::threads_may_share_it;
pub use steps::{arrive_once, look_to_leave, withdraw_once};
