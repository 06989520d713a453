//! A blocking pool on the running queue: elements that callers take, wait for in line, put back,
//! and stop waiting for.
//!
//! ```text
//!  take --- a number is drawn, and its cell is found
//!              |-- with an element, a free one or one just put ---> Took
//!              '-- empty: the caller waits -----------------------> Later, then poll or cancel
//!
//!  put ---- the next number is resumed with the element ----------> Sent to a waiter, Left in a
//!                                                                   cell, or Under, then finish
//! ```
//!
//! There is no counter of the free elements: they stand in the cells that the next takers will
//! draw. Each caller makes its calls with a pass of its own. Contracts see what the pass has seen
//! of the one history of all callers: the calls of the plain pool of `cqs_pool_object`.
#![tactic(auto)]

mod answers;
mod cancelling;
mod client;
mod element;
mod histories;
mod parking;
mod polling;
mod pool;
mod putting;
mod seats;
mod taking;
mod threads;

pub use answers::{Placed, PoolLeft, PoolPolled, Taking};
pub use client::PoolClient;
pub use element::Element;
pub use pool::{Pool, PoolPass};
