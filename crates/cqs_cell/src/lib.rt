//! The cells of the queue: each call tries one transition on the cell of a number.
//!
//! A call makes its transition, or answers the state that it found at a step of its own. A cell
//! changes at most four times:
//!
//! | from | to | by | entry |
//! |---|---|---|---|
//! | Empty | Waiter | `install`: the suspend of the number | |
//! | Empty | Value | `leave_value`, or `leave_watched`: its resume | |
//! | Value | Taken | `take_value`, or `take_watched`: its suspend | delivered |
//! | Value | Broken | `break_value`: its resume, in a synchronous queue | broken |
//! | Waiter | Resumed | `serve`: its resume | delivered |
//! | Waiter | Cancelling | `begin_cancel`, or `leave_line`: the owner of the wait | |
//! | Waiter | Cancelled | `leave_at_once`: the owner, where the resume is to end there | |
//! | Cancelling | Delegated | `delegate`: the resume | |
//! | Cancelling, Delegated | Cancelled | `settle`, or `settle_left`: the owner, who leaves | |
//! | Cancelling, Delegated | Refused | `settle`: the owner, where the resume is to end there | |
//!
//! The entries are those of a client whose object has one for a delivery; when a wait leaves is for
//! its client to say.
//!
//! Each call is compiled into its caller (`#[inline(always)]`). What is rare in it, the taking out
//! of a full segment, stands apart in `cqs_rule` and gets no address of the pass; so the pass needs
//! no memory in the caller.
#![tactic(auto)]

mod at_once;
mod cancelling;
mod cross;
mod found;
mod leaving;
mod looks;
mod settling;
mod transitions;
mod values;
mod watching;

pub use at_once::leave_at_once;
pub use cancelling::{begin_cancel, settle};
pub use leaving::{leave_line, settle_left};
pub use looks::{look, look_for_grant, watch};
pub use transitions::{delegate, install, leave_value, serve};
pub use values::take_value;
pub use watching::{break_value, leave_watched, take_watched};
