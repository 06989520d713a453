//! Suspending: how a caller comes to wait. A pass draws a number, and waits in its cell or takes
//! the value that stands there.
//!
//! ```text
//!  at the door, or idle --- draws k --> cell k:  Empty -> Waiter: Waits, with the wait's token
//!                                                Value -> Taken:  Took, since its resume was first
//! ```
//!
//! A pass comes from the door (`suspend`), or it is idle where its client has no door (`enter`). In
//! a synchronous queue (`suspend_sync`) it may also find the cell broken: Broke, since its resume
//! has taken the value back.
#![tactic(auto)]

mod entering;
mod placing;
mod suspending;
mod sync_suspending;

pub use entering::enter;
pub use suspending::{Suspended, suspend};
pub use sync_suspending::{SyncSuspended, suspend_sync};
