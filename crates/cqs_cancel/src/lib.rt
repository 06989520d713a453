//! Cancelling: the owner of a wait leaves the line, or learns that it was served before.
//!
//! ```text
//!  Waiter --> Cancelling -- its client is asked - yes -> Cancelled: resumes pass over the cell
//!    |             |                          \ no --> Refused: the resume that comes ends there
//!    |             v
//!    |         Delegated: a resume has left its value to the canceller, who settles the cell in
//!    |                    the same way, and where the waiter leaves, owes that resumption
//!    v
//!  Resumed: it is too late
//! ```
//!
//! Where resumes pass on in any case, the client isn't asked, and the waiter has left the line by
//! the first step (`cancel_unasked`). Where waits leave at once, the one step from Waiter leaves
//! Cancelled, and the resume that comes there ends (`cancel_at_once`).
#![tactic(auto)]

mod at_once;
mod cancelling;
mod unasked;

pub use at_once::{AtOnce, cancel_at_once};
pub use cancelling::{Left, cancel};
pub use unasked::cancel_unasked;
