//! Resuming: how what is given comes to who waits. A pass that owes a resumption draws a number,
//! and serves the waiter in its cell or leaves its value there.
//!
//! ```text
//!  owes a resumption --- draws k --> cell k:  Waiter     -> Resumed:   Served
//!       ^                                     Empty      -> Value:     Left, for who comes to wait
//!       |                                     Cancelling -> Delegated: Left, for who is leaving
//!       |                                     Refused:                 Refused, it ends there
//!       '------- passes over k <------------- Cancelled: its waiter has left
//! ```
//!
//! Where the segment of k was taken out, the resume counter jumps to the next one that stands: the
//! numbers between needn't be drawn.
//!
//! After 64 numbers that were passed over the call hands the resumption back, for `finish` to go on
//! with.
//!
//! In a synchronous queue (`resume_sync`, `finish_sync`) the value that a resume leaves is watched,
//! and nothing is left to a canceller:
//!
//! ```text
//!   Empty      -> Value -- found Taken: Served, its suspend took it
//!                       '- found there as often as the queue asks -> Broken: Broke, it has it back
//!   Cancelling: Handling, with the ticket, for `finish_sync` once the canceller has ended
//! ```
#![tactic(auto)]

mod at_once;
mod beginning;
mod further;
mod jumping;
mod meeting;
mod resumed;
mod resuming;
mod sync_meeting;
mod sync_resumed;
mod sync_resuming;
mod watching;

pub use at_once::{EndedAtOnce, begin_at_once, finish_at_once};
pub use beginning::resume_from;
pub use further::begin;
pub use jumping::jump;
pub use resumed::Resumed;
pub use resuming::{finish, resume};
pub use sync_resumed::SyncResumed;
pub use sync_resuming::{finish_sync, resume_sync};
