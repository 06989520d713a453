//! Rounds of a barrier: a stated number of barriers, which members go through one after the other.
//!
//! ```text
//!  member, at round r --- arrive ---> the barrier of round r:  Last, LastOwing: all have come
//!       ^                                                      Later: it waits
//!       |
//!       |-- goes through: now at round r + 1; behind the last round it is told Over
//!       '-- withdraws:    still at round r
//! ```
//!
//! A member is the number of the round that it comes to next. A pass of the rounds has a pass of
//! each round's barrier, so a call of a member is a call of the barrier and the pass of its round,
//! and takes no memory. Nothing of the barrier is said anew here: the contract of a call cites the
//! barrier's, and says that the passes of all other rounds are as they were.
//!
//! A pass is made in all rounds or in none. Where a round has no room for it, those that were made
//! in earlier rounds are taken in again.
#![tactic(auto)]

mod answers;
mod calling;
mod leaving;
mod members;
mod opening;
mod passes;
mod rounds;
mod seats;
mod sharing;
mod turns;

pub use answers::{RoundArrived, RoundError, RoundLeft, RoundPolled, SplitError};
pub use members::{Member, MemberLeaving, MemberOwing, MemberWait};
pub use rounds::{Rounds, RoundsPass};
pub use sharing::threads_may_share_them;
