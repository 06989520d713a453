//! The queue on one table of atomic words: its passes, and their single steps, of which each keeps
//! the rule of `cqs_rule_laws`.
//!
//! ```text
//!  a caller, with its pass --- one step --> Queue: one instruction on one word of the table
//!
//!    word 0         crew: how many passes were made, and how many are live
//!    word 16        suspend counter: the next number to wait at
//!    word 32        resume counter: the next number to resume at
//!    words 48 .. 96 up to four words of the client, such as the state of a semaphore
//!    word 112       the tail: which segment is the last
//!    from 128 on    the slots of the segments, each with 32 cells
//!
//!    and beside the table: how many callers sleep
//! ```
//!
//! A pass carries what its caller has seen; contracts alone know it. A step answers the word that
//! it found, and tells what the pass has seen since: first what others did, and then its own
//! entries.
//!
//! `split` makes a pass and `meet` takes one in, by steps on word 0. `park_wait` lets the owner of
//! a wait sleep until its cell changes, and `wake_cell` wakes it: neither is a step.
#![tactic(auto)]

mod callbacks;
mod plays;
mod queue;
mod threads;

pub use callbacks::Client;
pub use cqs_rule_laws::{
    AcquireError, Begins, Breaks, CELLS_WORD, CLIENT_WORD, CREW_WORD, CancelMode, Cancels, Carries,
    Change, ClientWords, Config, Counts, Crowd, Crowded, Delegates, Drawn, Draws, Enters, Facts,
    Finds, Glimpse, Has, Installs, Kept, Key, Kind, Learned, Leaves, LeavesAtOnce, LeavesLine,
    LeavesWatched, Load, MakeError, MeetError, Meets, Misses, Opening, Place, Polls, RESUMES_WORD,
    Reaches, Refuses, RefusesValue, Rule, SLOT_STRIDE, SUSPENDS_WORD, Sees, Serves, Settles,
    SettlesOwing, Shown, Sighting, Silent, Spare, StartsLeaving, Takes, TakesWatched, Unparked,
    View, Waits, Watches,
};
pub use cqs_segment::{CELLS, Found as FoundSegment};
pub use queue::{Pass, Queue, Under, Wait};
