//! The rule of the queue: what holds, between any two steps, of a table of atomic words and of
//! what each pass has seen. For each kind of step there is a lemma that it keeps the rule.
//!
//! ```text
//!  hidden state:  a queue with its cells and counters, and what each pass has
//!       ^     ^
//!       |     '--- the words of the table show it:  crew, two counters, the client's words, cells
//!       |
//!       '--------- each view stands in it:  what a pass has seen of the one history, and its facts
//! ```
//!
//! A primitive on the queue is called its client. It tells what it is by `ClientWords`; no client
//! is named here. A view is for contracts: the program makes no value of it. The steps of the queue
//! are types (`Kind`, `Load`, `Shown`), by which calls name what they do. The queue itself, in
//! `cqs_rule`, is proved by the lemmas that stand here.
#![tactic(auto)]

mod carries;
mod change;
mod client;
mod config;
mod kinds;
mod layout;
mod loads;
mod rule;
mod silent;
mod steps;
mod table;
mod told;
mod view;

pub use carries::{Carries, Kept, Unparked};
pub use change::{Change, Waits};
pub use client::{ClientWords, Shown};
pub use config::{AcquireError, CancelMode, Config, Crowd, Crowded, MakeError, MeetError, Place};
pub use kinds::{
    Begins, Breaks, Delegates, Draws, Enters, Installs, Kind, Leaves, LeavesAtOnce, LeavesLine,
    LeavesWatched, Reaches, Refuses, RefusesValue, Serves, Settles, SettlesOwing, StartsLeaving,
    Takes, TakesWatched,
};
pub use layout::{
    CELLS_WORD, CLIENT_WORD, CREW_WORD, RESUMES_WORD, SLOT_CELLS, SLOT_COUNT, SLOT_LINK,
    SLOT_STRIDE, SLOTS_WORD, SUSPENDS_WORD, TAIL_WORD,
};
pub use loads::{Cancels, Counts, Finds, Learned, Load, Meets, Misses, Polls, Sees, Watches};
pub use rule::{Key, Rule};
pub use silent::Silent;
pub use steps::{add_at, exchange_at, load_at, max_at, or_at, store_at};
pub use table::open_table;
pub use told::{Telling, Told};
pub use view::{Drawn, Facts, Glimpse, Has, Opening, Sighting, Spare, View};
