//! Schedules of the core as texts: read, written, run and told.
#![tactic(auto)]

mod entries;
mod events;
mod heads;
mod outcomes;
mod running;
mod schedules;
mod telling;
mod words;

pub use entries::{EntryForm, entry_of, write_entries};
pub use events::{EventForm, event_of};
pub use heads::Head;
pub use schedules::{Schedule, ScheduleError, read_schedule, write_schedule};
pub use telling::{history_text, replay_text};
