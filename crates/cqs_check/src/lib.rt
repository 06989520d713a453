//! Histories of a fair semaphore: read from texts, and judged.
#![tactic(auto)]

mod broken;
mod counts;
mod door;
mod histories;
mod judge;
mod texts;
mod waits;

pub use histories::{Checked, check_history};
pub use texts::{History, HistoryError, read_history};
