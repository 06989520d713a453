//! A history of a million entries.

use cqs_check::{Checked, check_history};
use cqs_core::{Entry, Memory};
use std::alloc::{AllocError, Global};

/// So many callers come into the line, one behind the other, and are then served in order.
fn long_history(alloc: Global, callers: u64) -> Result<Vec<Entry>, AllocError> {
    let mut entries = Vec::new(alloc);
    entries.push(Entry::TakeNow { pass: 0 })?;
    for wait in 0..callers {
        entries.push(Entry::TakeDoor { pass: 1 })?;
        entries.push(Entry::Enter { pass: 1, wait })?;
    }
    for wait in 0..callers {
        entries.push(Entry::GiveSent { pass: 0 })?;
        entries.push(Entry::Deliver { wait })?;
    }
    Ok(entries)
}

/// What is found of the history of so many callers, in words.
pub fn judge_long_history(alloc: Global, callers: u64) -> anyhow::Result<String> {
    let entries = long_history(alloc, callers)?;
    let count = entries.len();
    if count >= 4_294_967_296 {
        anyhow::bail!("too many entries");
    }
    let found = match check_history(alloc, 1, entries.as_slice()) {
        Ok(Checked::Legal { next, held, .. }) => {
            format!(in alloc; "{count} entries: legal, next {next} held {held}")?
        }
        Ok(Checked::Bad(place)) => format!(in alloc; "{count} entries: not legal at {place}")?,
        Err(Memory) => anyhow::bail!("no memory"),
    };
    Ok(found)
}
