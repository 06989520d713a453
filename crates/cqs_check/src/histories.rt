//! Judging a whole history.

ghost use Rattle.std.specs.Prelude.{◌≡◌, ◌≤◌, ◌<◌, ◌^◌, IfOk, length};
ghost use Rattle.cqs_check.specs.Verdicts.{Checks};

use crate::judge::Judge;
use cqs_core::{Entry, Memory};
use std::alloc::Global;

/// What was found of a history.
#[derive(Clone, Copy)]
pub enum Checked {
    /// It is legal, and the semaphore after it stands so.
    Legal {
        free: u64,
        way: u64,
        door: u64,
        line: u64,
        next: u64,
        held: u64,
    },
    /// The entry at this place is the first that may not come after those before it.
    Bad(u32),
}

/// Judges a history of a semaphore with so many permits.
pub fn check_history(alloc: Global, permits: u32, entries: &[Entry]) -> Result<Checked, Memory>
    requires permits { permits ≤ 1048576 }
    requires few { length entries.now < 2 ^ 32 }
    ensures { IfOk result (λ checked. Checks permits entries.now checked) }
{
    let mut judge = Judge::new(alloc, permits, entries.len() as u32)?;
    let mut place: u32 = 0;
    for entry in entries {
        if !judge.admits(*entry)? {
            return Ok(Checked::Bad(place));
        }
        place += 1;
    }
    Ok(Checked::Legal {
        free: u64::from(judge.free),
        way: u64::from(judge.way),
        door: u64::from(judge.door.total()),
        line: u64::from(judge.in_line),
        next: judge.table.waits.len() as u64,
        held: u64::from(judge.held),
    })
}
