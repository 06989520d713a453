//! Schedules, read and written.

ghost use Rattle.std.specs.Prelude.{◌≡◌, ℕ, ◌<◌, ◌≤◌, ◌^◌, length, IfOk, Err};
ghost use Rattle.cqs_replay.specs.Schedules.{IsSchedule, IsFirstBadLine, IsRead, schedule_text};
ghost use Rattle.cqs_replay.specs.declared.schedules.Schedule.{Schedule};
ghost use Rattle.cqs_replay.specs.declared.schedules.ScheduleError.TheVariants.{BadLine};

use crate::events::{EventForm, write_events};
use crate::heads::{next_head, write_kind};
use cqs_core::{Event, Memory};
use cqs_lines::{LineError, read_items, write_said};
use std::alloc::Global;

/// A core, and the events that are to be made on it.
#[derive(Drop)]
pub struct Schedule {
    pub permits: u32,
    pub passes: u32,
    pub sync: bool,
    pub events: Vec<Event>,
}

/// Why a text isn't read as a schedule.
#[derive(Clone, Copy)]
pub enum ScheduleError {
    Memory,
    /// This line, counted from 1, is the first that breaks the form.
    BadLine(u32),
}

/// The schedule that a text is.
pub fn read_schedule(alloc: Global, bytes: &[u8]) -> Result<Schedule, ScheduleError>
    requires { length bytes.now < 2 ^ 32 }
    ensures ok { IfOk result (λ s. IsSchedule s × (bytes.now ≡ schedule_text s)) }
    ensures few { IfOk result (λ s. length s.events.items ≤ length bytes.now) }
    ensures bad { (n : ℕ) → result ≡ Err (BadLine n) → IsFirstBadLine bytes.now n }

    // What was written is read again.
    ensures again { (s : Schedule) → IsSchedule s → bytes.now ≡ schedule_text s → IsRead result s }
{
    let (head, rest) = match next_head(alloc, bytes) {
        Ok(Some(next)) => next,
        Ok(None) => return Err(ScheduleError::BadLine(1)),
        Err(_) => return Err(ScheduleError::Memory),
    };
    match read_items(alloc, &EventForm, rest, 2) {
        Ok(events) => Ok(Schedule {
            permits: head.permits,
            passes: head.passes,
            sync: head.sync,
            events,
        }),
        Err(LineError::Memory) => Err(ScheduleError::Memory),
        Err(LineError::Bad(line)) => Err(ScheduleError::BadLine(line)),
    }
}

/// The text of a schedule.
pub fn write_schedule(alloc: Global, schedule: &Schedule) -> Result<Vec<u8>, Memory>
    ensures { IfOk result (λ text. text.items ≡ schedule_text schedule.now) }
{
    let mut text = Vec::new(alloc);
    let numbers = [u64::from(schedule.permits), u64::from(schedule.passes)];
    write_said(&mut text, b"core", &numbers)?;
    write_kind(&mut text, schedule.sync)?;
    text.extend_from_slice(b"\n")?;
    write_events(&mut text, schedule.events.as_slice())?;
    Ok(text)
}
