//! What a run of a schedule tells: the outcomes, and the history.

ghost use Rattle.std.specs.Prelude.{◌≡◌, ◌++◌, ◌<◌, ◌^◌, length, IfOk, OnOk, codes};
ghost use Rattle.std.specs.Fmt.{signed_decimal};
ghost use Rattle.cqs_core.specs.SemaphoreEntries.{IsLegal};
ghost use Rattle.cqs_replay.specs.Schedules.{IsSchedule};
ghost use Rattle.cqs_replay.specs.Runs.{after_events, after_run, history_written, replayed, state_line, stopped_line, told_line, told_lines};

use crate::entries::write_entries;
use crate::events::write_event;
use crate::outcomes::write_outcome;
use crate::running::{make, open, run_events};
use crate::schedules::Schedule;
use cqs_core::{Event, Memory, Outcome};
use cqs_core_run::Core;
use cqs_lines::{write_labelled, write_said};
use itoa::Buffer;
use std::alloc::{AllocError, Global};

/// Appends the line of an event with its outcome.
fn write_told(text: &mut Vec<u8>, event: Event, outcome: Outcome) -> Result<(), AllocError>
    ensures { OnOk result (text.new.items ≡ text.old.items ++ told_line event outcome) }
{
    write_event(text, event)?;
    text.extend_from_slice(b": ")?;
    write_outcome(text, outcome)?;
    text.extend_from_slice(b"\n")?;
    Ok(())
}

/// Appends that the run stopped at this line.
fn write_stopped(text: &mut Vec<u8>, line: u64) -> Result<(), AllocError>
    ensures { OnOk result (text.new.items ≡ text.old.items ++ stopped_line line) }
{
    write_labelled(text, b"stopped at line ", line)?;
    text.extend_from_slice(b"\n")?;
    Ok(())
}

/// Appends the state word.
fn write_state_word(text: &mut Vec<u8>, state: i64) -> Result<(), AllocError>
    ensures { OnOk result
        (text.new.items ≡ text.old.items ++ codes "state " ++ signed_decimal state) }
{
    let mut buffer = Buffer::new();
    text.extend_from_slice(b"state ")?;
    text.extend_from_slice(buffer.format(state).as_bytes())?;
    Ok(())
}

/// Appends how the core stands.
fn write_state(text: &mut Vec<u8>, core: &Core) -> Result<(), AllocError>
    ensures { OnOk result (text.new.items ≡ text.old.items ++ state_line core.now.shape) }
{
    write_state_word(text, core.state())?;
    write_labelled(text, b" suspends ", core.suspends())?;
    write_labelled(text, b" resumes ", core.resumes())?;
    text.extend_from_slice(b"\n")?;
    Ok(())
}

/// Makes the events, and appends the line of each, up to the first that isn't enabled.
fn tell_events(text: &mut Vec<u8>, core: &mut Core, events: &[Event]) -> Result<(), Memory>
    requires { length events.now < 2 ^ 32 }
    ensures told { OnOk result
        (text.new.items ≡ text.old.items ++ told_lines core.old.shape events.now 2) }
    ensures after { OnOk result (core.new.shape ≡ after_events core.old.shape events.now) }
{
    let mut line: u64 = 2;
    for event in events {
        match make(core, *event)? {
            Some(outcome) => write_told(text, *event, outcome)?,
            None => return Ok(write_stopped(text, line)?),
        }
        line += 1;
    }
    Ok(())
}

/// What the events of a schedule answer, a line for each up to the first that isn't enabled, and
/// how the core stands then.
pub fn replay_text(alloc: Global, schedule: &Schedule) -> Result<Vec<u8>, Memory>
    requires schedule { IsSchedule schedule.now }
    requires few { length schedule.now.events.items < 2 ^ 32 }
    ensures { IfOk result (λ text. text.items ≡ replayed schedule.now) }
{
    let mut core = open(alloc, schedule)?;
    let mut text = Vec::new(alloc);
    tell_events(&mut text, &mut core, schedule.events.as_slice())?;
    write_state(&mut text, &core)?;
    Ok(text)
}

/// The history of the run of a schedule, up to the first event that isn't enabled.
#[tactic(auto, using(crate::proofs::Permits::legal_history))]
pub fn history_text(alloc: Global, schedule: &Schedule) -> Result<Vec<u8>, Memory>
    requires { IsSchedule schedule.now }
    ensures text { IfOk result (λ text. text.items ≡ history_written schedule.now) }
    ensures legal { OnOk result (IsLegal schedule.now.permits (after_run schedule.now).history) }
{
    let mut core = open(alloc, schedule)?;
    run_events(&mut core, schedule.events.as_slice())?;
    let mut text = Vec::new(alloc);
    write_said(&mut text, b"semaphore", &[u64::from(schedule.permits)])?;
    text.extend_from_slice(b"\n")?;
    write_entries(&mut text, core.history())?;
    Ok(text)
}
