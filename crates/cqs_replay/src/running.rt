//! Runs of a schedule's events.

ghost use Rattle.std.specs.Prelude.{◌≡◌, IfOk, OnOk};
ghost use Rattle.cqs_core.specs.SemaphoreTable.{step};
ghost use Rattle.cqs_replay.specs.Runs.{IsMade, after_events, opened};

use crate::schedules::Schedule;
use cqs_core::{CoreError, Event, Memory, Outcome};
use cqs_core_run::Core;
use std::alloc::Global;

/// The core that a schedule begins with.
pub fn open(alloc: Global, schedule: &Schedule) -> Result<Core, Memory>
    ensures { IfOk result (λ core. core.shape ≡ opened schedule.now) }
{
    let made = if schedule.sync {
        Core::new_sync(alloc, schedule.permits, schedule.passes)
    } else {
        Core::new(alloc, schedule.permits, schedule.passes)
    };
    match made {
        Ok(core) => Ok(core),
        Err(_) => Err(Memory),
    }
}

/// Makes an event; none where it isn't enabled.
pub fn make(core: &mut Core, event: Event) -> Result<Option<Outcome>, Memory>
    ensures { IfOk result
        (λ told. IsMade (step core.old.shape event) core.old.shape told core.new.shape) }
{
    match core.step(event) {
        Ok(outcome) => Ok(Some(outcome)),
        Err(CoreError::NotEnabled) => Ok(None),
        Err(_) => Err(Memory),
    }
}

/// Makes the events, up to the first that isn't enabled.
pub fn run_events(core: &mut Core, events: &[Event]) -> Result<(), Memory>
    ensures { OnOk result (core.new.shape ≡ after_events core.old.shape events.now) }
{
    for event in events {
        match make(core, *event)? {
            Some(_) => {}
            None => return Ok(()),
        }
    }
    Ok(())
}
