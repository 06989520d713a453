//! Schedules in which a pass stalls: from each place of a schedule on, what one pass does comes
//! behind all that the others do, and what the table doesn't allow then is left out.
//!
//! However long a pass stands still, and wherever it does, the permits are all there at the end.

use crate::asking::{Question, event_of, question_of};
use cqs_core::{CoreCell, CoreError, CoreState, Doing, Event};
use cqs_core_run::{Core, Outcomes};
use std::alloc::{AllocError, Global};
use std::fmt;

/// The most events that a schedule has here.
const MOST_EVENTS: usize = 1_000_000;

/// The events of a schedule, and the numbers of the core on which they are made.
#[derive(Drop)]
struct Schedule {
    is_sync: bool,
    permits: u32,
    passes: u32,
    events: Vec<Event>,
}

/// How many schedules and cases there were, how many events were left out of the cases, and in how
/// many cases the permits weren't all there.
#[derive(Clone, Copy, Default)]
pub struct Stalls {
    schedules: u64,
    cases: u64,
    left_out: u64,
    failed: u64,
}

impl fmt::Display for Stalls {
    fn fmt<W: fmt::Write>(&self, f: &mut fmt::Formatter<W>) -> fmt::Result {
        write!(
            f,
            "stalls: {} schedules, {} cases, {} events left out, {} failed",
            self.schedules, self.cases, self.left_out, self.failed
        )
    }
}

/// Adds what a line of a text of schedules asks: a new schedule, or a further event of the last.
fn add(
    alloc: Global,
    schedules: &mut Vec<Schedule>,
    question: Question<'_>,
) -> Result<(), AllocError> {
    let Question {
        verb,
        first,
        second,
    } = question;
    if verb == "core" || verb == "sync" {
        schedules.push(Schedule {
            is_sync: verb == "sync",
            permits: first,
            passes: second,
            events: Vec::new(alloc),
        })?;
        return Ok(());
    }
    if let Some(event) = event_of(verb, first, u64::from(second)) {
        if let Some(schedule) = schedules.last_mut() {
            schedule.events.push(event)?;
        }
    }
    Ok(())
}

/// The schedules of a text.
fn schedules_of(alloc: Global, text: &str) -> anyhow::Result<Vec<Schedule>> {
    let mut schedules = Vec::new(alloc);
    for line in text.lines() {
        if line.starts_with("=== ") {
            continue;
        }
        if let Some((asked, _)) = line.split_once(": ") {
            add(alloc, &mut schedules, question_of(asked)?)?;
        }
    }
    Ok(schedules)
}

/// The pass of an event.
fn pass_of(event: Event) -> u32 {
    match event {
        Event::Take { pass }
        | Event::TryLoad { pass }
        | Event::TrySwap { pass }
        | Event::Draw { pass }
        | Event::Install { pass }
        | Event::Give { pass }
        | Event::Reach { pass }
        | Event::Meet { pass }
        | Event::See { pass }
        | Event::Break { pass }
        | Event::Leave { pass, .. }
        | Event::Decide { pass }
        | Event::Settle { pass }
        | Event::Look { pass, .. } => pass,
    }
}

/// The events in the order in which they come where the pass stalls at this place.
fn stalled(
    alloc: Global,
    events: &[Event],
    pass: u32,
    place: usize,
) -> Result<Vec<Event>, AllocError> {
    let mut order = Vec::new(alloc);
    let mut late = Vec::new(alloc);
    for (at, event) in events.iter().enumerate() {
        if at >= place && pass_of(*event) == pass {
            late.push(*event)?;
        } else {
            order.push(*event)?;
        }
    }
    for event in late.as_slice() {
        order.push(*event)?;
    }
    Ok(order)
}

/// A core for the events of a schedule.
fn open(alloc: Global, schedule: &Schedule) -> anyhow::Result<Core> {
    let made = if schedule.is_sync {
        Core::new_sync(alloc, schedule.permits, schedule.passes)
    } else {
        Core::new(alloc, schedule.permits, schedule.passes)
    };
    match made {
        Ok(core) => Ok(core),
        Err(_) => anyhow::bail!("no core for a schedule"),
    }
}

/// How many of these events are made by one call, up to the first that isn't allowed.
fn made_at_once(
    alloc: Global,
    schedule: &Schedule,
    events: &[Event],
) -> anyhow::Result<Option<usize>> {
    if events.len() > MOST_EVENTS {
        anyhow::bail!("too many events");
    }
    let mut core = open(alloc, schedule)?;
    let mut outcomes = Outcomes::new(alloc);
    let made = match core.run_events(events, &mut outcomes) {
        Ok(()) => events.len(),
        Err((place, CoreError::NotEnabled)) => place as usize,
        Err(_) => anyhow::bail!("no memory for the events"),
    };
    Ok((outcomes.as_slice().len() == made).then_some(made))
}

/// Whether the wait of a cell is in the line.
fn is_in_line(core: &Core, number: u64, cell: CoreCell) -> bool {
    let Some(owner) = cell.owner else {
        return false;
    };
    match cell.state {
        CoreState::Empty | CoreState::Waiter | CoreState::Value => true,
        CoreState::Cancelling | CoreState::Delegated => {
            matches!(core.doing(owner), Some(Doing::Leaving(wait)) if wait == number)
        }
        _ => false,
    }
}

/// The permits that are in cells: delivered and not yet collected, or wanted by a wait in the line.
fn permits_in_cells(core: &Core) -> i64 {
    let mut found = 0i64;
    for number in 0..core.suspends() {
        if let Some(cell) = core.cell(number) {
            let is_ready = matches!(cell.state, CoreState::Resumed) && !cell.collected;
            if is_ready || is_in_line(core, number, cell) {
                found = found.saturating_add(1);
            }
        }
    }
    found
}

/// How many numbers are broken that no suspend has drawn: as many at the door will find theirs so,
/// and want no permit.
fn broken_early(core: &Core) -> i64 {
    let mut found = 0i64;
    for number in core.suspends()..core.resumes() {
        if let Some(cell) = core.cell(number) {
            if matches!(cell.state, CoreState::Broken) {
                found = found.saturating_add(1);
            }
        }
    }
    found
}

/// All permits: those that passes hold, those that were delivered and not yet collected, and the
/// state, which is short of one for each wait at the door and in the line that has none on its way.
fn permits_found(core: &Core, passes: u32) -> i64 {
    let mut found = core.state().saturating_add(permits_in_cells(core));
    found = found.saturating_sub(broken_early(core));
    for pass in 0..passes {
        found = found.saturating_add(i64::from(core.held(pass).unwrap_or(0)));
        if matches!(core.doing(pass), Some(Doing::Door)) {
            found = found.saturating_add(1);
        }
    }
    found
}

/// Makes each event that is allowed where it stands, and tells which they are, and how many stand
/// before the first that isn't.
fn make_allowed(
    alloc: Global,
    core: &mut Core,
    events: &[Event],
) -> anyhow::Result<(Vec<Event>, usize)> {
    let mut made = Vec::new(alloc);
    let mut at_first = events.len();
    for event in events {
        match core.step(*event) {
            Ok(_) => made.push(*event)?,
            Err(CoreError::NotEnabled) => at_first = at_first.min(made.len()),
            Err(_) => anyhow::bail!("no memory for an event"),
        }
    }
    Ok((made, at_first))
}

/// Makes the events of a schedule where a pass stalls, and counts the case.
///
/// They are made by one call, too, which stops at the first that isn't allowed; and those that are
/// allowed by another, which makes them all.
fn try_stall(
    alloc: Global,
    schedule: &Schedule,
    pass: u32,
    place: usize,
    stalls: &mut Stalls,
) -> anyhow::Result<()> {
    let mut core = open(alloc, schedule)?;
    let order = stalled(alloc, schedule.events.as_slice(), pass, place)?;
    let (made, at_first) = make_allowed(alloc, &mut core, order.as_slice())?;
    let stops = made_at_once(alloc, schedule, order.as_slice())? == Some(at_first);
    let ends = made_at_once(alloc, schedule, made.as_slice())? == Some(made.len());
    let are_all_there = permits_found(&core, schedule.passes) == i64::from(schedule.permits);
    let left_out = order.len().saturating_sub(made.len());
    stalls.cases = stalls.cases.saturating_add(1);
    stalls.left_out = stalls.left_out.saturating_add(left_out as u64);
    if !(stops && ends && are_all_there) {
        stalls.failed = stalls.failed.saturating_add(1);
    }
    Ok(())
}

/// Each pass of each schedule of a text stalls at each place.
pub fn try_stalls(alloc: Global, text: &str) -> anyhow::Result<Stalls> {
    let mut stalls = Stalls::default();
    let schedules = schedules_of(alloc, text)?;
    for schedule in schedules.as_slice() {
        stalls.schedules = stalls.schedules.saturating_add(1);
        for pass in 0..schedule.passes {
            for place in 0..schedule.events.len() {
                try_stall(alloc, schedule, pass, place, &mut stalls)?;
            }
        }
    }
    Ok(stalls)
}
