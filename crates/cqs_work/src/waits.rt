//! The waits of a plan's jobs.

ghost use Rattle.std.specs.Prelude.{◌≡◌, ◌≤◌, [], ◌∷◌, ◌++◌, Some, IfOk, OnOk, length, flat_map};
ghost use Rattle.cqs_plan.specs.Runnable.{kinds_of};
ghost use Rattle.cqs_work.specs.Desk.{with_answer};
ghost use Rattle.cqs_work.specs.Rows.{IsLonger, IsNote, IsRow, IsRowAfter, AddsAt, AreLines, lines_from};

use cqs_core::Memory;
use cqs_plan::{FloorTake, Kind, Resource};
use std::alloc::Global;
use std::marker::Model;

/// A job was answered that it waits: at which place of the plan's resources, in which round where
/// that is a barrier, and under which number. What isn't a barrier has the round 0.
#[derive(Clone, Copy)]
pub struct Waited {
    pub at: u32,
    pub round: u32,
    pub number: u64,
    /// The place of the job.
    pub job: u32,
}

/// A wait at a semaphore: at which place of the plan's resources, under which number, and the place
/// of the job that waited.
#[derive(Clone, Copy)]
pub struct WaitLine {
    pub at: u32,
    pub number: u64,
    pub job: u32,
}

/// All waits at a plan's semaphores: those of each semaphore together, in the order of their
/// numbers.
#[derive(Drop)]
pub struct WaitLines {
    items: Vec<WaitLine>,
}

impl Model for WaitLines {
    ghost use Rattle.std.specs.Prelude.{List};
    ghost use Rattle.cqs_work.specs.declared.waits.WaitLine.{WaitLine};

    ghost Value = { List WaitLine };

    ghost view = { λ lines. lines.items.items };
}

impl From<Vec<WaitLine>> for WaitLines {
    ghost from_gives = { λ items lines. lines ≡ items.items };

    fn from(items: Vec<WaitLine>) -> Self {
        WaitLines { items }
    }
}

impl WaitLines {
    pub fn as_slice(&self) -> &[WaitLine]
        ensures { result.now ≡ self.now }
    {
        self.items.as_slice()
    }

    pub fn into_vec(self) -> Vec<WaitLine>
        ensures { result.items ≡ self }
    {
        self.items
    }
}

/// Notes that a job was told to wait.
pub fn note(
    waits: &mut Vec<Waited>,
    at: u32,
    round: u32,
    number: u64,
    job: u32,
) -> Result<(), Memory>
    ensures { OnOk result (waits.new.items
        ≡ with_answer waits.old.items at round job (Some (FloorTake.Waits number))) }
{
    waits.push(Waited {
        at,
        round,
        number,
        job,
    })?;
    Ok(())
}

/// Makes a row so long that it has this place.
fn lengthen(row: &mut Vec<u32>, place: usize, job: u32) -> Result<(), Memory>
    ensures { OnOk result (IsLonger row.old.items place row.new.items) }
{
    if place < row.len() {
        return Ok(());
    }
    let Some(long) = place.checked_add(1) else {
        return Err(Memory);
    };
    row.resize(long, job)?;
    Ok(())
}

/// The number has this job.
fn put(row: &mut Vec<u32>, number: u64, job: u32) -> Result<(), Memory>
    ensures { OnOk result (IsNote row.old.items number job row.new.items) }
{
    lengthen(row, number as usize, job)?;
    row[number as usize] = job;
    Ok(())
}

/// Adds a wait that was told at this place to its row.
fn add_wait(row: &mut Vec<u32>, at: u32, wait: &Waited) -> Result<(), Memory>
    ensures { OnOk result (IsRowAfter at (wait.now ∷ []) row.old.items row.new.items) }
{
    if wait.at != at {
        return Ok(());
    }
    put(row, wait.number, wait.job)
}

/// Adds those of a worker's waits that were told at this place to their row.
fn add_waits(row: &mut Vec<u32>, at: u32, waits: &[Waited]) -> Result<(), Memory>
    ensures { OnOk result (IsRowAfter at waits.now row.old.items row.new.items) }
{
    for wait in waits.iter() {
        add_wait(row, at, wait)?;
    }
    Ok(())
}

/// The job of each number at this place, of the waits that workers were told.
fn row_of(alloc: Global, at: u32, waits: &[Vec<Waited>]) -> Result<Vec<u32>, Memory>
    ensures { IfOk result (λ row. IsRow at (flat_map (λ own. own.items) waits.now) row.items) }
{
    let mut row = Vec::new(alloc);
    for own in waits.iter() {
        add_waits(&mut row, at, own.as_slice())?;
    }
    Ok(row)
}

/// Adds a line for each number of a row.
fn add_lines(lines: &mut Vec<WaitLine>, at: u32, row: &[u32]) -> Result<(), Memory>
    ensures { OnOk result (lines.new.items ≡ lines.old.items ++ lines_from at 0 row.now) }
{
    for number in 0..row.len() {
        lines.push(WaitLine {
            at,
            number: number as u64,
            job: row[number],
        })?;
    }
    Ok(())
}

/// Adds the lines of the resource at this place, where it is a semaphore.
fn add_at(
    alloc: Global,
    lines: &mut Vec<WaitLine>,
    at: u32,
    kind: Kind,
    waits: &[Vec<Waited>],
) -> Result<(), Memory>
    ensures { OnOk result (AddsAt kind (flat_map (λ own. own.items) waits.now) at
        lines.old.items lines.new.items) }
{
    let Kind::Semaphore(_) = kind else {
        return Ok(());
    };
    let row = row_of(alloc, at, waits)?;
    add_lines(lines, at, row.as_slice())
}

/// The lines of the waits that workers were told at a plan's semaphores.
pub fn lines_of(
    alloc: Global,
    resources: &[Resource],
    waits: &[Vec<Waited>],
) -> Result<Vec<WaitLine>, Memory>
    requires few { length resources.now ≤ 4096 }
    ensures { IfOk result (λ lines. AreLines (kinds_of resources.now)
        (flat_map (λ own. own.items) waits.now) (length resources.now) lines.items) }
{
    let mut lines = Vec::new(alloc);
    for at in 0..resources.len() {
        add_at(alloc, &mut lines, at as u32, resources[at].kind, waits)?;
    }
    Ok(lines)
}
