//! What a report says, as rows over the turns: one for each job and one for each resource.

use crate::lines::{Event, Kind, Line, read_line};
use indexmap::IndexMap;
use std::alloc::Global;

/// What a job is at. One that neither waits nor holds anything works by itself.
#[derive(Clone, Copy, PartialEq, Eq)]
pub enum State {
    Working,
    Waiting,
    Holding,
}

/// A stretch of turns in which a job was at one thing: from this turn on, and before that one.
#[derive(Clone, Copy)]
pub struct Span {
    pub state: State,
    pub from: u64,
    pub to: u64,
}

/// What a mark says.
#[derive(Clone, Copy)]
pub enum Told {
    /// The latch was counted down, and so much is left.
    Left(u64),
    /// The latch was opened.
    Open,
    /// The last party of this round has arrived.
    Over(u64),
    /// The job left the line, and came to it again.
    Again,
}

/// A mark in a row: in this turn, what happened. What happened at a latch or a barrier stands at
/// the job that did it, and at the resource; that a job came again, at the job alone.
#[derive(Clone, Copy)]
pub struct Mark {
    pub turn: u64,
    pub told: Told,
}

/// What an event marks at a resource.
fn mark_of(turn: u64, event: Event<'_>) -> Option<Mark> {
    let told = match event {
        Event::Counts { left, .. } => Told::Left(left),
        Event::Opens(_) => Told::Open,
        Event::Completes { round, .. } => Told::Over(round),
        _ => return None,
    };
    Some(Mark { turn, told })
}

/// What an event marks at the job.
fn job_mark_of(turn: u64, event: Event<'_>) -> Option<Mark> {
    match event {
        Event::Retries(_) => Some(Mark {
            turn,
            told: Told::Again,
        }),
        _ => mark_of(turn, event),
    }
}

/// How a job ended.
#[derive(Clone, Copy, PartialEq, Eq)]
pub enum End {
    Done,
    GaveUp,
    Late,
}

/// The row of a job.
#[derive(Drop)]
pub struct Job {
    /// What it was at, oldest first, without what it is at now.
    pub spans: Vec<Span>,
    /// What it did at latches and barriers, and where it came to a line again, oldest first.
    pub marks: Vec<Mark>,
    state: State,
    since: u64,
    held: u64,
    /// The turn in which it ended, and how. None where it hasn't ended.
    pub end: Option<(u64, End)>,
}

impl Job {
    fn new(alloc: Global) -> Job {
        Job {
            spans: Vec::new(alloc),
            marks: Vec::new(alloc),
            state: State::Working,
            since: 0,
            held: 0,
            end: None,
        }
    }

    /// From this turn on it is at that.
    fn turn_to(&mut self, turn: u64, state: State) -> anyhow::Result<()> {
        if state == self.state {
            return Ok(());
        }
        if self.since < turn {
            self.spans.push(Span {
                state: self.state,
                from: self.since,
                to: turn,
            })?;
        }
        self.since = turn;
        self.state = state;
        Ok(())
    }

    /// From this turn on it is at what its holdings say.
    fn go_on(&mut self, turn: u64) -> anyhow::Result<()> {
        let state = if self.held == 0 {
            State::Working
        } else {
            State::Holding
        };
        self.turn_to(turn, state)
    }

    /// It has ended so in this turn, or goes on after the last one.
    fn stop(&mut self, turn: u64) -> anyhow::Result<()> {
        if self.since < turn {
            self.spans.push(Span {
                state: self.state,
                from: self.since,
                to: turn,
            })?;
        }
        self.since = turn;
        Ok(())
    }
}

/// How many of a resource were held, and how many waited for it, from a turn on.
#[derive(Clone, Copy, PartialEq, Eq)]
pub struct Level {
    pub turn: u64,
    pub held: u64,
    pub waiting: u64,
}

/// The row of a resource.
#[derive(Drop)]
pub struct Resource {
    pub kind: Kind,
    /// Its levels, oldest first.
    pub levels: Vec<Level>,
    /// What was done at it, oldest first, where it is a latch or a barrier.
    pub marks: Vec<Mark>,
}

impl Resource {
    fn new(alloc: Global, kind: Kind) -> Resource {
        Resource {
            kind,
            levels: Vec::new(alloc),
            marks: Vec::new(alloc),
        }
    }

    /// Its level now.
    fn level(&self) -> Level {
        match self.levels.as_slice().last() {
            Some(level) => *level,
            None => Level {
                turn: 0,
                held: 0,
                waiting: 0,
            },
        }
    }

    /// From this turn on it has another level.
    fn go_to(&mut self, turn: u64, held: u64, waiting: u64) -> anyhow::Result<()> {
        let level = Level {
            turn,
            held,
            waiting,
        };
        if let Some(last) = self.levels.last_mut() {
            if last.turn == turn {
                *last = level;
                return Ok(());
            }
        }
        self.levels.push(level)?;
        Ok(())
    }

    /// What happened at it.
    fn note(&mut self, turn: u64, event: Event<'_>) -> anyhow::Result<()> {
        let Level { held, waiting, .. } = self.level();
        if let Some(mark) = mark_of(turn, event) {
            self.marks.push(mark)?;
        }
        match event {
            Event::Takes(_) => self.go_to(turn, held.saturating_add(1), waiting),
            Event::Waits(_) => self.go_to(turn, held, waiting.saturating_add(1)),
            Event::Gives { sent: false, .. } => self.go_to(turn, held.saturating_sub(1), waiting),
            // what was sent counts as held, before it is looked at
            Event::Gives { sent: true, .. } => self.go_to(turn, held, waiting.saturating_sub(1)),
            Event::Retries(_) | Event::GaveUp(_) => {
                self.go_to(turn, held, waiting.saturating_sub(1))
            }
            Event::Opens(_) | Event::Completes { .. } => self.go_to(turn, held, 0),
            Event::Served(_)
            | Event::Late(_)
            | Event::Passes
            | Event::Counts { .. }
            | Event::Done => Ok(()),
        }
    }
}

/// All rows of a report.
#[derive(Drop)]
pub struct Rows {
    pub jobs: IndexMap<String, Job>,
    pub resources: IndexMap<String, Resource>,
    /// The turn after the last one of which the report has a line.
    pub turns: u64,
}

/// The resource that an event speaks of.
fn resource_of<'a>(event: Event<'a>) -> Option<&'a str> {
    match event {
        Event::Takes(resource)
        | Event::Waits(resource)
        | Event::Served(resource)
        | Event::Gives { resource, .. }
        | Event::Retries(resource)
        | Event::GaveUp(resource)
        | Event::Late(resource)
        | Event::Counts {
            latch: resource,
            ..
        }
        | Event::Opens(resource)
        | Event::Completes {
            barrier: resource,
            ..
        } => Some(resource),
        Event::Passes | Event::Done => None,
    }
}

impl Rows {
    fn new(alloc: Global) -> Rows {
        Rows {
            jobs: IndexMap::new(alloc),
            resources: IndexMap::new(alloc),
            turns: 0,
        }
    }

    /// The name under which a resource has its row: a barrier has one for all its rounds.
    fn row_name<'a>(&self, name: &'a str) -> &'a str {
        if self.resources.contains_key(name) {
            return name;
        }
        match name.rsplit_once('.') {
            Some((barrier, _)) if self.resources.contains_key(barrier) => barrier,
            _ => name,
        }
    }

    /// Whether a job that was served there holds something.
    fn is_held(&self, name: &str) -> bool {
        match self.resources.get(self.row_name(name)) {
            Some(resource) => resource.kind == Kind::Held,
            None => true,
        }
    }

    fn note_at_resource(
        &mut self,
        alloc: Global,
        turn: u64,
        event: Event<'_>,
    ) -> anyhow::Result<()> {
        let Some(name) = resource_of(event) else {
            return Ok(());
        };
        let name = self.row_name(name);
        if !self.resources.contains_key(name) {
            let key = String::from_str(alloc, name)?;
            self.resources
                .insert(key, Resource::new(alloc, Kind::Held))?;
        }
        match self.resources.get_mut(name) {
            Some(resource) => resource.note(turn, event),
            None => Ok(()),
        }
    }

    fn note_at_job(
        &mut self,
        alloc: Global,
        turn: u64,
        name: &str,
        event: Event<'_>,
    ) -> anyhow::Result<()> {
        let held = match event {
            Event::Served(resource) | Event::Late(resource) => self.is_held(resource),
            _ => false,
        };
        if !self.jobs.contains_key(name) {
            let key = String::from_str(alloc, name)?;
            self.jobs.insert(key, Job::new(alloc))?;
        }
        let Some(job) = self.jobs.get_mut(name) else {
            return Ok(());
        };
        if let Some(mark) = job_mark_of(turn, event) {
            job.marks.push(mark)?;
        }
        match event {
            Event::Takes(_) => {
                job.held = job.held.saturating_add(1);
                job.go_on(turn)
            }
            Event::Waits(_) => job.turn_to(turn, State::Waiting),
            Event::Served(_) => {
                if held {
                    job.held = job.held.saturating_add(1);
                }
                job.go_on(turn)
            }
            Event::Gives { .. } => {
                job.held = job.held.saturating_sub(1);
                job.go_on(turn)
            }
            Event::GaveUp(_) => {
                job.end = Some((turn, End::GaveUp));
                job.stop(turn)
            }
            Event::Late(_) => {
                job.end = Some((turn, End::Late));
                if held {
                    job.held = job.held.saturating_add(1);
                }
                job.stop(turn)
            }
            Event::Retries(_)
            | Event::Passes
            | Event::Counts { .. }
            | Event::Opens(_)
            | Event::Completes { .. } => job.go_on(turn),
            Event::Done => {
                job.end = Some((turn, End::Done));
                job.stop(turn)
            }
        }
    }

    /// What a line says that is to be known before any event: what a resource is, and how long the
    /// report goes on.
    fn announce(&mut self, alloc: Global, place: usize, text: &str) -> anyhow::Result<()> {
        match read_line(alloc, text)? {
            Some(Line::End { resource, kind }) => {
                let key = String::from_str(alloc, resource)?;
                self.resources.insert(key, Resource::new(alloc, kind))?;
                Ok(())
            }
            Some(Line::Event { turn, .. }) => {
                self.turns = self.turns.max(turn.saturating_add(1));
                Ok(())
            }
            Some(Line::Total) => Ok(()),
            None => {
                let number = place.saturating_add(1);
                anyhow::bail!("line {number} is none of a report: {text}")
            }
        }
    }

    /// What a line's event changes.
    fn note(&mut self, alloc: Global, text: &str) -> anyhow::Result<()> {
        let Some(Line::Event { turn, job, event }) = read_line(alloc, text)? else {
            return Ok(());
        };
        self.note_at_resource(alloc, turn, event)?;
        self.note_at_job(alloc, turn, job, event)
    }

    /// Who hasn't ended is at the same thing up to the last turn.
    fn close(&mut self) -> anyhow::Result<()> {
        let turns = self.turns;
        for job in self.jobs.values_mut() {
            if job.end.is_none() {
                job.stop(turns)?;
            }
        }
        Ok(())
    }

    /// The rows of a report. The number of a line that is none of a report is told.
    pub fn read(alloc: Global, lines: &[String]) -> anyhow::Result<Rows> {
        let mut rows = Rows::new(alloc);
        for (place, text) in lines.iter().enumerate() {
            rows.announce(alloc, place, text.as_str())?;
        }
        for text in lines {
            rows.note(alloc, text.as_str())?;
        }
        rows.close()?;
        Ok(rows)
    }
}
