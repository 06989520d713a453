//! The places of a document, by which a fault is named.

ghost use Rattle.std.specs.Prelude.{codes, ◌++◌, Some};
ghost use Rattle.cqs_plan_reader.specs.FaultRules.{fault_at};
ghost use Rattle.cqs_plan_reader.specs.Places.{place_text};
ghost use Rattle.cqs_plan_reader.specs.Reading.{StopsAt};

use cqs_plan::{FaultKind, Name, PlanError};
use std::alloc::Global;
use std::fmt;

/// A place in a document, which its fault line names.
#[derive(Clone, Copy)]
pub enum Place<'a> {
    /// A word of its own, as `turns`.
    Word(&'a str),
    /// A resource, as `semaphore.db`.
    Resource {
        kind: &'a str,
        name: &'a str,
    },
    /// A number of a resource, as `semaphore.db.size`.
    Number {
        kind: &'a str,
        name: &'a str,
        key: &'a str,
    },
    /// A job, as `job[3]`.
    Job(usize),
    /// A part of a job, as `job[3].name`.
    Part {
        job: usize,
        key: &'a str,
    },
    /// A step of a job, as `job[3].steps[0]`.
    Step {
        job: usize,
        step: usize,
    },
}

impl fmt::Display for Place<'_> {
    ghost output = { λ place. Some (place_text place) };

    fn fmt<W: fmt::Write>(&self, f: &mut fmt::Formatter<W>) -> fmt::Result {
        match self {
            Place::Word(word) => write!(f, "{word}"),
            Place::Resource { kind, name } => write!(f, "{kind}.{name}"),
            Place::Number { kind, name, key } => write!(f, "{kind}.{name}.{key}"),
            Place::Job(job) => write!(f, "job[{job}]"),
            Place::Part { job, key } => write!(f, "job[{job}].{key}"),
            Place::Step { job, step } => write!(f, "job[{job}].steps[{step}]"),
        }
    }
}

impl Place<'_> {
    /// The error that names this place, or `Memory` where its text can't be made.
    pub fn fault(self, alloc: Global, kind: FaultKind) -> PlanError
        ensures { StopsAt (fault_at (place_text self.entry) kind) result }
    {
        match self.to_string(alloc) {
            Ok(text) => PlanError::Fault {
                place: Name::from(text.into_bytes()),
                kind,
            },
            Err(_) => PlanError::Memory,
        }
    }
}
