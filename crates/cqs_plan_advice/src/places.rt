//! The places that fault lines name.

use crate::finder::Segment;
use std::alloc::{AllocError, Global};

/// A place of a document, as a fault line names it.
#[derive(Clone, Copy)]
pub enum Place<'a> {
    /// The root: `plan`.
    Root,
    /// A key of the root: `turns`, `semaphore` or `job`.
    Word(&'a str),
    /// A resource, as `semaphore.db`.
    Resource {
        kind: &'a str,
        name: &'a str,
    },
    /// A number of a resource, as `semaphore.db.size`.
    Number {
        kind: &'a str,
        name: &'a str,
        key: &'a str,
    },
    /// A job, as `job[3]`.
    Job(usize),
    /// A part of a job, as `job[3].name`.
    Part {
        job: usize,
        key: &'a str,
    },
    /// A step of a job, as `job[3].steps[0]`.
    Step {
        job: usize,
        step: usize,
    },
}

impl<'a> Place<'a> {
    /// The place that a text names.
    pub fn of(text: &'a str) -> Place<'a> {
        match text.split_once('.') {
            None => match indexed(text) {
                Some((_, job)) => Place::Job(job),
                None if text == "plan" => Place::Root,
                None => Place::Word(text),
            },
            Some((head, rest)) => match indexed(head) {
                Some((_, job)) => match indexed(rest) {
                    Some((_, step)) => Place::Step { job, step },
                    None => Place::Part { job, key: rest },
                },
                None => match rest.split_once('.') {
                    Some((name, key)) => Place::Number {
                        kind: head,
                        name,
                        key,
                    },
                    None => Place::Resource {
                        kind: head,
                        name: rest,
                    },
                },
            },
        }
    }

    /// The job at or in which it is.
    pub fn job(self) -> Option<usize> {
        match self {
            Place::Job(job) | Place::Part { job, .. } | Place::Step { job, .. } => Some(job),
            Place::Root | Place::Word(_) | Place::Resource { .. } | Place::Number { .. } => None,
        }
    }

    /// The way to it from the root.
    pub fn way(self, alloc: Global) -> Result<Vec<Segment<'a>>, AllocError> {
        let mut way = Vec::new(alloc);
        match self {
            Place::Root => {}
            Place::Word(word) => way.push(Segment::Key(word))?,
            Place::Resource { kind, name } => {
                way.push(Segment::Key(kind))?;
                way.push(Segment::Key(name))?;
            }
            Place::Number { kind, name, key } => {
                way.push(Segment::Key(kind))?;
                way.push(Segment::Key(name))?;
                way.push(Segment::Key(key))?;
            }
            Place::Job(job) => {
                way.push(Segment::Key("job"))?;
                way.push(Segment::Item(job))?;
            }
            Place::Part { job, key } => {
                way.push(Segment::Key("job"))?;
                way.push(Segment::Item(job))?;
                way.push(Segment::Key(key))?;
            }
            Place::Step { job, step } => {
                way.push(Segment::Key("job"))?;
                way.push(Segment::Item(job))?;
                way.push(Segment::Key("steps"))?;
                way.push(Segment::Item(step))?;
            }
        }
        Ok(way)
    }
}

/// The word and the number of a text such as `job[3]`.
fn indexed(text: &str) -> Option<(&str, usize)> {
    let (word, rest) = text.split_once('[')?;
    let digits = rest.strip_suffix(']')?;
    match digits.parse::<usize>() {
        Ok(number) => Some((word, number)),
        Err(_) => None,
    }
}
