//! The line that a person is told.

use crate::finder::{Segment, find};
use crate::places::Place;
use crate::position::Position;
use crate::quoted::Quoted;
use crate::rules::{KINDS, NAME, is_later, keys_at, label, resources_for, right_at};
use cqs_plan::{FaultKind, PlanError};
use cqs_plan_reader::read_plan;
use std::alloc::{AllocError, Global};
use std::str;
use toml::{Table, Value};

/// Where the first fault of an input stands, what stands there, and what would be right: one line,
/// with its line feed. Of a plan it is empty.
pub fn advise(alloc: Global, input: &[u8]) -> Result<String, AllocError> {
    match toml::table_from_slice(alloc, input) {
        Ok(root) => advise_on(alloc, input, &root),
        Err(error) if error.is_memory() => Err(AllocError),
        Err(error) => no_document(alloc, input, &error),
    }
}

/// The line on what is no TOML document, in the words of the parser.
fn no_document(alloc: Global, input: &[u8], error: &toml::de::Error) -> Result<String, AllocError> {
    let why = error.message();
    match error.span() {
        Some(span) => {
            let position = Position::of(input, span.start);
            format!(in alloc; "cqs: {position}: no TOML: {why}\n")
        }
        None => format!(in alloc; "cqs: no TOML: {why}\n"),
    }
}

/// The line on a document.
fn advise_on(alloc: Global, input: &[u8], root: &Table) -> Result<String, AllocError> {
    match read_plan(alloc, input) {
        Ok(_) => Ok(String::new(alloc)),
        Err(PlanError::Fault { place, kind }) => match str::from_utf8(place.as_slice()) {
            Ok(place) => fault(alloc, input, root, Place::of(place), kind),
            Err(_) => Ok(String::new(alloc)),
        },
        Err(PlanError::NotToml) => Ok(String::new(alloc)),
        Err(PlanError::Memory) => Err(AllocError),
    }
}

/// The line on a fault at a place.
fn fault(
    alloc: Global,
    input: &[u8],
    root: &Table,
    place: Place<'_>,
    kind: FaultKind,
) -> Result<String, AllocError> {
    let amiss = amiss_at(root, place, kind);
    let mut text = String::from_str(alloc, "cqs: ")?;
    if let Some(at) = place_in(alloc, input, place, kind, amiss)? {
        let position = Position::of(input, at);
        write!(text, "{position}: ")?;
    }
    if let Some(name) = place.job().and_then(|job| job_name(root, job)) {
        let name = Quoted { text: name };
        write!(text, "job {name}: ")?;
    }
    say(&mut text, root, place, kind, amiss.unwrap_or(label(place)))?;
    text.push_str("\n")?;
    Ok(text)
}

/// Where it stands in the text.
fn place_in(
    alloc: Global,
    input: &[u8],
    place: Place<'_>,
    kind: FaultKind,
    amiss: Option<&str>,
) -> Result<Option<usize>, AllocError> {
    let mut way = place.way(alloc)?;
    match (place, kind, amiss) {
        (_, FaultKind::Key, Some(key)) | (Place::Word(_), FaultKind::Name, Some(key)) => {
            way.push(Segment::Key(key))?;
        }
        (Place::Word("job"), FaultKind::Many, _) => way.push(Segment::Item(4096))?,
        _ => {}
    }
    find(alloc, input, way.as_slice())
}

/// The key, the name or the step that is amiss at a place.
fn amiss_at<'a>(root: &'a Table, place: Place<'a>, kind: FaultKind) -> Option<&'a str> {
    match (kind, place) {
        (FaultKind::Key, _) => unknown_key(table_at(root, place)?, keys_at(place, version(root))),
        (FaultKind::Name, Place::Word(word)) => wrong_name(root.get(word)?.as_table()?),
        (FaultKind::Name, Place::Part { job, .. }) => job_name(root, job),
        (_, Place::Step { job, step }) => {
            let steps = job_table(root, job)?.get("steps")?.as_array()?;
            steps.get(step)?.as_str()
        }
        _ => None,
    }
}

/// The version that a document says, if any.
fn version(root: &Table) -> i64 {
    root.get("version").and_then(Value::as_integer).unwrap_or(0)
}

/// The table at a place, if there is one.
fn table_at<'a>(root: &'a Table, place: Place<'_>) -> Option<&'a Table> {
    match place {
        Place::Root => Some(root),
        Place::Resource { kind, name } => root.get(kind)?.as_table()?.get(name)?.as_table(),
        Place::Job(job) => job_table(root, job),
        Place::Word(_) | Place::Number { .. } | Place::Part { .. } | Place::Step { .. } => None,
    }
}

fn job_table(root: &Table, job: usize) -> Option<&Table> {
    let jobs = root.get("job")?.as_array()?;
    jobs.get(job)?.as_table()
}

fn job_name(root: &Table, job: usize) -> Option<&str> {
    job_table(root, job)?.get("name")?.as_str()
}

/// The first key that isn't among these.
fn unknown_key<'a>(table: &'a Table, known: &[&str]) -> Option<&'a str> {
    for key in table.keys() {
        if !known.iter().any(|word| key.as_str() == *word) {
            return Some(key.as_str());
        }
    }
    None
}

/// The first key that is no name.
fn wrong_name(table: &Table) -> Option<&str> {
    for key in table.keys() {
        if !is_name(key.as_str()) {
            return Some(key.as_str());
        }
    }
    None
}

fn is_name(text: &str) -> bool {
    1 <= text.len() && text.len() <= 32 && text.as_bytes().iter().all(|byte| is_in_name(*byte))
}

fn is_in_name(byte: u8) -> bool {
    byte.is_ascii_alphanumeric() || byte == b'_' || byte == b'-'
}

/// How many resources a document has.
fn resources(root: &Table) -> usize {
    let mut count = 0usize;
    for kind in KINDS {
        if let Some(table) = root.get(kind).and_then(Value::as_table) {
            count = count.saturating_add(table.len());
        }
    }
    count
}

/// Says what is wrong and what would be right.
fn say(
    text: &mut String,
    root: &Table,
    place: Place<'_>,
    kind: FaultKind,
    amiss: &str,
) -> Result<(), AllocError> {
    let shown = Quoted { text: amiss };
    let right = right_at(place);
    match kind {
        FaultKind::Key if is_later(place, amiss) => {
            write!(
                text,
                "{shown} is a key of version 2, and this plan is of version 1"
            )
        }
        FaultKind::Key => {
            write!(text, "{shown} is no key here, where there may be")?;
            say_keys(text, keys_at(place, version(root)))
        }
        FaultKind::Missing => write!(text, "{amiss} is missing, which has to be {right}"),
        FaultKind::Shape => {
            let what = label(place);
            write!(text, "{what} has to be {right}")
        }
        FaultKind::Range => write!(text, "{amiss} has to be {right}"),
        FaultKind::Name if is_name(amiss) => write!(text, "the name {shown} stands already"),
        FaultKind::Name => write!(text, "{shown} is no name: a name is {NAME}"),
        FaultKind::Step => write!(
            text,
            "{shown} is no step: take X, give X, down X, wait X, arrive X, or work N with N from 1 \
             to 1000"
        ),
        FaultKind::Target => {
            let resources = resources_for(amiss);
            write!(text, "{shown} names no {resources} of this plan")
        }
        FaultKind::Unheld => write!(text, "at {shown} the job has nothing of it to give"),
        FaultKind::Many => text.push_str(too_many(root, place)),
    }
}

/// Which bound is passed at a place.
fn too_many(root: &Table, place: Place<'_>) -> &'static str {
    match place {
        Place::Word(_) => "there may be 4096 jobs, and this is one more",
        Place::Part { .. } => "a job may have 64 steps",
        Place::Step { .. } => "the job arrives there more often than the barrier has rounds",
        Place::Resource { .. } if resources(root) > 64 => {
            "there may be 64 resources, and this is one more"
        }
        Place::Resource { .. } => "more jobs arrive there than the barrier has parties",
        Place::Root | Place::Number { .. } | Place::Job(_) => "there are too many",
    }
}

fn say_keys(text: &mut String, keys: &[&str]) -> Result<(), AllocError> {
    if keys.is_empty() {
        return text.push_str(" none");
    }
    for (at, key) in keys.iter().enumerate() {
        text.push_str(if at == 0 { " " } else { ", " })?;
        text.push_str(key)?;
    }
    Ok(())
}
