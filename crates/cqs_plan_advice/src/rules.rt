//! What may stand at each place of a plan.

use crate::places::Place;

/// The keys of a plan.
const PLAN_KEYS: [&str; 8] = [
    "version",
    "turns",
    "semaphore",
    "mutex",
    "pool",
    "latch",
    "barrier",
    "job",
];

/// The keys of a job of version 1, and of version 2.
const FIRST_JOB_KEYS: [&str; 3] = ["name", "steps", "deadline"];

const JOB_KEYS: [&str; 5] = ["name", "steps", "deadline", "within", "retry"];

/// The kinds of resources.
pub const KINDS: [&str; 5] = ["semaphore", "mutex", "pool", "latch", "barrier"];

/// What a name is.
pub const NAME: &str = "1 to 32 ASCII letters, digits, _ and -";

/// The keys of the table at a place, in a plan of this version.
pub fn keys_at(place: Place<'_>, version: i64) -> &'static [&'static str] {
    match place {
        Place::Root => &PLAN_KEYS,
        Place::Job(_) if version == 2 => &JOB_KEYS,
        Place::Job(_) => &FIRST_JOB_KEYS,
        Place::Resource { kind, .. } => match kind {
            "semaphore" | "pool" => &["size"],
            "latch" => &["count"],
            "barrier" => &["parties", "rounds"],
            _ => &[],
        },
        Place::Word(_) | Place::Number { .. } | Place::Part { .. } | Place::Step { .. } => &[],
    }
}

/// Whether a key that isn't known at a place would be in version 2.
pub fn is_later(place: Place<'_>, key: &str) -> bool {
    keys_at(place, 2).iter().any(|known| key == *known)
}

/// What a place is called.
pub fn label(place: Place<'_>) -> &str {
    match place {
        Place::Root => "the plan",
        Place::Word(word) => word,
        Place::Resource { name, .. } => name,
        Place::Number { key, .. } => key,
        Place::Job(_) => "a job",
        Place::Part { key, .. } => key,
        Place::Step { .. } => "a step",
    }
}

/// What has to stand at a place.
pub fn right_at(place: Place<'_>) -> &'static str {
    match place {
        Place::Word(word) => match word {
            "version" => "1 or 2",
            "turns" => "an integer from 1 to 40000",
            "job" => "an array of tables, as by [[job]]",
            _ => "a table of tables, one for each name",
        },
        Place::Number { kind, key, .. } => match kind {
            "pool" => "an integer from 1 to 4096",
            "barrier" if key == "parties" => "an integer from 1 to 32",
            "barrier" => "an integer from 1 to 64",
            _ => "an integer from 1 to 1048576",
        },
        Place::Part { key, .. } => match key {
            "name" => "a string of 1 to 32 ASCII letters, digits, _ and -",
            "deadline" => "an integer from 0 to 40000",
            "within" => "an integer from 1 to 40000",
            "retry" => "an integer from 1 to 64",
            _ => "an array of at most 64 strings",
        },
        Place::Step { .. } => "a string, as \"work 2\"",
        Place::Root | Place::Resource { .. } | Place::Job(_) => "a table",
    }
}

/// The resources with which the verb of a step works.
pub fn resources_for(step: &str) -> &'static str {
    match step.split_once(' ') {
        Some(("down" | "wait", _)) => "latch",
        Some(("arrive", _)) => "barrier",
        _ => "semaphore, mutex or pool",
    }
}
