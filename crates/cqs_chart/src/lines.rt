//! The lines of a report.

use std::alloc::{AllocError, Global};

/// What happened to a job in a turn. The names are those of resources, that of a barrier with its
/// round, as in `gate.0`.
#[derive(Clone, Copy)]
pub enum Event<'a> {
    /// It took a permit, a mutex or an element at once.
    Takes(&'a str),
    /// It waits in line.
    Waits(&'a str),
    /// It found that its wait is over.
    Served(&'a str),
    /// It gave back what it held; whether that was sent to somebody who waits.
    Gives { resource: &'a str, sent: bool },
    /// It left the line, and makes the step again at which it waited.
    Retries(&'a str),
    /// It left the line, and ended.
    GaveUp(&'a str),
    /// It was about to leave the line, but had been served, and ended.
    Late(&'a str),
    /// It passed an open latch, or counted one down that was open before: nobody else moves.
    Passes,
    /// It counted a latch down, of which so much is left.
    Counts { latch: &'a str, left: u64 },
    /// It counted a latch down to its end: all who wait there may go.
    Opens(&'a str),
    /// It came to a barrier as the last party of this round: all who wait there may go.
    Completes { barrier: &'a str, round: u64 },
    /// It made all its steps.
    Done,
}

/// What a resource is, by its line at the end.
#[derive(Clone, Copy, PartialEq, Eq)]
pub enum Kind {
    /// A semaphore, a mutex or a pool.
    Held,
    /// A latch or a barrier: who has passed it holds nothing.
    Passed,
}

/// A line of a report.
#[derive(Clone, Copy)]
pub enum Line<'a> {
    /// What happened to a job.
    Event {
        turn: u64,
        job: &'a str,
        event: Event<'a>,
    },
    /// How a resource is at the end.
    End {
        resource: &'a str,
        kind: Kind,
    },
    /// How many jobs ended how.
    Total,
}

/// Whether each of these words is a number.
fn are_numbers(words: &[&str]) -> bool {
    words.iter().all(|word| word.parse::<u64>().is_ok())
}

/// The event of the last party of a round, which is told as in `gate.0`.
fn completion_of<'a>(name: &'a str) -> Option<Event<'a>> {
    let (barrier, round) = name.rsplit_once('.')?;
    match round.parse() {
        Ok(round) => Some(Event::Completes { barrier, round }),
        Err(_) => None,
    }
}

/// The event of a count down that leaves so much.
fn count_of<'a>(latch: &'a str, left: &str) -> Option<Event<'a>> {
    match left.parse() {
        Ok(left) => Some(Event::Counts { latch, left }),
        Err(_) => None,
    }
}

/// What was taken: a permit, a mutex or an element.
fn take_of<'a>(words: &[&'a str]) -> Option<Event<'a>> {
    match words {
        [resource] => Some(Event::Takes(resource)),
        [resource, "element", element] if are_numbers(&[element]) => Some(Event::Takes(resource)),
        _ => None,
    }
}

/// Which wait is over.
fn service_of<'a>(words: &[&'a str]) -> Option<Event<'a>> {
    match words {
        [resource, wait] if are_numbers(&[wait]) => Some(Event::Served(resource)),
        [resource, wait, "element", element] if are_numbers(&[wait, element]) => {
            Some(Event::Served(resource))
        }
        _ => None,
    }
}

/// Where what was given back has gone.
fn gift_of<'a>(resource: &'a str, words: &[&str]) -> Option<Event<'a>> {
    let sent = match words {
        ["free"] => false,
        ["sent", wait] if are_numbers(&[wait]) => true,
        _ => return None,
    };
    Some(Event::Gives { resource, sent })
}

/// What was given back: a permit, a mutex or an element.
fn give_of<'a>(words: &[&'a str]) -> Option<Event<'a>> {
    match words {
        [resource, "element", element, words @ ..] if are_numbers(&[element]) => {
            gift_of(resource, words)
        }
        [resource, words @ ..] => gift_of(resource, words),
        _ => None,
    }
}

/// What became of a latch that was counted down.
fn down_of<'a>(words: &[&'a str]) -> Option<Event<'a>> {
    match words {
        [latch, "left", count] => count_of(latch, count),
        [_, "already"] => Some(Event::Passes),
        [latch, "open"] => Some(Event::Opens(latch)),
        _ => None,
    }
}

/// The resource and the number of a wait.
fn waited_at<'a>(words: &[&'a str]) -> Option<&'a str> {
    match words {
        [resource, wait] if are_numbers(&[wait]) => Some(resource),
        _ => None,
    }
}

/// Who came as the last party of a round.
fn arrival_of<'a>(words: &[&'a str]) -> Option<Event<'a>> {
    match words {
        [round, "last"] => completion_of(round),
        _ => None,
    }
}

/// The event that the words after the job's name tell.
fn event_of<'a>(words: &[&'a str]) -> Option<Event<'a>> {
    let (verb, words) = words.split_first()?;
    match *verb {
        "done" if words.is_empty() => Some(Event::Done),
        "takes" => take_of(words),
        "waits" => waited_at(words).map(Event::Waits),
        "served" => service_of(words),
        "gives" => give_of(words),
        "retries" => waited_at(words).map(Event::Retries),
        "gaveup" => waited_at(words).map(Event::GaveUp),
        "late" => waited_at(words).map(Event::Late),
        "passes" if words.len() == 1 => Some(Event::Passes),
        "downs" => down_of(words),
        "arrives" => arrival_of(words),
        _ => None,
    }
}

/// What a resource is, by the words after its name at the end.
fn kind_of(words: &[&str]) -> Option<Kind> {
    match words {
        ["free", free, "held", held, "line", waiting] if are_numbers(&[free, held, waiting]) => {
            Some(Kind::Held)
        }
        ["count", count, "line", waiting] if are_numbers(&[count, waiting]) => Some(Kind::Passed),
        ["rounds", rounds] if are_numbers(&[rounds]) => Some(Kind::Passed),
        _ => None,
    }
}

/// Whether the words after `total` are so many numbers under their names.
fn are_totals(words: &[&str]) -> bool {
    match words {
        [
            "done",
            done,
            "gaveup",
            gave_up,
            "late",
            late,
            "unfinished",
            unfinished,
        ] => { are_numbers(&[done, gave_up, late, unfinished]) }
        _ => false,
    }
}

/// What a line of these words tells, or none where it is no line of a report.
fn line_of<'a>(words: &[&'a str]) -> Option<Line<'a>> {
    match words {
        ["end", resource, words @ ..] => {
            let kind = kind_of(words)?;
            Some(Line::End { resource, kind })
        }
        ["total", words @ ..] if are_totals(words) => Some(Line::Total),
        [turn, job, words @ ..] => {
            let event = event_of(words)?;
            match turn.parse() {
                Ok(turn) => Some(Line::Event { turn, job, event }),
                Err(_) => None,
            }
        }
        _ => None,
    }
}

/// What a line tells, or none where it is no line of a report.
pub fn read_line<'a>(alloc: Global, line: &'a str) -> Result<Option<Line<'a>>, AllocError> {
    let mut words = Vec::new(alloc);
    for word in line.split(' ') {
        words.push(word)?;
    }
    Ok(line_of(words.as_slice()))
}
