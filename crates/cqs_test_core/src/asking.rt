//! What a line of a schedule asks of a core.

use crate::texts::{doing_text, entry_text, outcome_text, state_text};
use cqs_core::{Call, Event};
use cqs_core_run::Core;
use std::alloc::{AllocError, Global};
use std::fmt::Debug;

/// An event of a pass, by its name.
pub fn event_of(verb: &str, pass: u32, wait: u64) -> Option<Event> {
    Some(match verb {
        "take" => Event::Take { pass },
        "try_load" => Event::TryLoad { pass },
        "try_swap" => Event::TrySwap { pass },
        "draw" => Event::Draw { pass },
        "install" => Event::Install { pass },
        "give" => Event::Give { pass },
        "reach" => Event::Reach { pass },
        "meet" => Event::Meet { pass },
        "see" => Event::See { pass },
        "break" => Event::Break { pass },
        "leave" => Event::Leave { pass, wait },
        "decide" => Event::Decide { pass },
        "settle" => Event::Settle { pass },
        "look" => Event::Look { pass, wait },
        _ => return None,
    })
}

/// A whole call of a pass, by its name.
fn call_of(verb: &str, pass: u32, wait: u64) -> Option<Call> {
    Some(match verb {
        "acquire" => Call::Acquire { pass },
        "try" => Call::Try { pass },
        "release" => Call::Release { pass },
        "poll" => Call::Poll { pass, wait },
        "cancel" => Call::Cancel { pass, wait },
        _ => return None,
    })
}

/// A value as `{:?}` writes it.
fn text_of<T: Debug>(alloc: Global, value: &T) -> Result<String, AllocError> {
    format!(in alloc; "{value:?}")
}

/// Makes an event, and tells its outcome.
fn make(alloc: Global, core: &mut Core, event: Event) -> Result<String, AllocError> {
    match core.step(event) {
        Ok(outcome) => outcome_text(alloc, outcome),
        Err(error) => text_of(alloc, &error),
    }
}

/// Makes a whole call, where every pass is idle, and tells its reply.
fn run(alloc: Global, core: &mut Core, call: Call) -> Result<String, AllocError> {
    if !core.is_resting() {
        return String::from_str(alloc, "NotResting");
    }
    match core.run_call(call) {
        Ok(reply) => text_of(alloc, &reply),
        Err(error) => text_of(alloc, &error),
    }
}

/// Puts a new core in the place of the one before.
fn open(alloc: Global, core: &mut Core, permits: u32, passes: u32) -> Result<String, AllocError> {
    match Core::new(alloc, permits, passes) {
        Ok(made) => {
            *core = made;
            String::from_str(alloc, "Ok")
        }
        Err(error) => text_of(alloc, &error),
    }
}

/// The same with a synchronous core.
fn open_sync(
    alloc: Global,
    core: &mut Core,
    permits: u32,
    passes: u32,
) -> Result<String, AllocError> {
    match Core::new_sync(alloc, permits, passes) {
        Ok(made) => {
            *core = made;
            String::from_str(alloc, "Ok")
        }
        Err(error) => text_of(alloc, &error),
    }
}

/// How the core stands, by the word for what is asked.
fn state_of(
    alloc: Global,
    core: &Core,
    verb: &str,
    number: u32,
) -> Option<Result<String, AllocError>> {
    Some(match verb {
        "state" => text_of(alloc, &core.state()),
        "suspends" => text_of(alloc, &core.suspends()),
        "resumes" => text_of(alloc, &core.resumes()),
        "cell" => match core.cell(u64::from(number)) {
            Some(cell) => String::from_str(alloc, state_text(cell.state)),
            None => String::from_str(alloc, "None"),
        },
        "doing" => doing_text(alloc, core.doing(number)),
        "held" => text_of(alloc, &core.held(number)),
        "entries" => text_of(alloc, &core.history().len()),
        "entry" => entry_text(alloc, core.history().get(number as usize)),
        _ => return None,
    })
}

/// What a line asks: by its word, and by two numbers.
#[derive(Clone, Copy)]
pub struct Question<'a> {
    pub verb: &'a str,
    pub first: u32,
    pub second: u32,
}

/// A number of a question; none is 0.
fn number_of(word: Option<&str>) -> anyhow::Result<u32> {
    Ok(word.unwrap_or("0").parse::<u32>()?)
}

/// The question of these words.
pub fn question_of<'a>(text: &'a str) -> anyhow::Result<Question<'a>> {
    let mut words = text.split(' ');
    Ok(Question {
        verb: words.next().unwrap_or(""),
        first: number_of(words.next())?,
        second: number_of(words.next())?,
    })
}

/// What the core tells, or none where nothing is asked.
fn told(
    alloc: Global,
    core: &mut Core,
    question: Question<'_>,
) -> Option<Result<String, AllocError>> {
    let Question {
        verb,
        first,
        second,
    } = question;
    if let Some(call) = call_of(verb, first, u64::from(second)) {
        return Some(run(alloc, core, call));
    }
    match event_of(verb, first, u64::from(second)) {
        Some(event) => Some(make(alloc, core, event)),
        None if verb == "core" => Some(open(alloc, core, first, second)),
        None if verb == "sync" => Some(open_sync(alloc, core, first, second)),
        None => state_of(alloc, core, verb, first),
    }
}

/// What the core answers to a question, in words.
pub fn answer(alloc: Global, core: &mut Core, text: &str) -> anyhow::Result<String> {
    let question = question_of(text)?;
    match told(alloc, core, question) {
        Some(answer) => Ok(answer?),
        None => anyhow::bail!("{} asks nothing", question.verb),
    }
}
