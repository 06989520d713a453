//! The events as lines.

ghost use Rattle.std.specs.Prelude.{◌≡◌, ◌≢◌, ◌∷◌, ◌++◌, [], List, ℕ, OnOk, ◌<◌};
ghost use Rattle.cqs_lines.specs.Said.{said_text};
ghost use Rattle.cqs_lines.specs.Forms.{lines_text};
ghost use Rattle.cqs_replay.specs.EventLines.{IsEventOf, event_says};

use crate::words::is;
use cqs_core::Event;
use cqs_lines::{Form, write_said};
use std::alloc::AllocError;

/// The form of an event's line.
pub struct EventForm;

impl Form for EventForm {
    type Item = Event;

    ghost use Rattle.cqs_replay.specs.EventLines.{event_says, IsEvent};
    ghost use Rattle.cqs_replay.specs.EventLaws.{event_is_line};

    ghost says = { event_says };

    ghost fits = { λ form e. IsEvent e };

    fn item(&self, verb: &[u8], numbers: &[u64]) -> Option<Event> {
        event_of(verb, numbers)
    }

    ghost clean = { λ form e fit. event_is_line e fit };
}

/// The event of this verb and this pass.
fn of_pass(verb: &[u8], pass: u32) -> Option<Event>
    ensures { IsEventOf verb.now (pass ∷ []) result }
{
    if is(verb, "take") {
        Some(Event::Take { pass })
    } else if is(verb, "tryload") {
        Some(Event::TryLoad { pass })
    } else if is(verb, "tryswap") {
        Some(Event::TrySwap { pass })
    } else if is(verb, "draw") {
        Some(Event::Draw { pass })
    } else if is(verb, "install") {
        Some(Event::Install { pass })
    } else if is(verb, "give") {
        Some(Event::Give { pass })
    } else if is(verb, "reach") {
        Some(Event::Reach { pass })
    } else if is(verb, "meet") {
        Some(Event::Meet { pass })
    } else if is(verb, "see") {
        Some(Event::See { pass })
    } else if is(verb, "break") {
        Some(Event::Break { pass })
    } else if is(verb, "decide") {
        Some(Event::Decide { pass })
    } else if is(verb, "settle") {
        Some(Event::Settle { pass })
    } else {
        None
    }
}

/// The event of this verb, this pass and this wait.
fn of_wait(verb: &[u8], pass: u32, wait: u64) -> Option<Event>
    requires { wait < 1099511627776 }
    ensures { IsEventOf verb.now (pass ∷ wait ∷ []) result }
{
    if is(verb, "leave") {
        Some(Event::Leave { pass, wait })
    } else if is(verb, "look") {
        Some(Event::Look { pass, wait })
    } else {
        None
    }
}

/// The event of these words.
pub fn event_of(verb: &[u8], numbers: &[u64]) -> Option<Event>
    ensures { IsEventOf verb.now numbers.now result }
{
    match numbers {
        [pass] => match u32::try_from(*pass) {
            Ok(pass) => of_pass(verb, pass),
            Err(_) => None,
        },
        [pass, wait] => {
            if *wait >= 1_099_511_627_776 {
                return None;
            }
            match u32::try_from(*pass) {
                Ok(pass) => of_wait(verb, pass, *wait),
                Err(_) => None,
            }
        }
        _ => None,
    }
}

/// Appends the words of an event.
pub fn write_event(text: &mut Vec<u8>, event: Event) -> Result<(), AllocError>
    ensures { OnOk result (text.new.items ≡ text.old.items ++ said_text (event_says event)) }
{
    match event {
        Event::Take { pass } => write_said(text, b"take", &[u64::from(pass)]),
        Event::TryLoad { pass } => write_said(text, b"tryload", &[u64::from(pass)]),
        Event::TrySwap { pass } => write_said(text, b"tryswap", &[u64::from(pass)]),
        Event::Draw { pass } => write_said(text, b"draw", &[u64::from(pass)]),
        Event::Install { pass } => write_said(text, b"install", &[u64::from(pass)]),
        Event::Give { pass } => write_said(text, b"give", &[u64::from(pass)]),
        Event::Reach { pass } => write_said(text, b"reach", &[u64::from(pass)]),
        Event::Meet { pass } => write_said(text, b"meet", &[u64::from(pass)]),
        Event::See { pass } => write_said(text, b"see", &[u64::from(pass)]),
        Event::Break { pass } => write_said(text, b"break", &[u64::from(pass)]),
        Event::Leave { pass, wait } => write_said(text, b"leave", &[u64::from(pass), wait]),
        Event::Decide { pass } => write_said(text, b"decide", &[u64::from(pass)]),
        Event::Settle { pass } => write_said(text, b"settle", &[u64::from(pass)]),
        Event::Look { pass, wait } => write_said(text, b"look", &[u64::from(pass), wait]),
    }
}

/// Appends a line for each event.
pub fn write_events(text: &mut Vec<u8>, events: &[Event]) -> Result<(), AllocError>
    ensures { OnOk result
        (text.new.items ≡ text.old.items ++ lines_text event_says events.now []) }
{
    for event in events {
        write_event(text, *event)?;
        text.extend_from_slice(b"\n")?;
    }
    Ok(())
}
