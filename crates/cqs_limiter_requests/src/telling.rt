//! Replies as lines.

ghost use Rattle.std.specs.Prelude.{◌≡◌, ◌++◌, OnOk};
ghost use Rattle.cqs_limiter_requests.specs.Lines.{ask_verb};
ghost use Rattle.cqs_limiter_requests.specs.Told.{answer_text, outcome_text};

use crate::asks::{Answer, Ask, LimitOutcome};
use cqs_lines::{write_labelled, write_said};
use std::alloc::AllocError;

/// The verb of a request.
fn verb_of(ask: Ask) -> &'static str
    ensures { result.now ≡ ask_verb ask }
{
    match ask {
        Ask::Enter => "enter",
        Ask::Look => "look",
        Ask::Quit => "quit",
        Ask::Leave => "leave",
    }
}

/// Appends a space and the words of an answer.
fn write_answer(text: &mut Vec<u8>, answer: Answer) -> Result<(), AllocError>
    ensures { OnOk result (text.new.items ≡ text.old.items ++ answer_text answer) }
{
    match answer {
        Answer::Now => text.extend_from_slice(b" now"),
        Answer::Waits(number) => write_labelled(text, b" waits ", number),
        Answer::Granted => text.extend_from_slice(b" granted"),
        Answer::Pending => text.extend_from_slice(b" pending"),
        Answer::Gone => text.extend_from_slice(b" gone"),
        Answer::Late => text.extend_from_slice(b" late"),
        Answer::Freed => text.extend_from_slice(b" freed"),
        Answer::Sent(number) => write_labelled(text, b" sent ", number),
        Answer::Refused => text.extend_from_slice(b" refused"),
    }
}

/// Appends the line of a request with its reply.
pub fn write_outcome(text: &mut Vec<u8>, outcome: LimitOutcome) -> Result<(), AllocError>
    ensures { OnOk result (text.new.items ≡ text.old.items ++ outcome_text outcome) }
{
    let numbers = [u64::from(outcome.tenant), u64::from(outcome.client)];
    write_said(text, verb_of(outcome.ask).as_bytes(), &numbers)?;
    write_answer(text, outcome.answer)?;
    text.extend_from_slice(b"\n")?;
    Ok(())
}
