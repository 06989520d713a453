//! The words for outcomes.

ghost use Rattle.std.specs.Prelude.{◌≡◌, ◌∷◌, ◌++◌, OnOk};
ghost use Rattle.std.specs.Fmt.{signed_decimal};
ghost use Rattle.cqs_replay.specs.OutcomeLines.{outcome_name, outcome_numbers, outcome_text};

use cqs_core::Outcome;
use cqs_lines::write_number;
use itoa::Buffer;
use std::alloc::AllocError;

/// The name of an outcome, in lower case.
fn name_of(outcome: Outcome) -> &'static str
    ensures { result.now ≡ outcome_name outcome }
{
    match outcome {
        Outcome::Now => "now",
        Outcome::Door => "door",
        Outcome::Busy => "busy",
        Outcome::Loaded(_) => "loaded",
        Outcome::Got => "got",
        Outcome::Contended { .. } => "contended",
        Outcome::Drew(_) => "drew",
        Outcome::Waits(_) => "waits",
        Outcome::Took(_) => "took",
        Outcome::Freed => "freed",
        Outcome::Owes => "owes",
        Outcome::Reached(_) => "reached",
        Outcome::Served(_) => "served",
        Outcome::Left(_) => "left",
        Outcome::Passed(_) => "passed",
        Outcome::Void(_) => "void",
        Outcome::Broke(_) => "broke",
        Outcome::Handling(_) => "handling",
        Outcome::Cancelling(_) => "cancelling",
        Outcome::TooLate(_) => "toolate",
        Outcome::Decided(_) => "decided",
        Outcome::Cancelled(_) => "cancelled",
        Outcome::Refused(_) => "refused",
        Outcome::OwesOn(_) => "oweson",
        Outcome::Pending => "pending",
        Outcome::Granted => "granted",
    }
}

/// Appends a space and the number, with its sign where it is below 0.
fn write_signed(text: &mut Vec<u8>, number: i64) -> Result<(), AllocError>
    ensures { OnOk result (text.new.items ≡ text.old.items ++ 32 ∷ signed_decimal number) }
{
    let mut buffer = Buffer::new();
    text.extend_from_slice(b" ")?;
    text.extend_from_slice(buffer.format(number).as_bytes())?;
    Ok(())
}

/// Appends a word.
fn write_word(text: &mut Vec<u8>, word: &[u8]) -> Result<(), AllocError>
    ensures { OnOk result (text.new.items ≡ text.old.items ++ word.now) }
{
    text.extend_from_slice(word)?;
    Ok(())
}

/// Appends the numbers of an outcome.
fn write_numbers(text: &mut Vec<u8>, outcome: Outcome) -> Result<(), AllocError>
    ensures { OnOk result (text.new.items ≡ text.old.items ++ outcome_numbers outcome) }
{
    match outcome {
        Outcome::Drew(number)
        | Outcome::Waits(number)
        | Outcome::Took(number)
        | Outcome::Reached(number)
        | Outcome::Served(number)
        | Outcome::Left(number)
        | Outcome::Passed(number)
        | Outcome::Void(number)
        | Outcome::Broke(number)
        | Outcome::Handling(number)
        | Outcome::Cancelling(number)
        | Outcome::TooLate(number)
        | Outcome::Cancelled(number)
        | Outcome::Refused(number)
        | Outcome::OwesOn(number) => write_number(text, number),
        Outcome::Loaded(state) => write_signed(text, state),
        Outcome::Contended { saw, found } => {
            write_signed(text, saw)?;
            write_signed(text, found)
        }
        Outcome::Decided(true) => write_word(text, b" true"),
        Outcome::Decided(false) => write_word(text, b" false"),
        Outcome::Now
        | Outcome::Door
        | Outcome::Busy
        | Outcome::Got
        | Outcome::Freed
        | Outcome::Owes
        | Outcome::Pending
        | Outcome::Granted => Ok(()),
    }
}

/// Appends the words for an outcome.
pub fn write_outcome(text: &mut Vec<u8>, outcome: Outcome) -> Result<(), AllocError>
    ensures { OnOk result (text.new.items ≡ text.old.items ++ outcome_text outcome) }
{
    write_word(text, name_of(outcome).as_bytes())?;
    write_numbers(text, outcome)
}
