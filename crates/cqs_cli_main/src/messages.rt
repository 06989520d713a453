//! The text on standard error, and the end of the process.
ghost use Rattle.std.specs.Prelude.{◌≡◌, ◌≤◌, ◌⊎◌, length, map, string_bytes, IsSome, IsTrue};
ghost use Rattle.std.specs.Process.{exit_status};
ghost use Rattle.cqs_cli_streams.specs.Counts.{Rises};
ghost use Rattle.cqs_cli_streams.specs.Tally.{StopsAfter};
ghost use Rattle.cqs_cli_main.specs.Messages.{IsTold, message, wrong_after, wrong_words};

use cqs_cli::{NO_COMMAND, NO_MEMORY, SINK_FAILED, SOURCE_FAILED, TOO_LONG};
use cqs_cli_streams::{Sink, write_all};
use std::process::ExitCode;

/// What a user is told of a status whose cause the output doesn't tell.
pub fn message_of(words: &[String], status: u8) -> &'static str
    ensures { result.now ≡ message (map string_bytes words.now) status }
{
    match status {
        NO_COMMAND => wrong_words(words),
        SOURCE_FAILED => "cqs: standard input could not be read\n",
        SINK_FAILED => "cqs: standard output could not be written\n",
        NO_MEMORY => "cqs: out of memory\n",
        TOO_LONG => "cqs: the input is longer than 1,048,576 bytes\n",
        _ => "",
    }
}

/// What a user is told of words that are no command: what goes with the first of them.
fn wrong_words(words: &[String]) -> &'static str
    ensures { result.now ≡ wrong_words (map string_bytes words.now) }
{
    match words {
        [first, ..] => wrong_after(first.as_str()),
        [] => wrong_after(""),
    }
}

fn wrong_after(first: &str) -> &'static str
    ensures { result.now ≡ wrong_after first.now }
{
    match first {
        "run" => {
            "cqs: run has no more words; it reads a plan from standard input: cqs run < plan.toml\n"
        }
        "work" => {
            "cqs: work may have --workers N, N from 1 to 16: cqs work --workers 4 < plan.toml\n"
        }
        "gen" => "cqs: gen has --number N, 0 to 2147483647, and --jobs M, 1 to 4096, in digits\n",
        "replay" => {
            "cqs: replay has no more words; it reads a schedule: cqs replay < core.schedule\n"
        }
        "history" => {
            "cqs: history has no more words; it reads a schedule: cqs history < core.schedule\n"
        }
        "check" => "cqs: check has no more words; it reads a history: cqs check < log.history\n",
        "limit" => "cqs: limit has no more words; it reads requests: cqs limit < day.requests\n",
        _ => {
            "cqs: the first word is run, work, gen, replay, history, check or limit, and all are \
             UTF-8: cqs run < plan.toml\n"
        }
    }
}

/// What is told: the line that explains what was written, if there is one, or the message.
pub fn text_of<'a>(explained: &'a Option<String>, words: &[String], status: u8) -> &'a str
    ensures { (result.now ≡ message (map string_bytes words.now) status) ⊎ IsSome explained.now }
{
    match explained {
        Some(text) => text.as_str(),
        None => message_of(words, status),
    }
}

/// Ends with a status, and tells its cause or explains what was written, if anything has to be:
/// whole, unless standard error counted a fault.
#[tactic(auto, using(crate::proofs::Told::is_told, crate::proofs::Told::goes_through))]
pub fn finish<E: Sink>(errors: &mut E, text: &str, status: u8) -> ExitCode
    ensures status { exit_status result ≡ status }
    ensures message { IsTold text.now (E.faults errors.old) (E.faults errors.new)
        (E.held errors.old) (E.held errors.new) }
    ensures flushed { ¬ Rises (E.faults errors.old) (E.faults errors.new)
        → IsTrue (E.is_flushed errors.new) }
    ensures counted { ¬ Rises (E.faults errors.old) (E.faults errors.new)
        → StopsAfter (length text.now) (E.tally errors.old) (E.tally errors.new) }
    ensures stops { (E.tally errors.old).stops ≡ 0 → (E.tally errors.new).stops ≤ 1 }
{
    // Whether the text comes changes no status.
    let _ = write_all(errors, text.as_bytes());
    ExitCode::from(status)
}
