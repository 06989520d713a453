//! The telling of a verdict: it knows the sink alone.

ghost use Rattle.cqs_cli.specs.Tellings.{Tells, studied_status, studied_text};
ghost use Rattle.cqs_cli_streams.specs.Sayings.{Says};

use crate::verdict::Verdict;
use crate::words::USAGE;
use cqs_cli_histories::Studied;
use cqs_cli_streams::{
    BAD_TEXT, DONE, NO_COMMAND, NO_MEMORY, NO_PLAN, NOT_LEGAL, SINK_FAILED, SOURCE_FAILED, Sink,
    TOO_LONG, write_all,
};

/// Writes what a verdict has to say, and gives the status that the call ends with.
pub fn tell<K: Sink>(sink: &mut K, verdict: &Verdict) -> u8
    ensures { Tells K.Sink verdict.now result sink.old sink.new }
{
    match verdict {
        Verdict::NoCommand => say(sink, USAGE.as_bytes(), NO_COMMAND),
        Verdict::Report(text) => say(sink, text.as_slice(), DONE),
        Verdict::Summary(text) => say(sink, text.as_slice(), DONE),
        Verdict::NoPlan(line) => say(sink, line.as_slice(), NO_PLAN),
        Verdict::Studied(studied) => tell_studied(sink, studied),
        Verdict::SourceFailed => SOURCE_FAILED,
        Verdict::NoMemory => NO_MEMORY,
        Verdict::TooLong => TOO_LONG,
    }
}

/// Writes what the study of an input came to.
fn tell_studied<K: Sink>(sink: &mut K, studied: &Studied) -> u8
    ensures { Says K.Sink (studied_text studied.now) (studied_status studied.now) result
        sink.old sink.new }
{
    match studied {
        Studied::Text(text) => say(sink, text.as_slice(), DONE),
        Studied::BadText(line) => say(sink, line.as_slice(), BAD_TEXT),
        Studied::NotLegal(line) => say(sink, line.as_slice(), NOT_LEGAL),
    }
}

/// Writes a text after which a call ends with this status, unless the sink fails.
fn say<K: Sink>(sink: &mut K, text: &[u8], status: u8) -> u8
    ensures { Says K.Sink text.now status result sink.old sink.new }
{
    match write_all(sink, text) {
        Ok(()) => status,
        Err(_) => SINK_FAILED,
    }
}
