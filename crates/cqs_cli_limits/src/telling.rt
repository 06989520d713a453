//! The telling of a verdict: it knows the sink alone.

ghost use Rattle.cqs_cli_streams.specs.Sayings.{Says};
ghost use Rattle.cqs_cli_limits.specs.Verdicts.{Tells};

use crate::verdict::Verdict;
use cqs_cli_streams::{
    BAD_TEXT, DONE, NO_MEMORY, SINK_FAILED, SOURCE_FAILED, Sink, TOO_LONG, write_all,
};

/// Writes what a verdict has to say, and gives the status that the call ends with.
pub fn tell<K: Sink>(sink: &mut K, verdict: &Verdict) -> u8
    ensures { Tells K.Sink verdict.now result sink.old sink.new }
{
    match verdict {
        Verdict::Replied(limited) => say(sink, limited.text.as_slice(), DONE),
        Verdict::BadText(line) => say(sink, line.as_slice(), BAD_TEXT),
        Verdict::SourceFailed => SOURCE_FAILED,
        Verdict::NoMemory => NO_MEMORY,
        Verdict::TooLong => TOO_LONG,
    }
}

/// Writes a text after which a call ends with this status, unless the sink fails.
fn say<K: Sink>(sink: &mut K, text: &[u8], status: u8) -> u8
    ensures { Says K.Sink text.now status result sink.old sink.new }
{
    match write_all(sink, text) {
        Ok(()) => status,
        Err(_) => SINK_FAILED,
    }
}
