//! One run of the program, over any streams.
ghost use Rattle.std.specs.Prelude.{◌≡◌, ◌≤◌, ◌⊎◌, map, string_bytes, IsTrue};
ghost use Rattle.std.specs.Process.{exit_status};
ghost use Rattle.cqs_cli_streams.specs.Counts.{Rises};
ghost use Rattle.cqs_cli_top.specs.Calls.{IsProgramCall, all_told};
ghost use Rattle.cqs_cli_top.specs.declared.kept.Kept.TheVariants.{Nothing};
ghost use Rattle.cqs_cli_main.specs.Arguments.{RanOutOfMemory, words_of};
ghost use Rattle.cqs_cli_main.specs.Messages.{IsAnswered};

use crate::explaining::explain;
use crate::input_source::Remembers;
use crate::messages::{finish, message_of, text_of};
use crate::words::words_after_name;
use cqs_cli::NO_MEMORY;
use cqs_cli_streams::{Sink, Source};
use cqs_cli_top::{Kept, SharedQueueFloor, top};
use cqs_work::OpenGate;
use std::alloc::Global;
use std::env::Args;
use std::io;
use std::process::ExitCode;
use std::sync::Wait;
use std::thread::Threads;

/// One run of the program: the words, the call of `top`, the line on standard error, the status.
pub fn run<R: Threads + Wait + Sync, S: Source + Remembers, K: Sink, E: Sink>(
    rt: &R,
    alloc: Global,
    arguments: io::Result<Args>,
    source: &mut S,
    sink: &mut K,
    errors: &mut E,
    kept: &mut Kept<SharedQueueFloor>,
) -> ExitCode
    requires empty { kept.old ≡ Nothing }

    // It is a call of the program on the words of the command line, and the process ends with its
    // status. Or there was no memory for the words, and nothing was read, written or kept.
    ensures call { IsProgramCall all_told S.Source K.Sink (words_of arguments)
        source.old source.new sink.old sink.new kept.new (exit_status result)
        ⊎ ((exit_status result ≡ NO_MEMORY) × (source.new ≡ source.old) × (sink.new ≡ sink.old)
        × (kept.new ≡ Nothing)) }

    // So it ends where the system had no memory for them.
    ensures no_words { RanOutOfMemory arguments → exit_status result ≡ NO_MEMORY }

    // Standard error gets one text: the message of the words and the status, or where the input was
    // no plan, or workers have run one, maybe a line that explains it. It is written whole where
    // standard error counted no fault, and a prefix of it in any case. No call is made there after
    // a fault, or after the flush.
    ensures message { IsAnswered (words_of arguments) (exit_status result) kept.new
        (E.faults errors.old) (E.faults errors.new) (E.held errors.old) (E.held errors.new)
        (E.tally errors.old) (E.tally errors.new) }
    ensures flushed { ¬ Rises (E.faults errors.old) (E.faults errors.new)
        → IsTrue (E.is_flushed errors.new) }
    ensures error_stops { (E.tally errors.old).stops ≡ 0 → (E.tally errors.new).stops ≤ 1 }
{
    match words_after_name(alloc, arguments) {
        Ok(words) => run_words(rt, alloc, &words, source, sink, errors, kept),
        Err(_) => finish(errors, message_of(&[], NO_MEMORY), NO_MEMORY),
    }
}

/// The same on these words.
fn run_words<R: Threads + Wait + Sync, S: Source + Remembers, K: Sink, E: Sink>(
    rt: &R,
    alloc: Global,
    words: &[String],
    source: &mut S,
    sink: &mut K,
    errors: &mut E,
    kept: &mut Kept<SharedQueueFloor>,
) -> ExitCode
    requires empty { kept.old ≡ Nothing }
    ensures call { IsProgramCall all_told S.Source K.Sink (map string_bytes words.now)
        source.old source.new sink.old sink.new kept.new (exit_status result) }
    ensures message { IsAnswered (map string_bytes words.now) (exit_status result) kept.new
        (E.faults errors.old) (E.faults errors.new) (E.held errors.old) (E.held errors.new)
        (E.tally errors.old) (E.tally errors.new) }
    ensures flushed { ¬ Rises (E.faults errors.old) (E.faults errors.new)
        → IsTrue (E.is_flushed errors.new) }
    ensures error_stops { (E.tally errors.old).stops ≡ 0 → (E.tally errors.new).stops ≤ 1 }
{
    let status = top(rt, alloc, words, source, sink, &OpenGate, kept);
    let explained = explain(alloc, status, source.remembered(), kept);
    let text = text_of(&explained, words, status);
    finish(errors, text, status)
}
