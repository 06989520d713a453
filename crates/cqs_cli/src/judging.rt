//! The judging of the words and the source: it knows no sink.

ghost use Rattle.std.specs.Prelude.{◌+◌, map, string_bytes};
ghost use Rattle.cqs_cli_streams.specs.Stream.{GivesAtMost};
ghost use Rattle.cqs_cli.specs.KeptRuns.{Keeps};
ghost use Rattle.cqs_cli.specs.Verdicts.{HasTaken, IsVerdict};

use crate::kept::Kept;
use crate::plans::judge_input;
use crate::studying::judge_study;
use crate::summaries::judge_number;
use crate::verdict::Verdict;
use crate::words::{Command, command_of};
use cqs_cli_streams::{LONGEST_INPUT, ReadError, Source, read_input};
use std::alloc::Global;

/// What the words and the source come to. Everything that is to be written is made here, and so is
/// what is kept.
pub fn judge<S: Source>(alloc: Global, words: &[String], source: &mut S, kept: &mut Kept) -> Verdict
    ensures right { IsVerdict S.left S.faults
        (map string_bytes words.now) result source.old source.new }
    ensures taken { GivesAtMost (LONGEST_INPUT + 1) (S.left source.old) (S.left source.new) }
    ensures keeps { Keeps (map string_bytes words.now) result
        (S.left source.old) (S.left source.new) kept.old kept.new }
    ensures counted { HasTaken result (S.tally source.old) (S.tally source.new) }
{
    match command_of(words) {
        None => Verdict::NoCommand,
        Some(Command::Gen { number, jobs }) => judge_number(alloc, number, jobs, kept),
        Some(Command::Read(study)) => judge_study(alloc, study, source),
        Some(Command::Run) => match read_input(alloc, source) {
            Ok(bytes) => judge_input(alloc, &bytes, kept),
            Err(ReadError::Failed) => Verdict::SourceFailed,
            Err(ReadError::TooLong) => Verdict::TooLong,
            Err(ReadError::Memory) => Verdict::NoMemory,
        },
    }
}
