//! The judging of a source that is read for a study.

ghost use Rattle.std.specs.Prelude.{◌+◌, ℕ, List};
ghost use Rattle.cqs_cli_streams.specs.Stream.{GivesAtMost};
ghost use Rattle.cqs_cli.specs.KeptRuns.{Keeps};
ghost use Rattle.cqs_cli.specs.Verdicts.{HasTaken, IsVerdict};
ghost use Rattle.cqs_cli.specs.Words.{IsStudy};
ghost use Rattle.cqs_cli.specs.declared.kept.Kept.{Kept};

use crate::verdict::Verdict;
use cqs_cli_histories::{Study, study_input};
use cqs_cli_streams::{LONGEST_INPUT, ReadError, Source, read_input};
use std::alloc::Global;

/// What the source comes to, whichever words ask for this study of it. Nothing is kept.
pub fn judge_study<S: Source>(alloc: Global, study: Study, source: &mut S) -> Verdict
    ensures right { (words : List (List ℕ)) → IsStudy study words
        → IsVerdict S.left S.faults words result source.old source.new }
    ensures taken { GivesAtMost (LONGEST_INPUT + 1) (S.left source.old) (S.left source.new) }
    ensures keeps { (words : List (List ℕ)) (kept : Kept)
        → Keeps words result (S.left source.old) (S.left source.new) kept kept }
    ensures counted { HasTaken result (S.tally source.old) (S.tally source.new) }
{
    match read_input(alloc, source) {
        Ok(bytes) => match study_input(alloc, study, &bytes) {
            Ok(studied) => Verdict::Studied(studied),
            Err(_) => Verdict::NoMemory,
        },
        Err(ReadError::Failed) => Verdict::SourceFailed,
        Err(ReadError::TooLong) => Verdict::TooLong,
        Err(ReadError::Memory) => Verdict::NoMemory,
    }
}
