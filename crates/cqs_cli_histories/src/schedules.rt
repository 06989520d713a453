//! The commands that read a schedule.

ghost use Rattle.std.specs.Prelude.{◌≡◌, ◌<◌, ◌^◌, IfOk, codes, length};
ghost use Rattle.cqs_cli_histories.specs.Studies.{IsStudied, wrong_line};
ghost use Rattle.cqs_cli_histories.specs.declared.studies.Study.TheVariants as study;

use crate::studies::Studied;
use crate::wrong_lines::wrong_line;
use cqs_core::Memory;
use cqs_replay::{ScheduleError, history_text, read_schedule, replay_text};
use std::alloc::Global;

/// The line that names the first line of an input that breaks the form of a schedule.
fn bad_schedule(alloc: Global, number: u32) -> Result<Vec<u8>, Memory>
    ensures { IfOk result
        (λ line. line.items ≡ wrong_line (codes "bad schedule: line ") number) }
{
    wrong_line(alloc, b"bad schedule: line ", u64::from(number))
}

/// What the events of a schedule answer.
pub fn replay(alloc: Global, bytes: &[u8]) -> Result<Studied, Memory>
    requires { length bytes.now < 2 ^ 32 }
    ensures { IfOk result (λ studied. IsStudied study.Replay bytes.now studied) }
{
    match read_schedule(alloc, bytes) {
        Ok(schedule) => Ok(Studied::Text(replay_text(alloc, &schedule)?)),
        Err(ScheduleError::BadLine(number)) => Ok(Studied::BadText(bad_schedule(alloc, number)?)),
        Err(ScheduleError::Memory) => Err(Memory),
    }
}

/// The history of the run of a schedule.
pub fn history(alloc: Global, bytes: &[u8]) -> Result<Studied, Memory>
    requires { length bytes.now < 2 ^ 32 }
    ensures { IfOk result (λ studied. IsStudied study.History bytes.now studied) }
{
    match read_schedule(alloc, bytes) {
        Ok(schedule) => Ok(Studied::Text(history_text(alloc, &schedule)?)),
        Err(ScheduleError::BadLine(number)) => Ok(Studied::BadText(bad_schedule(alloc, number)?)),
        Err(ScheduleError::Memory) => Err(Memory),
    }
}
