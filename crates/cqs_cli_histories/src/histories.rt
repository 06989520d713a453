//! The command that judges a history.

ghost use Rattle.std.specs.Prelude.{◌≤◌, ◌<◌, ◌^◌, IfOk, length};
ghost use Rattle.cqs_cli_histories.specs.Studies.{IsJudged, IsStudied};
ghost use Rattle.cqs_cli_histories.specs.declared.studies.Study.TheVariants as study;

use crate::studies::Studied;
use crate::wrong_lines::wrong_line;
use cqs_check::{Checked, HistoryError, check_history, read_history};
use cqs_core::{Entry, Memory};
use cqs_lines::write_labelled;
use std::alloc::Global;

/// Whether an input is a legal history, and how the semaphore stands after it.
pub fn check(alloc: Global, bytes: &[u8]) -> Result<Studied, Memory>
    requires { length bytes.now < 2 ^ 32 }
    ensures { IfOk result (λ studied. IsStudied study.Check bytes.now studied) }
{
    match read_history(alloc, bytes) {
        Ok(history) => judge(alloc, history.permits, history.entries.as_slice()),
        Err(HistoryError::BadLine(number)) => Ok(Studied::BadText(wrong_line(
            alloc,
            b"bad history: line ",
            u64::from(number),
        )?)),
        Err(HistoryError::Memory) => Err(Memory),
    }
}

/// What is written of a history that was read.
fn judge(alloc: Global, permits: u32, entries: &[Entry]) -> Result<Studied, Memory>
    requires permits { permits ≤ 1048576 }
    requires few { length entries.now < 2 ^ 32 }
    ensures { IfOk result (λ studied. IsJudged permits entries.now studied) }
{
    match check_history(alloc, permits, entries)? {
        Checked::Legal {
            free,
            way,
            door,
            line,
            next,
            held,
        } => {
            let mut text = Vec::from_slice(alloc, b"legal\n")?;
            write_labelled(&mut text, b"free ", free)?;
            write_labelled(&mut text, b" way ", way)?;
            write_labelled(&mut text, b" door ", door)?;
            write_labelled(&mut text, b" line ", line)?;
            write_labelled(&mut text, b" next ", next)?;
            write_labelled(&mut text, b" held ", held)?;
            text.extend_from_slice(b"\n")?;
            Ok(Studied::Text(text))
        }
        // The first entry stands in the second line.
        Checked::Bad(place) => Ok(Studied::NotLegal(wrong_line(
            alloc,
            b"not legal at line ",
            u64::from(place) + 2,
        )?)),
    }
}
