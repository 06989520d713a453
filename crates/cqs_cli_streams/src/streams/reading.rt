//! The loop that reads an input.

ghost use Rattle.std.specs.Prelude.{◌≡◌, ◌+◌, ◌≤◌, [], vec_len, IfOk, OnOk, IsErrOf};
ghost use Rattle.cqs_cli_streams.specs.Stops.{stops_of};
ghost use Rattle.cqs_cli_streams.specs.Counts.{raise};
ghost use Rattle.cqs_cli_streams.specs.Stream.{GivesAtMost, GivesCount, IsAll, Rises};
ghost use Rattle.cqs_cli_streams.specs.declared.streams.reading.ReadError.TheVariants.{Memory as OutOfMemory, Failed as ReadFailed};

use crate::{Failed, Source};
use std::alloc::{AllocError, Global};

/// The most bytes that an input may have.
pub const LONGEST_INPUT: usize = 1_048_576;

/// How many bytes a read asks for at most.
const PIECE: usize = 4096;

/// Why an input could not be read whole.
#[derive(Clone, Copy)]
pub enum ReadError {
    /// There was no memory for it.
    Memory,
    /// It has more than `LONGEST_INPUT` bytes.
    TooLong,
    /// The source failed.
    Failed,
}

impl From<AllocError> for ReadError {
    ghost from_gives = { λ _ error. error ≡ OutOfMemory };

    fn from(_error: AllocError) -> ReadError {
        ReadError::Memory
    }
}

impl From<Failed> for ReadError {
    ghost from_gives = { λ _ error. error ≡ ReadFailed };

    fn from(_error: Failed) -> ReadError {
        ReadError::Failed
    }
}

/// Reads a source to its end, or one byte past the longest input, where it gives up.
pub fn read_input<S: Source>(alloc: Global, source: &mut S) -> Result<Vec<u8>, ReadError>
    ensures whole { IfOk result (λ bytes. IsAll bytes.items (S.left source.old)) }
    ensures ended { OnOk result (IsAll [] (S.left source.new)) }
    ensures few { IfOk result (λ bytes. vec_len bytes ≤ LONGEST_INPUT) }

    ensures too_long { IsErrOf result ReadError.TooLong
        → GivesCount (LONGEST_INPUT + 1) (S.left source.old) (S.left source.new) }
    ensures failed { IsErrOf result ReadError.Failed
        → Rises (S.faults source.old) (S.faults source.new) }
    ensures fine { ¬ IsErrOf result ReadError.Failed → S.faults source.new ≡ S.faults source.old }
    ensures taken { GivesAtMost (LONGEST_INPUT + 1) (S.left source.old) (S.left source.new) }

    // How many bytes were taken is known of every source.
    ensures given { IfOk result (λ bytes. (S.tally source.new).given
        ≡ raise (S.tally source.old).given (vec_len bytes)) }
    ensures given_too_long { IsErrOf result ReadError.TooLong →
        (S.tally source.new).given ≡ raise (S.tally source.old).given (LONGEST_INPUT + 1) }
    ensures given_failed { IsErrOf result ReadError.Failed →
        (S.tally source.new).given ≤ (S.tally source.old).given + LONGEST_INPUT }
    ensures given_memory { IsErrOf result ReadError.Memory →
        (S.tally source.new).given ≤ (S.tally source.old).given + LONGEST_INPUT }
    ensures given_most { (S.tally source.new).given
        ≤ (S.tally source.old).given + (LONGEST_INPUT + 1) }

    // Nothing is read after the end or a fault.
    ensures stops { (S.tally source.old).stops ≡ 0 → (S.tally source.new).stops ≡ stops_of result }
{
    let mut bytes = Vec::new(alloc);
    let mut piece = [0u8; PIECE];
    'read: while bytes.len() <= LONGEST_INPUT {
        let wanted = (LONGEST_INPUT + 1 - bytes.len()).min(PIECE);
        let count = source.read(&mut piece[..wanted])?;
        if count == 0 {
            return Ok(bytes);
        }
        if bytes.len() + count > LONGEST_INPUT {
            return Err(ReadError::TooLong);
        }
        bytes.extend_from_slice(&piece[..count])?;
    }
    Err(ReadError::TooLong)
}
