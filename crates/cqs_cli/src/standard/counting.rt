//! The calls of a standard stream, with their bytes and their failures counted.
//!
//! They are written for any reader and any writer, and proved of those that tell their bytes: the
//! standard streams tell none, and can't be told apart from them here.

ghost use Rattle.std.specs.Prelude.{◌≡◌, ◌≢◌, ◌<◌, length, IfOk, IfErr, OnOk, OnErr};
ghost use Rattle.std.specs.Io.{ReadsAtMost, WritesAtMost};
ghost use Rattle.std.specs.Io.KnownBytes.{Keeps, ReadConsumes, WriteAppends};
ghost use Rattle.std.specs.IoError.{error_kind};
ghost use Rattle.cqs_cli_streams.specs.Counts.{Rises};
ghost use Rattle.cqs_cli_streams.specs.Tally.{after_call, bytes_of};
ghost use Rattle.cqs_cli.specs.Standard.{IsCounted, counted_then};

use cqs_cli_streams::{Failed, Tally};
use std::io::{self, ErrorKind, Read, Write};

/// One read, made again where a signal came before it moved a byte.
pub fn read_counted<R: Read>(
    reader: &mut R,
    tally: &mut Tally,
    faults: &mut u64,
    buffer: &mut [u8],
) -> Result<usize, Failed>
    ensures within { ReadsAtMost result buffer.new }
    ensures bytes { ReadConsumes (R.remaining reader.old) (R.remaining reader.new) result
        buffer.new }
    ensures counted { tally.new ≡ after_call tally.old (bytes_of result) }
    ensures fine { OnOk result (faults.new ≡ faults.old) }
    ensures cause { OnErr result (Rises faults.old faults.new) }
{
    let answer = count_fault(read_uninterrupted(reader, buffer), faults);
    tally.count(answer.unwrap_or(0));
    answer
}

/// One write, made again where a signal came before it moved a byte. To take nothing of a piece is
/// a failure.
pub fn write_counted<W: Write>(
    writer: &mut W,
    tally: &mut Tally,
    faults: &mut u64,
    piece: &[u8],
) -> Result<usize, Failed>
    ensures within { WritesAtMost result piece.now }
    ensures some { IfOk result (λ count. 0 < length piece.now → 0 < count) }
    ensures bytes { WriteAppends (W.contents writer.old) (W.contents writer.new) result
        piece.now }
    ensures counted { tally.new ≡ after_call tally.old (bytes_of result) }
    ensures fine { OnOk result (faults.new ≡ faults.old) }
    ensures cause { OnErr result (Rises faults.old faults.new) }
{
    let answer = match write_uninterrupted(writer, piece) {
        Ok(0) if !piece.is_empty() => Err(ErrorKind::WriteZero.into()),
        answer => answer,
    };
    let answer = count_fault(answer, faults);
    tally.count(answer.unwrap_or(0));
    answer
}

/// Shows that a writer was flushed, and what was counted of its calls by then. `flush_counted`
/// alone makes one.
#[derive(Drop)]
pub struct Flushed {
    counted: Tally,
}

/// One flush.
pub fn flush_counted<W: Write>(
    writer: &mut W,
    tally: &mut Tally,
    faults: &mut u64,
) -> Result<Flushed, Failed>
    ensures bytes { Keeps (W.contents writer.old) (W.contents writer.new) }
    ensures counted { tally.new ≡ after_call tally.old 0 }
    ensures shown { IfOk result (λ flushed. counted_then flushed ≡ tally.new) }
    ensures fine { OnOk result (faults.new ≡ faults.old) }
    ensures cause { OnErr result (Rises faults.old faults.new) }
{
    let answer = count_fault(writer.flush(), faults);
    tally.count(0);
    answer.map(|()| Flushed { counted: *tally })
}

/// Hands on what a call came to, and counts its failure.
fn count_fault<T: Drop>(answer: io::Result<T>, faults: &mut u64) -> Result<T, Failed>
    ensures { IsCounted answer result faults.old faults.new }
{
    match answer {
        Ok(value) => Ok(value),
        Err(_) => {
            *faults = faults.saturating_add(1);
            Err(Failed)
        }
    }
}

fn read_uninterrupted<R: Read>(reader: &mut R, buffer: &mut [u8]) -> io::Result<usize>
    ensures within { ReadsAtMost result buffer.new }
    ensures bytes { ReadConsumes (R.remaining reader.old) (R.remaining reader.new) result
        buffer.new }
    ensures uninterrupted { IfErr result (λ error. error_kind error ≢ ErrorKind.Interrupted) }
{
    'again: for _ in 0..u64::MAX {
        match reader.read(buffer) {
            Err(error) if error.kind() == ErrorKind::Interrupted => {}
            answer => return answer,
        }
    }
    Err(ErrorKind::TimedOut.into())
}

fn write_uninterrupted<W: Write>(writer: &mut W, piece: &[u8]) -> io::Result<usize>
    ensures within { WritesAtMost result piece.now }
    ensures bytes { WriteAppends (W.contents writer.old) (W.contents writer.new) result
        piece.now }
    ensures uninterrupted { IfErr result (λ error. error_kind error ≢ ErrorKind.Interrupted) }
{
    'again: for _ in 0..u64::MAX {
        match writer.write(piece) {
            Err(error) if error.kind() == ErrorKind::Interrupted => {}
            answer => return answer,
        }
    }
    Err(ErrorKind::TimedOut.into())
}
