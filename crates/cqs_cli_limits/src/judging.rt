//! The judging of a source of requests: it knows no sink.

ghost use Rattle.std.specs.Prelude.{◌≡◌, ◌+◌, ◌≤◌, IfOk, length};
ghost use Rattle.cqs_cli_streams.specs.Stream.{GivesAtMost};
ghost use Rattle.cqs_limiter_workers.specs.Noting.{told_by};
ghost use Rattle.cqs_cli_limits.specs.Replies.{bad_line};
ghost use Rattle.cqs_cli_limits.specs.Verdicts.{HasTaken, IsVerdict, IsVerdictOn};

use crate::verdict::Verdict;
use cqs_cli_streams::{LONGEST_INPUT, ReadError, Source, read_input};
use cqs_core::Memory;
use cqs_limiter::limit_run;
use cqs_limiter_requests::{RequestError, read_requests};
use cqs_limiter_workers::Gate;
use cqs_lines::write_labelled;
use std::alloc::Global;
use std::sync::Wait;
use std::thread::Threads;

/// How many workers reply.
pub const WORKERS: u32 = 2;

/// What the source comes to. The text that is to be written is made here.
pub fn judge<R: Threads + Wait + Sync, S: Source, G: Gate + Sync>(
    rt: &R,
    alloc: Global,
    source: &mut S,
    gate: &G,
) -> Verdict
    ensures right { IsVerdict (told_by G.begun G.ended gate.now) S.left S.faults result
        source.old source.new }
    ensures taken { GivesAtMost (LONGEST_INPUT + 1) (S.left source.old) (S.left source.new) }
    ensures counted { HasTaken result (S.tally source.old) (S.tally source.new) }
{
    match read_input(alloc, source) {
        Ok(bytes) => judge_input(rt, alloc, &bytes, gate),
        Err(ReadError::Failed) => Verdict::SourceFailed,
        Err(ReadError::TooLong) => Verdict::TooLong,
        Err(ReadError::Memory) => Verdict::NoMemory,
    }
}

/// Reads an input as requests and has workers reply, or makes the line that says where it is wrong.
fn judge_input<R: Threads + Wait + Sync, G: Gate + Sync>(
    rt: &R,
    alloc: Global,
    bytes: &[u8],
    gate: &G,
) -> Verdict
    requires { length bytes.now ≤ LONGEST_INPUT }
    ensures { IsVerdictOn (told_by G.begun G.ended gate.now) bytes.now result }
{
    match answer(rt, alloc, bytes, gate) {
        Ok(verdict) => verdict,
        Err(_) => Verdict::NoMemory,
    }
}

fn answer<R: Threads + Wait + Sync, G: Gate + Sync>(
    rt: &R,
    alloc: Global,
    bytes: &[u8],
    gate: &G,
) -> Result<Verdict, Memory>
    requires { length bytes.now ≤ LONGEST_INPUT }
    ensures { IfOk result (IsVerdictOn (told_by G.begun G.ended gate.now) bytes.now) }
{
    match read_requests(alloc, bytes) {
        Ok(requests) => Ok(Verdict::Replied(limit_run(rt, alloc, &requests, WORKERS, gate)?)),
        Err(RequestError::BadLine(number)) => Ok(Verdict::BadText(bad_line(alloc, number)?)),
        Err(RequestError::Memory) => Err(Memory),
    }
}

/// The line that names the first line of an input that breaks the form of requests.
fn bad_line(alloc: Global, number: u32) -> Result<Vec<u8>, Memory>
    ensures { IfOk result (λ line. line.items ≡ bad_line number) }
{
    let mut line = Vec::new(alloc);
    write_labelled(&mut line, b"bad requests: line ", u64::from(number))?;
    line.extend_from_slice(b"\n")?;
    Ok(line)
}
