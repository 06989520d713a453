//! The command.

ghost use Rattle.cqs_limiter_workers.specs.Noting.{told_by};
ghost use Rattle.cqs_cli_limits.specs.Contract.{IsLimitCall};

use crate::judging::judge;
use crate::telling::tell;
use crate::verdict::kept_of;
use cqs_cli_streams::{Sink, Source};
use cqs_limiter::Limited;
use cqs_limiter_workers::Gate;
use std::alloc::Global;
use std::sync::Wait;
use std::thread::Threads;

/// Has workers reply to the requests that the source gives, writes the replies, and gives the
/// status that the process ends with.
///
/// `IsLimitCall` says what each status means, what was read, which status must come where no fault
/// does, and what is kept. What it says of content holds where the source and the sink tell it;
/// what it says of their tallies holds of every source and sink.
///
/// What the workers left is kept where the text was made, which is before anything is written: with
/// status 0, and with status 5 where the input is requests.
pub fn limit<R: Threads + Wait + Sync, S: Source, K: Sink, G: Gate + Sync>(
    rt: &R,
    alloc: Global,
    source: &mut S,
    sink: &mut K,
    gate: &G,
    kept: &mut Option<Limited>,
) -> u8
    ensures { IsLimitCall (told_by G.begun G.ended gate.now) S.Source K.Sink
        source.old source.new sink.old sink.new kept.new result }
{
    let verdict = judge(rt, alloc, source, gate);
    let status = tell(sink, &verdict);
    *kept = kept_of(verdict);
    status
}
