//! The command that has workers run a plan.

ghost use Rattle.std.specs.Prelude.{◌≡◌, ℕ, ◌≤◌, List};
ghost use Rattle.cqs_cli.specs.Contract.{IsCallOf};
ghost use Rattle.cqs_work.specs.Gated.{told_by};
ghost use Rattle.cqs_cli_top.specs.Commands.{commands};
ghost use Rattle.cqs_cli_top.specs.Words.{IsWork};
ghost use Rattle.cqs_cli_top.specs.declared.kept.Kept.TheVariants.{Nothing};

use crate::floors::SharedQueueFloor;
use crate::judging::judge;
use crate::kept::Kept;
use cqs_cli::tell;
use cqs_cli_streams::{Sink, Source};
use cqs_work::Gate;
use std::alloc::Global;
use std::sync::Wait;
use std::thread::Threads;

/// Has so many workers run the plan that the source gives, and writes what they left of it: a call
/// of the program, whichever words ask for so many.
pub fn work<R: Threads + Wait + Sync, S: Source, K: Sink, G: Gate + Sync>(
    rt: &R,
    alloc: Global,
    workers: u32,
    source: &mut S,
    sink: &mut K,
    gate: &G,
    kept: &mut Kept<SharedQueueFloor>,
) -> u8
    requires workers { (1 ≤ workers) × (workers ≤ 16) }
    requires empty { kept.old ≡ Nothing }
    ensures { (words : List (List ℕ)) → IsWork workers words
        → IsCallOf (commands (told_by G.begun G.ended gate.now)) S.Source K.Sink words
        source.old source.new sink.old sink.new kept.new result }
{
    let verdict = judge(rt, alloc, workers, source, gate, kept);
    tell(sink, &verdict)
}
