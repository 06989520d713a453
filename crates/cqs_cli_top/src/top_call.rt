//! The one call of the program.

ghost use Rattle.std.specs.Prelude.{◌≡◌, map, string_bytes};
ghost use Rattle.cqs_limiter_workers.specs.Noting.{told_by};
ghost use Rattle.cqs_cli.specs.Contract.{IsCallOf};
ghost use Rattle.cqs_cli_top.specs.Calls.{IsProgramCall};
ghost use Rattle.cqs_cli_top.specs.Commands.{commands};
ghost use Rattle.cqs_cli_top.specs.declared.kept.Kept.TheVariants.{Nothing};

use crate::floors::SharedQueueFloor;
use crate::kept::{Kept, kept_alone};
use crate::limiting::limit;
use crate::words::{is_limit, workers_of};
use crate::working::work;
use cqs_cli::{Kept as KeptAlone, top_alone};
use cqs_cli_streams::{Sink, Source};
use cqs_work::Gate;
use std::alloc::Global;
use std::sync::Wait;
use std::thread::Threads;

/// One call of the program: does what the words say and gives the status
/// that the process ends with.
///
/// Of all words but that of `limit` its contract is that of `top_alone`, for all commands. Status 0
/// then means of all other words than those of `work` what it means there; or the words ask for
/// workers, and the text that was written, whole and flushed, is that of what so many left of the
/// plan that was read: each worker's jobs ended as the turn machine says over answers that stand in
/// legal histories. No job is crowded; of each call of a worker the gate was told before and after,
/// though not that it was just around the call; and of each resource the floor that is kept has the
/// one pass that is left.
///
/// Of the word of `limit` it is that of `limit` of `cqs_cli_limits`: the bytes read are requests of
/// tenants, and the text that was written is that of one thread that asks line after line, read off
/// the one list of what two workers did.
///
/// The words of `work` and of `limit` have workers work, each in a thread of its own where one can
/// be made, and so they may wait; all other words are done by `top_alone`. What the command worked
/// on is kept where its text was made, which is before anything is written: with status 0, and with
/// status 5 where the input is a plan, or requests for `limit`, or the words are those of `gen`.
pub fn top<R: Threads + Wait + Sync, S: Source, K: Sink, G: Gate + Sync>(
    rt: &R,
    alloc: Global,
    words: &[String],
    source: &mut S,
    sink: &mut K,
    gate: &G,
    kept: &mut Kept<SharedQueueFloor>,
) -> u8
    requires empty { kept.old ≡ Nothing }
    ensures { IsProgramCall (told_by G.begun G.ended gate.now) S.Source K.Sink
        (map string_bytes words.now) source.old source.new sink.old sink.new kept.new result }
{
    if is_limit(words) {
        limit(rt, alloc, source, sink, gate, kept)
    } else {
        top_for_plans(rt, alloc, words, source, sink, gate, kept)
    }
}

/// The same for all words but that of `limit`, which is no command here.
fn top_for_plans<R: Threads + Wait + Sync, S: Source, K: Sink, G: Gate + Sync>(
    rt: &R,
    alloc: Global,
    words: &[String],
    source: &mut S,
    sink: &mut K,
    gate: &G,
    kept: &mut Kept<SharedQueueFloor>,
) -> u8
    requires empty { kept.old ≡ Nothing }
    ensures { IsCallOf (commands (told_by G.begun G.ended gate.now)) S.Source K.Sink
        (map string_bytes words.now) source.old source.new sink.old sink.new kept.new result }
{
    match workers_of(words) {
        Some(workers) => work(rt, alloc, workers, source, sink, gate, kept),
        None => {
            let mut run = KeptAlone::Nothing;
            let status = top_alone(alloc, words, source, sink, &mut run);
            *kept = kept_alone(run);
            status
        }
    }
}
