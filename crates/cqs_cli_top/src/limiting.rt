//! The command that has workers reply to requests.

ghost use Rattle.cqs_limiter_workers.specs.Noting.{told_by};
ghost use Rattle.cqs_cli_top.specs.Calls.{IsLimitOn};

use crate::floors::SharedQueueFloor;
use crate::kept::{Kept, kept_limited};
use cqs_cli_streams::{Sink, Source};
use cqs_limiter_workers::Gate as GateOfRequests;
use cqs_work::Gate;
use std::alloc::Global;
use std::sync::Wait;
use std::thread::Threads;

/// The gate of the calls of workers, as one of their requests.
#[derive(Clone, Copy)]
struct RequestGate<'a, G> {
    gate: &'a G,
}

impl<G: Gate> GateOfRequests for RequestGate<'_, G> {
    ghost begun = { λ it. G.begun it.gate.now };

    ghost ended = { λ it. G.ended it.gate.now };

    fn before<R: Threads + Wait>(&self, rt: &R, worker: u32, request: u32) {
        self.gate.before(rt, worker, request);
    }

    fn after<R: Threads + Wait>(&self, rt: &R, worker: u32, request: u32) {
        self.gate.after(rt, worker, request);
    }
}

/// Has workers reply to the requests that the source gives, and writes the replies.
pub fn limit<R: Threads + Wait + Sync, S: Source, K: Sink, G: Gate + Sync>(
    rt: &R,
    alloc: Global,
    source: &mut S,
    sink: &mut K,
    gate: &G,
    kept: &mut Kept<SharedQueueFloor>,
) -> u8
    ensures { IsLimitOn (told_by G.begun G.ended gate.now) S.Source K.Sink
        source.old source.new sink.old sink.new kept.new result }
{
    let mut limited = None;
    let status = cqs_cli_limits::limit(
        rt,
        alloc,
        source,
        sink,
        &RequestGate { gate },
        &mut limited,
    );
    *kept = kept_limited(limited);
    status
}
