//! A gate that holds one worker up at one of its calls.

ghost use Rattle.std.specs.Prelude.{◌≡◌, ◌==◌, ◌&&◌, if◌then◌else◌};

use crate::gate::Gate;
use std::sync::Wait;
use std::thread::{self, Threads};

/// Yields the thread of one worker so many turns before one of its calls, and does nothing else.
/// The calls of a worker are numbered from 1.
#[derive(Clone, Copy)]
pub struct HoldGate {
    worker: u32,
    call: u32,
    turns: u32,
}

impl HoldGate {
    pub fn new(worker: u32, call: u32, turns: u32) -> HoldGate
        ensures worker { result.worker ≡ worker }
        ensures call { result.call ≡ call }
        ensures turns { result.turns ≡ turns }
    {
        HoldGate {
            worker,
            call,
            turns,
        }
    }

    /// How many turns the thread yields before this call of this worker.
    pub fn turns_before(&self, worker: u32, call: u32) -> u32
        ensures { result ≡ if worker == self.now.worker && call == self.now.call
            then self.now.turns else 0 }
    {
        if worker == self.worker && call == self.call {
            self.turns
        } else {
            0
        }
    }
}

impl Gate for HoldGate {
    fn before<R: Threads + Wait>(&self, _rt: &R, worker: u32, call: u32) {
        for _turn in 0..self.turns_before(worker, call) {
            thread::yield_now();
        }
    }

    fn after<R: Threads + Wait>(&self, _rt: &R, _worker: u32, _call: u32) {}
}
