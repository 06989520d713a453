//! A sink in memory that fails where it is told to.

use crate::streams::script::Script;
use crate::{Failed, Sink, Tally};
use cqs_core::Memory;
use std::alloc::Global;
use std::marker::Model;

/// A sink in memory that fails when it is told to, for tests of faults.
///
/// Each write takes at most `chunk` bytes. The calls whose numbers, from 1, stand in `failing`
/// fail, and so does a write once `room` bytes were taken.
#[derive(Drop)]
pub struct BytesSink {
    held: Vec<u8>,
    room: u32,
    chunk: u32,
    script: Script,
    tally: Tally,
}

impl Model for BytesSink {
    ghost use Rattle.std.specs.Prelude.{◌≤◌, vec_len, vec_capacity};
    ghost use Rattle.cqs_cli_streams.specs.InMemory.{ScriptedSink};

    ghost Value = { ScriptedSink };

    ghost view = { λ sink. record {
      held = sink.held.items;
      room = sink.room;
      chunk = sink.chunk;
      script = sink.script;
      tally = sink.tally;
    } };

    ghost invariant = { λ sink. (vec_len sink.held ≤ sink.room)
        × (sink.room ≤ vec_capacity sink.held) × (1 ≤ sink.chunk) };
}

impl BytesSink {
    ghost use Rattle.std.specs.Prelude.{◌≡◌, ◌≤◌, [], IfOk};
    ghost use Rattle.cqs_cli_streams.specs.Tally.{no_calls};

    /// An empty sink, before its first call. All its memory is taken here.
    pub fn new(alloc: Global, room: u32, chunk: u32, failing: &[u32]) -> Result<BytesSink, Memory>
        requires { 1 ≤ chunk }
        ensures empty { IfOk result (λ sink. sink.held ≡ []) }
        ensures room { IfOk result (λ sink. sink.room ≡ room) }
        ensures chunk { IfOk result (λ sink. sink.chunk ≡ chunk) }
        ensures faults { IfOk result
            (λ sink. sink.script ≡ record { failing = failing.now; calls = 0; faults = 0 }) }
        ensures tally { IfOk result (λ sink. sink.tally ≡ no_calls) }
    {
        Ok(BytesSink {
            held: Vec::with_capacity(alloc, room as usize)?,
            room,
            chunk,
            script: Script::new(alloc, failing)?,
            tally: Tally::new(),
        })
    }

    /// What it took so far.
    pub fn bytes(&self) -> &[u8]
        ensures { result.now ≡ self.now.held }
    {
        self.held.as_slice()
    }
}

impl Sink for BytesSink {
    ghost use Rattle.std.specs.Prelude.{Some, true};
    ghost use Rattle.cqs_cli_streams.specs.InMemory.{FlushesByScript, WritesByScript};

    ghost held = { λ sink. Some sink.held };

    ghost is_flushed = { λ _. true };

    ghost tally = { λ sink. sink.tally };

    ghost faults = { λ sink. sink.script.faults };

    ghost writes = { WritesByScript };

    ghost flushes = { FlushesByScript };

    fn write(&mut self, piece: &[u8]) -> Result<usize, Failed> {
        let spare = self.room as usize - self.held.len();
        if self.script.is_failing() || spare == 0 {
            self.tally.count(0);
            return Err(self.script.fail());
        }
        self.script.pass();
        let count = piece.len().min(self.chunk as usize).min(spare);
        self.held.extend_from_slice(&piece[..count]).unwrap();
        self.tally.count(count);
        Ok(count)
    }

    fn flush(&mut self) -> Result<(), Failed> {
        if self.script.is_failing() {
            self.tally.count(0);
            return Err(self.script.fail());
        }
        self.script.pass();
        self.tally.count(0);
        Ok(())
    }
}
