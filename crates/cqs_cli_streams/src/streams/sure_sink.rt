//! A sink in memory that never fails.

use crate::{Failed, Sink, Tally};
use cqs_core::Memory;
use std::alloc::Global;
use std::marker::Model;

/// A sink in memory that never fails.
///
/// It keeps up to `room` bytes. Past them it still takes every byte, and no
/// longer tells what it holds.
#[derive(Drop)]
pub struct SureSink {
    kept: Vec<u8>,
    room: u32,
    is_over: bool,
    tally: Tally,
}

impl Model for SureSink {
    ghost use Rattle.std.specs.Prelude.{◌≤◌, vec_len, vec_capacity};
    ghost use Rattle.cqs_cli_streams.specs.InMemory.{PlainSink};

    ghost Value = { PlainSink };

    ghost view = { λ sink. record {
      kept = sink.kept.items;
      room = sink.room;
      is_over = sink.is_over;
      tally = sink.tally;
    } };

    ghost invariant = { λ sink. (vec_len sink.kept ≤ sink.room)
        × (sink.room ≤ vec_capacity sink.kept) };
}

impl SureSink {
    ghost use Rattle.std.specs.Prelude.{◌≡◌, [], false, IfOk, option_copied};
    ghost use Rattle.cqs_cli_streams.specs.InMemory.{content};
    ghost use Rattle.cqs_cli_streams.specs.Tally.{no_calls};

    /// An empty sink. All its memory is taken here.
    pub fn new(alloc: Global, room: u32) -> Result<SureSink, Memory>
        ensures { IfOk result (λ sink. sink
            ≡ record { kept = []; room = room; is_over = false; tally = no_calls }) }
    {
        Ok(SureSink {
            kept: Vec::with_capacity(alloc, room as usize)?,
            room,
            is_over: false,
            tally: Tally::new(),
        })
    }

    /// What it holds, or `None` where more came than it has room for.
    pub fn bytes(&self) -> Option<&[u8]>
        ensures { option_copied result ≡ content self.now }
    {
        if self.is_over {
            return None;
        }
        Some(self.kept.as_slice())
    }
}

impl Sink for SureSink {
    ghost use Rattle.std.specs.Prelude.{true};
    ghost use Rattle.cqs_cli_streams.specs.InMemory.{content, FlushesSurely, WritesSurely};

    ghost held = { content };

    ghost is_flushed = { λ _. true };

    ghost tally = { λ sink. sink.tally };

    ghost faults = { λ _. 0 };

    ghost writes = { WritesSurely };

    ghost flushes = { FlushesSurely };

    fn write(&mut self, piece: &[u8]) -> Result<usize, Failed> {
        self.tally.count(piece.len());
        let spare = self.room as usize - self.kept.len();
        let count = piece.len().min(spare);
        self.kept.extend_from_slice(&piece[..count]).unwrap();
        self.is_over = self.is_over || count < piece.len();
        Ok(piece.len())
    }

    fn flush(&mut self) -> Result<(), Failed> {
        self.tally.count(0);
        Ok(())
    }
}
