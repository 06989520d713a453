//! A source in memory that never fails.

use crate::{Failed, Source, Tally};
use cqs_core::Memory;
use std::alloc::Global;
use std::marker::Model;

/// Bytes in memory as a source that never fails. Each read gives at most `chunk` of them.
#[derive(Drop)]
pub struct SureSource {
    bytes: Vec<u8>,
    place: usize,
    chunk: u32,
    tally: Tally,
}

impl Model for SureSource {
    ghost use Rattle.std.specs.Prelude.{◌≤◌, drop, vec_len};
    ghost use Rattle.cqs_cli_streams.specs.InMemory.{PlainSource};

    ghost Value = { PlainSource };

    ghost view = { λ source. record {
      left = drop source.place source.bytes.items;
      chunk = source.chunk;
      tally = source.tally;
    } };

    ghost invariant = { λ source. (source.place ≤ vec_len source.bytes) × (1 ≤ source.chunk) };
}

impl SureSource {
    ghost use Rattle.std.specs.Prelude.{◌≡◌, ◌≤◌, IfOk};
    ghost use Rattle.cqs_cli_streams.specs.InMemory.{with_read};
    ghost use Rattle.cqs_cli_streams.specs.Tally.{no_calls};

    /// A source of a copy of these bytes.
    pub fn new(alloc: Global, bytes: &[u8], chunk: u32) -> Result<SureSource, Memory>
        requires { 1 ≤ chunk }
        ensures { IfOk result (λ source. source
            ≡ record { left = bytes.now; chunk = chunk; tally = no_calls }) }
    {
        Ok(SureSource {
            bytes: Vec::from_slice(alloc, bytes)?,
            place: 0,
            chunk,
            tally: Tally::new(),
        })
    }

    /// Counts a read that failed before it came to these bytes.
    pub fn count_failed(&mut self)
        ensures { self.new ≡ with_read self.old 0 }
    {
        self.tally.count(0);
    }
}

impl Source for SureSource {
    ghost use Rattle.std.specs.Prelude.{Some};
    ghost use Rattle.cqs_cli_streams.specs.InMemory.{ReadsSurely};

    ghost left = { λ source. Some source.left };

    ghost tally = { λ source. source.tally };

    ghost faults = { λ _. 0 };

    ghost reads = { ReadsSurely };

    fn read(&mut self, buffer: &mut [u8]) -> Result<usize, Failed> {
        let left = self.bytes.len() - self.place;
        let count = buffer.len().min(self.chunk as usize).min(left);
        buffer[..count].copy_from_slice(&self.bytes[self.place..self.place + count]);
        self.place += count;
        self.tally.count(count);
        Ok(count)
    }
}
