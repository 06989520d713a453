//! Standard error as a sink.
ghost use Rattle.std.specs.Prelude.{◌≡◌, None, true};
ghost use Rattle.cqs_cli_streams.specs.Counts.{Rises};
ghost use Rattle.cqs_cli_streams.specs.Tally.{after_call, no_calls};

use cqs_cli_streams::{Failed, Sink, Tally};
use std::io::{Stderr, Write};
use std::marker::Model;

/// Standard error. What becomes of its bytes is outside all contracts; how many it took, and its
/// failures, are counted.
///
/// A write that failed is not made again, so that a line that doesn't come never keeps the program
/// from ending.
#[derive(Drop)]
pub struct StderrSink {
    stderr: Stderr,
    tally: Tally,
    faults: u64,
}

impl Model for StderrSink {
    ghost use Rattle.cqs_cli_main.specs.Messages.{StandardError};

    ghost Value = { StandardError };

    ghost view = { λ sink. record { tally = sink.tally; faults = sink.faults } };
}

impl StderrSink {
    /// Standard error before its first write.
    pub fn new(stderr: Stderr) -> StderrSink
        ensures { result ≡ record { tally = no_calls; faults = 0 } }
    {
        StderrSink {
            stderr,
            tally: Tally::new(),
            faults: 0,
        }
    }

    // Counts a failure.
    fn fail(&mut self) -> Failed
        ensures rises { Rises self.old.faults self.new.faults }
        ensures stops { self.new.tally ≡ after_call self.old.tally 0 }
    {
        self.tally.count(0);
        self.faults = self.faults.saturating_add(1);
        Failed
    }
}

impl Sink for StderrSink {
    ghost held = { λ _. None };

    // It keeps nothing back.
    ghost is_flushed = { λ _. true };

    ghost tally = { λ sink. sink.tally };

    ghost faults = { λ sink. sink.faults };

    fn write(&mut self, piece: &[u8]) -> Result<usize, Failed> {
        match self.stderr.write(piece) {
            Ok(count) if count > 0 || piece.is_empty() => {
                self.tally.count(count);
                Ok(count)
            }
            _ => Err(self.fail()),
        }
    }

    fn flush(&mut self) -> Result<(), Failed> {
        match self.stderr.flush() {
            Ok(()) => {
                self.tally.count(0);
                Ok(())
            }
            Err(_) => Err(self.fail()),
        }
    }
}
