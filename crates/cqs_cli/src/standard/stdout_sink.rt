//! Standard output as a sink.

ghost use Rattle.std.specs.Prelude.{◌≡◌, None, false};
ghost use Rattle.cqs_cli_streams.specs.Tally.{no_calls};

use super::counting::{Flushed, flush_counted, write_counted};
use cqs_cli_streams::{Failed, Sink, Tally};
use std::io::Stdout;
use std::marker::Model;

/// Standard output. What becomes of its bytes is outside all contracts; how many it took, and its
/// failures, are counted.
#[derive(Drop)]
pub struct StdoutSink {
    stdout: Stdout,
    flushed: Option<Flushed>,
    tally: Tally,
    faults: u64,
}

impl Model for StdoutSink {
    ghost use Rattle.cqs_cli.specs.Standard.{StandardOutput, shows_flush};

    ghost Value = { StandardOutput };

    ghost view = { λ sink. record {
      is_flushed = shows_flush sink.flushed sink.tally;
      tally = sink.tally;
      faults = sink.faults;
    } };
}

impl StdoutSink {
    /// Standard output before its first write.
    pub fn new(stdout: Stdout) -> StdoutSink
        ensures { result ≡ record { is_flushed = false; tally = no_calls; faults = 0 } }
    {
        StdoutSink {
            stdout,
            flushed: None,
            tally: Tally::new(),
            faults: 0,
        }
    }
}

impl Sink for StdoutSink {
    ghost use Rattle.cqs_cli.specs.Standard.{FlushesOn, WritesAhead};

    ghost held = { λ _. None };

    ghost is_flushed = { λ sink. sink.is_flushed };

    ghost tally = { λ sink. sink.tally };

    ghost faults = { λ sink. sink.faults };

    ghost writes = { WritesAhead };

    ghost flushes = { FlushesOn };

    fn write(&mut self, piece: &[u8]) -> Result<usize, Failed> {
        self.flushed = None;
        write_counted(&mut self.stdout, &mut self.tally, &mut self.faults, piece)
    }

    fn flush(&mut self) -> Result<(), Failed> {
        self.flushed = None;
        self.flushed = Some(flush_counted(&mut self.stdout, &mut self.tally, &mut self.faults)?);
        Ok(())
    }
}
