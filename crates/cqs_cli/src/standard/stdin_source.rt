//! Standard input as a source.

ghost use Rattle.std.specs.Prelude.{◌≡◌, None};
ghost use Rattle.cqs_cli_streams.specs.Tally.{no_calls};

use super::counting::read_counted;
use cqs_cli_streams::{Failed, Source, Tally};
use std::io::Stdin;
use std::marker::Model;

/// Standard input. What it gives is outside all contracts; how many bytes, and
/// its failures, are counted.
#[derive(Drop)]
pub struct StdinSource {
    stdin: Stdin,
    tally: Tally,
    faults: u64,
}

impl Model for StdinSource {
    ghost use Rattle.cqs_cli.specs.Standard.{StandardInput};

    ghost Value = { StandardInput };

    ghost view = { λ source. record { tally = source.tally; faults = source.faults } };
}

impl StdinSource {
    /// Standard input before its first read.
    pub fn new(stdin: Stdin) -> StdinSource
        ensures { result ≡ record { tally = no_calls; faults = 0 } }
    {
        StdinSource {
            stdin,
            tally: Tally::new(),
            faults: 0,
        }
    }
}

impl Source for StdinSource {
    ghost left = { λ _. None };

    ghost tally = { λ source. source.tally };

    ghost faults = { λ source. source.faults };

    fn read(&mut self, buffer: &mut [u8]) -> Result<usize, Failed> {
        read_counted(&mut self.stdin, &mut self.tally, &mut self.faults, buffer)
    }
}
