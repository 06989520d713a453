//! Standard input, which remembers what it gave.
ghost use Rattle.std.specs.Prelude.{◌≡◌, None};

use cqs_cli::StdinSource;
use cqs_cli_streams::{Failed, Source};
use std::alloc::Global;
use std::marker::Model;

/// A source whose bytes can be looked at again.
pub trait Remembers {
    /// All that it gave so far, or none where there was no memory to keep it.
    fn remembered(&self) -> Option<&[u8]>;
}

/// Standard input, with a copy of all that it gave. It is the source that it is over, and where
/// there is no memory for the copy it goes on without.
#[derive(Drop)]
pub struct InputSource {
    stdin: StdinSource,
    given: Vec<u8>,
    is_whole: bool,
}

impl Model for InputSource {
    ghost use Rattle.cqs_cli.specs.Standard.{StandardInput};

    ghost Value = { StandardInput };

    ghost view = { λ source. source.stdin };
}

impl InputSource {
    pub fn new(alloc: Global, stdin: StdinSource) -> InputSource
        ensures { result ≡ stdin }
    {
        InputSource {
            stdin,
            given: Vec::new(alloc),
            is_whole: true,
        }
    }

    fn remember(&mut self, piece: &[u8])
        ensures { self.new ≡ self.old }
    {
        if self.is_whole && self.given.extend_from_slice(piece).is_err() {
            self.is_whole = false;
        }
    }
}

impl Source for InputSource {
    ghost left = { λ _. None };

    ghost tally = { λ source. source.tally };

    ghost faults = { λ source. source.faults };

    fn read(&mut self, buffer: &mut [u8]) -> Result<usize, Failed> {
        match self.stdin.read(buffer) {
            Ok(count) => {
                self.remember(&buffer[..count]);
                Ok(count)
            }
            Err(failed) => Err(failed),
        }
    }
}

impl Remembers for InputSource {
    fn remembered(&self) -> Option<&[u8]> {
        if self.is_whole {
            Some(self.given.as_slice())
        } else {
            None
        }
    }
}
