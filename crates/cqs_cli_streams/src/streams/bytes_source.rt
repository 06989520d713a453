//! A source in memory that fails where it is told to.

use crate::streams::script::Script;
use crate::{Failed, Source, SureSource};
use cqs_core::Memory;
use std::alloc::Global;
use std::marker::Model;

/// Bytes in memory as a source that fails when it is told to, for tests of faults.
///
/// Each read gives at most `chunk` bytes, and the reads whose numbers, from 1,
/// stand in `failing` fail.
#[derive(Drop)]
pub struct BytesSource {
    source: SureSource,
    script: Script,
}

impl Model for BytesSource {
    ghost use Rattle.cqs_cli_streams.specs.InMemory.{ScriptedSource};

    ghost Value = { ScriptedSource };

    ghost view = { λ it. record { plain = it.source; script = it.script } };
}

impl BytesSource {
    ghost use Rattle.std.specs.Prelude.{◌≡◌, ◌≤◌, IfOk};
    ghost use Rattle.cqs_cli_streams.specs.Tally.{no_calls};

    /// A source of a copy of these bytes, before its first read.
    pub fn new(
        alloc: Global,
        bytes: &[u8],
        chunk: u32,
        failing: &[u32],
    ) -> Result<BytesSource, Memory>
        requires { 1 ≤ chunk }
        ensures bytes { IfOk result (λ source. source.plain
            ≡ record { left = bytes.now; chunk = chunk; tally = no_calls }) }
        ensures faults { IfOk result
            (λ source. source.script ≡ record { failing = failing.now; calls = 0; faults = 0 }) }
    {
        Ok(BytesSource {
            source: SureSource::new(alloc, bytes, chunk)?,
            script: Script::new(alloc, failing)?,
        })
    }
}

impl Source for BytesSource {
    ghost use Rattle.std.specs.Prelude.{Some};
    ghost use Rattle.cqs_cli_streams.specs.InMemory.{ReadsByScript};

    ghost left = { λ source. Some source.plain.left };

    ghost tally = { λ source. source.plain.tally };

    ghost faults = { λ source. source.script.faults };

    ghost reads = { ReadsByScript };

    fn read(&mut self, buffer: &mut [u8]) -> Result<usize, Failed> {
        if self.script.is_failing() {
            self.source.count_failed();
            return Err(self.script.fail());
        }
        self.script.pass();
        self.source.read(buffer)
    }
}
