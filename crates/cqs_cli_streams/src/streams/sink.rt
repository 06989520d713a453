//! The trait of sinks.

ghost use Rattle.std.specs.Prelude.{◌≡◌, ℕ, ◌<◌, ◌≤◌, Bool, List, length, take, Option, Result, IsTrue, is_ok, IfOk, OnOk, OnErr};
ghost use Rattle.cqs_cli_streams.specs.Stream.{Gains, Rises};
ghost use Rattle.cqs_cli_streams.specs.Tally.{after_call, bytes_of};
ghost use Rattle.cqs_cli_streams.specs.declared.streams.failed.Failed.{Failed as Failure};
ghost use Rattle.cqs_cli_streams.specs.declared.streams.tally.Tally.{Tally};

use crate::Failed;

/// Where bytes go.
///
/// Contracts see what it `held` so far, where it tells that, whether all of it `is_flushed` on to
/// where it goes, the `tally` of its writes and flushes, and the number of its `faults` so far. A
/// sink that tells nothing of its bytes, as standard output, is still held to its counts. A sink
/// that is known better says exactly what a write and a flush do, in `writes` and `flushes`.
pub trait Sink {
    ghost held: { Self → Option (List ℕ) };

    ghost is_flushed: { Self → Bool };

    ghost tally: { Self → Tally };

    ghost faults: { Self → ℕ };

    ghost writes: { Self → List ℕ → Result ℕ Failure → Self → Type 0 } = { λ _ _ _ _. Unit {0} };

    ghost flushes: { Self → Bool → Self → Type 0 } = { λ _ _ _. Unit {0} };

    /// Takes a prefix of `piece` and says how many bytes it is. To take nothing of
    /// a piece is a failure.
    fn write(&mut self, piece: &[u8]) -> Result<usize, Failed>
        ensures within { IfOk result (λ count. count ≤ length piece.now) }
        ensures some { IfOk result (λ count. 0 < length piece.now → 0 < count) }
        ensures taken { IfOk result
            (λ count. Gains (take count piece.now) (held self.old) (held self.new)) }
        ensures counted { tally self.new ≡ after_call (tally self.old) (bytes_of result) }
        ensures fine { OnOk result (faults self.new ≡ faults self.old) }

        // A write that fails takes nothing.
        ensures same { OnErr result (held self.new ≡ held self.old) }
        ensures cause { OnErr result (Rises (faults self.old) (faults self.new)) }

        ensures exact { writes self.old piece.now result self.new };

    /// Passes on what the sink may have kept back.
    fn flush(&mut self) -> Result<(), Failed>
        ensures flushed { OnOk result (IsTrue (is_flushed self.new)) }
        ensures same { held self.new ≡ held self.old }
        ensures counted { tally self.new ≡ after_call (tally self.old) 0 }
        ensures fine { OnOk result (faults self.new ≡ faults self.old) }
        ensures cause { OnErr result (Rises (faults self.old) (faults self.new)) }

        ensures exact { flushes self.old (is_ok result) self.new };
}
