//! The trait of sources.

ghost use Rattle.std.specs.Prelude.{◌≡◌, ℕ, ◌<◌, ◌≤◌, List, [], length, take, Option, Result, IfOk, OnOk, OnErr};
ghost use Rattle.cqs_cli_streams.specs.Stream.{Gives, IsAll, Rises};
ghost use Rattle.cqs_cli_streams.specs.Tally.{after_call, bytes_of};
ghost use Rattle.cqs_cli_streams.specs.declared.streams.failed.Failed.{Failed as Failure};
ghost use Rattle.cqs_cli_streams.specs.declared.streams.tally.Tally.{Tally};

use crate::Failed;

/// Where bytes come from.
///
/// Contracts see what is `left` of its bytes, where it tells that, the `tally` of its reads,
/// and the number of its `faults` so far. A source that tells nothing of its bytes, as
/// standard input, is still held to its counts. A source that is known better says exactly
/// what a read does, in `reads`.
pub trait Source {
    ghost left: { Self → Option (List ℕ) };

    ghost tally: { Self → Tally };

    ghost faults: { Self → ℕ };

    ghost reads: { Self → List ℕ → Result ℕ Failure → Self → Type 0 } = { λ _ _ _ _. Unit {0} };

    /// Puts the next bytes at the start of `buffer` and says how many they are.
    ///
    /// 0 comes exactly at the end: by `next` nothing else can come where nothing is left.
    fn read(&mut self, buffer: &mut [u8]) -> Result<usize, Failed>
        requires { 0 < length buffer.old }
        ensures within { IfOk result (λ count. count ≤ length buffer.old) }
        ensures next { IfOk result (λ count.
            Gives (take count buffer.new) (left self.old) (left self.new)) }
        ensures end { IfOk result (λ count. count ≡ 0 → IsAll [] (left self.old)) }
        ensures counted { tally self.new ≡ after_call (tally self.old) (bytes_of result) }
        ensures fine { OnOk result (faults self.new ≡ faults self.old) }

        // A read that fails takes nothing.
        ensures same { OnErr result (left self.new ≡ left self.old) }
        ensures cause { OnErr result (Rises (faults self.old) (faults self.new)) }

        ensures exact { reads self.old buffer.new result self.new };
}
