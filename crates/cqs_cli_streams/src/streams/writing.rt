//! The loop that writes a text.

ghost use Rattle.std.specs.Prelude.{◌≡◌, length, IsTrue, OnOk, OnErr};
ghost use Rattle.cqs_cli_streams.specs.Stream.{Gains, GainsPrefix, Rises};
ghost use Rattle.cqs_cli_streams.specs.Tally.{StopsAfter, StopsWithin};

use crate::{Failed, Sink};

/// Writes the whole text, piece by piece as the sink takes it, and flushes it.
pub fn write_all<K: Sink>(sink: &mut K, text: &[u8]) -> Result<(), Failed>
    ensures whole { OnOk result (Gains text.now (K.held sink.old) (K.held sink.new)) }
    ensures flushed { OnOk result (IsTrue (K.is_flushed sink.new)) }
    ensures fine { OnOk result (K.faults sink.new ≡ K.faults sink.old) }

    ensures prefix { OnErr result (GainsPrefix text.now (K.held sink.old) (K.held sink.new)) }
    ensures cause { OnErr result (Rises (K.faults sink.old) (K.faults sink.new)) }

    // How many bytes were taken is known of every sink, and that no call comes after a fault or
    // after the flush.
    ensures counted { OnOk result (StopsAfter (length text.now)
        (K.tally sink.old) (K.tally sink.new)) }
    ensures stopped { OnErr result (StopsWithin (length text.now)
        (K.tally sink.old) (K.tally sink.new)) }
{
    let mut done = 0;
    'write: while done < text.len() {
        done += sink.write(&text[done..])?;
    }
    sink.flush()
}
