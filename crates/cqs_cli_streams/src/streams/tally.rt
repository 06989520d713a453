//! What a stream counts of its calls.

ghost use Rattle.std.specs.Prelude.{◌≡◌};
ghost use Rattle.cqs_cli_streams.specs.Tally.{after_call, no_calls};

/// What a stream counts of its calls, whether it tells its bytes or not: a source of its reads, a
/// sink of its writes and flushes.
#[derive(Clone, Copy)]
pub struct Tally {
    /// How many bytes a source gave, or a sink took.
    pub given: u64,
    /// How many of its calls stopped: a call stops that moves no byte, as a read at the end, a
    /// flush, and any call that failed; and so does every call after it.
    pub stops: u64,
}

impl Tally {
    /// The tally before the first call.
    pub fn new() -> Tally
        ensures { result ≡ no_calls }
    {
        Tally { given: 0, stops: 0 }
    }

    /// Counts a call that moved so many bytes.
    pub fn count(&mut self, bytes: usize)
        ensures { self.new ≡ after_call self.old bytes }
    {
        self.given = self.given.saturating_add(bytes as u64);
        if self.stops > 0 || bytes == 0 {
            self.stops = self.stops.saturating_add(1);
        }
    }
}
