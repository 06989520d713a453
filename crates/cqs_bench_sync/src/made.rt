//! What is made and measured of both kinds of semaphore.

use cqs_rule::Config;

/// What a round is.
#[derive(Clone, Copy, Drop)]
pub enum Round {
    /// A free permit is taken and given back.
    Free,
    /// A wait is served.
    Served,
}

/// As many waits as a queue may have, on the slots that `cqs_bench_calls` has.
pub const CONFIG: Config = Config {
    passes: 5,
    limit: 1 << 36,
    slots: 64,
};
