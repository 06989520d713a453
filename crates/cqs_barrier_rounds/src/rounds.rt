//! The rounds, and the pass that a caller makes its calls with.

ghost use Rattle.std.specs.Prelude.{◌≤◌, vec_len};

use cqs_barrier::{Barrier, BarrierPass};

/// A barrier for each of a number of rounds.
#[derive(Drop)]
pub struct Rounds {
    pub(crate) barriers: Vec<Barrier>,
    ghost few: { vec_len barriers ≤ 64 },
}

/// What a caller makes its calls with: a pass for each round.
#[derive(Drop)]
pub struct RoundsPass {
    pub(crate) passes: Vec<BarrierPass>,
}
