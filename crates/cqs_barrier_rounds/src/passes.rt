//! What a pass of the rounds tells of itself.

ghost use Rattle.std.specs.Prelude.{◌≡◌, IsTrue};
ghost use mathlib.Core.Logic.{◌↔◌};
ghost use Rattle.cqs_rule.specs.Passes.{pass_view};
ghost use Rattle.cqs_rule.specs.Seats.{IsBusy};
ghost use Rattle.cqs_barrier_rounds.specs.Rounds.{held_at};
ghost use Rattle.cqs_barrier_rounds.specs.Seats.{IsSomeBusy};

use crate::rounds::RoundsPass;
use cqs_barrier::BarrierPass;

impl RoundsPass {
    /// How many parties of this round the pass holds that haven't arrived: none where there is no
    /// such round.
    pub fn held(&self, round: u32) -> u32
        ensures { result ≡ held_at self.now.passes.items round }
    {
        match self.passes.get(round as usize) {
            Some(pass) => pass.held(),
            None => 0,
        }
    }

    // Whether it has a wait or owes something in some round.
    pub(crate) fn is_busy(&self) -> bool
        ensures { IsTrue result ↔ IsSomeBusy self.now.passes.items }
    {
        for pass in &self.passes {
            if has_more(pass) {
                return true;
            }
        }
        false
    }
}

// Whether this pass has a wait or owes something.
fn has_more(pass: &BarrierPass) -> bool
    ensures { IsTrue result ↔ IsBusy (pass_view pass.now).facts }
{
    pass.owes() || pass.waits() > 0
}
