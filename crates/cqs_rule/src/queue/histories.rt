//! The one history in which the calls of all passes stand.

ghost use Rattle.std.specs.Prelude.{◌≡◌, true};
ghost use Rattle.cqs_rule_laws.specs.Crew.{MadeNone};
ghost use Rattle.cqs_rule.specs.Histories.{AreOf, HaveLookedOn, IsHistoryOf};
ghost use Rattle.cqs_rule.specs.Passes.{pass_view, IsOf};
ghost use Rattle.cqs_rule.specs.Seats.{HasLookedOn};

use crate::queue::{Pass, Queue};
use cqs_rule_laws::ClientWords;

impl<C: ClientWords> Queue<C> {
    /// All that these passes have done stands in one legal history, and then the first one has seen
    /// it. It begins with what each of them had seen, and has the calls of each once, in order. So
    /// they needn't meet to have one history. No word is changed: the crew's is loaded twice for
    /// each of the others.
    pub fn one_history(&self, pass: &mut Pass<C>, others: &mut [Pass<C>])
        requires belongs { IsOf self.now pass.old }
        requires others_belong { AreOf self.now others.old }
        ensures belongs { IsOf self.now pass.new }
        ensures others_belong { AreOf self.now others.new }
        ensures looked { HasLookedOn pass.old pass.new }
        ensures kept { (pass_view pass.old).alone ≡ true → (pass_view pass.new).alone ≡ true }
        ensures made_none { MadeNone (pass_view pass.old) (pass_view pass.new) }
        ensures others_looked { HaveLookedOn others.old others.new }
        ensures history { IsHistoryOf (pass_view pass.new) pass.old others.old }
    {
        for heard in 0..others.len() {
            self.catch_up(pass, &mut others[heard]);
        }
        for told in 0..others.len() {
            self.catch_up(&mut others[told], pass);
        }
    }
}
