//! A resume passes over a number whose segment was taken out.

ghost use Rattle.std.specs.Prelude.{◌≡◌};
ghost use Rattle.cqs_core.specs.declared.doings.Doing.TheVariants.{Ticket};
ghost use Rattle.cqs_rule_laws.specs.PassedOver.{IsGone, PassedOver};
ghost use Rattle.cqs_rule.specs.Passes.{pass_view, IsOf};

use crate::plays::PassingOver;
use crate::queue::{Pass, Queue};
use cqs_rule_laws::{ClientWords, Place, load_at};

impl<C: ClientWords> Queue<C> {
    /// Loads a cell of a later segment, in place of the cell of its ticket's number: the number is
    /// passed over. It answers the word that it found.
    #[inline(always)]
    pub fn pass_over(&self, pass: &mut Pass<C>, at: Place) -> u64
        requires belongs { IsOf self.now pass.old }
        requires gone { IsGone (pass_view pass.old) at }
        requires ticket { (pass_view pass.old).facts.doing ≡ Ticket at.index }
        ensures belongs { IsOf self.now pass.new }
        ensures over { PassedOver C.object C.primitive at.index (pass_view pass.old) result
            (pass_view pass.new) }
    {
        load_at::<C, PassingOver<C>>(&self.table.shared, &mut pass.seat, at.word)
    }
}
