//! The step by which an element is put.

ghost use Rattle.std.specs.Prelude.{◌≡◌, ◌<◌, ◌^◌};
ghost use Rattle.cqs_core.specs.declared.doings.Doing.TheVariants.{Idle};
ghost use Rattle.cqs_core.specs.QueueSteps.{puts};
ghost use Rattle.cqs_rule_laws.specs.Counts.{IsDrawnAt};
ghost use Rattle.cqs_rule_laws.specs.Lists.{Has};
ghost use Rattle.cqs_rule_laws.specs.Manner.{Suits};
ghost use Rattle.cqs_rule.specs.Passes.{pass_view, client_of, slots_of, IsOf};
ghost use Rattle.cqs_rule_laws.specs.SlotSteps.{LaysValue};
ghost use Rattle.cqs_rule.specs.Steps.{HasPut, HasGiven};

use crate::plays::Putting;
use crate::queue::{Numbered, Pass, Queue};
use cqs_rule_laws::{ClientWords, RESUMES_WORD, add_at};
use std::marker::Brand;

impl<C: ClientWords> Queue<C> {
    /// Draws the next number to resume at, and pays for it with an element that the pass has in
    /// hand. If the element has a value slot, it is given away by this step: the value that lies
    /// there is handed in.
    pub fn put_element(&self, pass: &mut Pass<C>, element: u32) -> u64
        requires belongs { IsOf self.now pass.old }
        requires suits { Suits (C.primitive (client_of self.now)).manner puts }
        requires idle { (pass_view pass.old).facts.doing ≡ Idle }
        requires has { Has element (pass_view pass.old).facts.has.slots }
        requires fits { element < 2 ^ 20 }
        requires value { element < slots_of self.now → LaysValue element (pass_view pass.old) }
        ensures belongs { IsOf self.now pass.new }
        ensures saw { HasPut element result pass.old pass.new }
        ensures after { IsDrawnAt puts (pass_view pass.old).facts result }
        ensures given { HasGiven element pass.old pass.new }
    {
        self.put_at::<Brand>(pass, element)
    }

    fn put_at<K: Numbered>(&self, pass: &mut Pass<C>, element: u32) -> u64
        requires number { element ≡ K.slot }
        requires belongs { IsOf self.now pass.old }
        requires suits { Suits (C.primitive (client_of self.now)).manner puts }
        requires idle { (pass_view pass.old).facts.doing ≡ Idle }
        requires has { Has element (pass_view pass.old).facts.has.slots }
        requires fits { element < 2 ^ 20 }
        requires value { element < slots_of self.now → LaysValue element (pass_view pass.old) }
        ensures belongs { IsOf self.now pass.new }
        ensures saw { HasPut element result pass.old pass.new }
        ensures after { IsDrawnAt puts (pass_view pass.old).facts result }
        ensures given { HasGiven element pass.old pass.new }
    {
        let found = add_at::<C, Putting<C, K>>(&self.table.shared, &mut pass.seat, RESUMES_WORD, 1);
        pass.owes = true;
        pass.ticket = found;
        found
    }
}
