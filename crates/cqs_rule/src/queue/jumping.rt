//! The resume counter goes on past numbers whose segments were taken out.

ghost use Rattle.cqs_rule_laws.specs.Jumped.{Jumped, MayJump};
ghost use Rattle.cqs_rule_laws.specs.Manner.{IsSmart};
ghost use Rattle.cqs_rule.specs.Passes.{pass_view, client_of, IsOf};

use crate::plays::Jumping;
use crate::queue::{Pass, Queue};
use cqs_rule_laws::{ClientWords, RESUMES_WORD, exchange_at};

impl<C: ClientWords> Queue<C> {
    /// Moves the resume counter from one number to another, if it stands at the first. It answers
    /// the number where it stood.
    #[inline(always)]
    pub fn swap_resumes(&self, pass: &mut Pass<C>, from: u64, to: u64) -> u64
        requires belongs { IsOf self.now pass.old }
        requires smart { IsSmart (C.primitive (client_of self.now)).manner.leaving }
        requires may { MayJump from to (pass_view pass.old) }
        ensures belongs { IsOf self.now pass.new }
        ensures jumped { Jumped C.object C.primitive from to (pass_view pass.old) result
            (pass_view pass.new) }
    {
        exchange_at::<C, Jumping<C>>(&self.table.shared, &mut pass.seat, RESUMES_WORD, from, to)
    }
}
