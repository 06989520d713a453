//! The resumptions of the last party, one after the other.

ghost use Rattle.std.specs.Prelude.{◌≡◌, ◌+◌, IfSome};
ghost use Rattle.cqs_core.specs.declared.doings.Doing.TheVariants as doing;
ghost use Rattle.cqs_rule.specs.Owed.{HasUnder, under_payload, under_reached};
ghost use Rattle.cqs_rule.specs.Passes.{pass_view};
ghost use Rattle.cqs_barrier.specs.Calls.{IsMine};
ghost use Rattle.cqs_barrier.specs.Resuming.{HasGrown, IsFurther, OwesMore, RanNext, RanAll, owing_under};

use crate::answers::Owing;
use crate::barrier::{Barrier, BarrierPass};
use cqs_resume::{Resumed, finish};
use cqs_rule::{Begins, Carries, RESUMES_WORD, Under};

impl<T: Carries + Send> Barrier<T> {
    // Makes all the resumptions that the pass owes, until one is handed back.
    pub(crate) fn resume_all(&self, pass: &mut BarrierPass<T>, others: u32) -> Option<Owing>
        requires belongs { IsMine self.now pass.old }
        requires owes { OwesMore others (pass_view pass.old).facts }
        ensures belongs { IsMine self.now pass.new }
        ensures ran { RanAll (pass_view pass.old) result (pass_view pass.new) }
        ensures grown { IfSome result
            (λ owing. IsFurther (pass_view pass.old).facts.reached (owing_under owing)) }
    {
        let mut left = others;
        while left > 0 {
            left -= 1;
            if let Some(under) = self.resume_next(pass, left) {
                return Some(Owing { under, left });
            }
        }
        None
    }

    // Begins the next of them, by drawing its number; so many are left then.
    fn resume_next(&self, pass: &mut BarrierPass<T>, left: u32) -> Option<Under>
        requires belongs { IsMine self.now pass.old }
        requires owes { OwesMore (left + 1) (pass_view pass.old).facts }
        ensures belongs { IsMine self.now pass.new }
        ensures ran { RanNext left (pass_view pass.old) result (pass_view pass.new) }
        ensures grown { HasGrown (pass_view pass.old).facts.reached result (pass_view pass.new) }
    {
        let number = self.queue.add_table::<Begins>(pass, RESUMES_WORD, 1);
        let under = self.queue.under_of(pass, 0, Some(number), number);
        self.resume_on(pass, under, left)
    }

    // Goes on with one that was begun, until it ends or is handed back.
    pub(crate) fn resume_on(
        &self,
        pass: &mut BarrierPass<T>,
        under: Under,
        left: u32,
    ) -> Option<Under>
        requires belongs { IsMine self.now pass.old }
        requires owes { HasUnder (pass_view pass.old).facts under }
        requires further { (pass_view pass.old).facts.has.further ≡ left }
        requires payload { under_payload under ≡ 0 }
        ensures belongs { IsMine self.now pass.new }
        ensures ran { RanNext left (pass_view pass.old) result (pass_view pass.new) }
        ensures grown { HasGrown (under_reached under) result (pass_view pass.new) }
    {
        let _left = left;
        match finish(&self.queue, pass, under) {
            Resumed::Served(_) => None,
            Resumed::Left(_) => None,
            Resumed::Refused(_) => None,
            Resumed::Under(under) => Some(under),
        }
    }
}
