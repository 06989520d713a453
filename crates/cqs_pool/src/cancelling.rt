//! The cancel.

ghost use Rattle.std.specs.Prelude.{◌≡◌, true};
ghost use Rattle.cqs_core.specs.declared.doings.Doing.TheVariants as doing;
ghost use Rattle.cqs_rule_laws.specs.Crew.{IsBetween};
ghost use Rattle.cqs_rule.specs.Passes.{pass_view};
ghost use Rattle.cqs_rule.specs.Waits.{place_of, HasWait};
ghost use Rattle.cqs_pool.specs.Alone.{IsPlainCancel, CancelsNew};
ghost use Rattle.cqs_pool.specs.Answers.{LeavesPass};
ghost use Rattle.cqs_rule_laws.specs.CallRule.{IsReady};
ghost use Rattle.cqs_pool.specs.Calls.{IsMine};
ghost use Rattle.cqs_pool.specs.Steps.{HasCancelled, PassedOn};

use crate::answers::{PoolLeft, placed_by};
use crate::element::Element;
use crate::pool::{Pool, PoolPass};
use cqs_cancel::{Left, cancel_unasked};
use cqs_resume::resume;
use cqs_rule::{Carries, Under, Wait};

impl<T: Carries + Send> Pool<T> {
    /// Ends a wait: the caller leaves the line, or has the element that had come before. Where an
    /// element was left to the caller who leaves, it goes on to the next number.
    pub fn cancel(&self, pass: &mut PoolPass<T>, wait: Wait) -> PoolLeft
        requires belongs { IsMine self.now pass.old }
        requires ready { IsReady (pass_view pass.old).facts }
        requires has { HasWait (pass_view pass.old) wait }
        ensures belongs { IsMine self.now pass.new }
        ensures cancelled { HasCancelled (place_of wait).index (pass_view pass.old) result
            (pass_view pass.new) }
        ensures leaves { LeavesPass (place_of wait).index (pass_view pass.old) result
            (pass_view pass.new) }
        ensures between { IsBetween (pass_view pass.new).facts }
        ensures alone { (pass_view pass.old).alone ≡ true
            → IsPlainCancel (place_of wait).index (pass_view pass.old) result
            (pass_view pass.new) }
        ensures new { CancelsNew (pass_view pass.old) result }
    {
        let number = wait.number();
        match cancel_unasked(&self.queue, pass, wait) {
            Left::Gone => PoolLeft::Cancelled(None),
            Left::GoneOwing(payload) => PoolLeft::Cancelled(self.pass_on(pass, payload)),
            Left::Late(payload) => PoolLeft::TooLate(Element {
                number: payload,
                wait: number,
            }),
        }
    }

    // Goes on with the element that was left to the caller. It is seldom that a put meets one who
    // leaves.
    #[cold]
    #[inline(never)]
    fn pass_on(&self, pass: &mut PoolPass<T>, payload: u32) -> Option<Under>
        requires belongs { IsMine self.now pass.old }
        requires owes { (pass_view pass.old).facts.doing ≡ doing.Owes }
        requires payload { (pass_view pass.old).facts.has.payload ≡ payload }
        ensures belongs { IsMine self.now pass.new }
        ensures passed { PassedOn payload (pass_view pass.old) result (pass_view pass.new) }
    {
        placed_by(resume(&self.queue, pass, payload)).into_under()
    }
}
