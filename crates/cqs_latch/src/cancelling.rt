//! The cancel.

ghost use Rattle.std.specs.Prelude.{◌≡◌, true};
ghost use Rattle.cqs_core.specs.declared.doings.Doing.TheVariants as doing;
ghost use Rattle.cqs_latch.specs.Alone.{IsPlainCancel};
ghost use Rattle.cqs_rule_laws.specs.CallRule.{IsReady};
ghost use Rattle.cqs_latch.specs.Calls.{IsMine, KeepsOtherWaits};
ghost use Rattle.cqs_latch.specs.LatchMade.{mode_of};
ghost use Rattle.cqs_latch.specs.LeftAnswers.{HasLeft, IsReadyLeft};
ghost use Rattle.cqs_latch.specs.Steps.{GoesOn, as_left};
ghost use Rattle.cqs_rule.specs.Passes.{pass_view, client_of};
ghost use Rattle.cqs_rule.specs.Waits.{place_of, HasWait};
ghost use Rattle.cqs_rule_laws.specs.declared.config.CancelMode.TheVariants.{Smart, Simple};

use crate::answers::{LatchLeft, Owed};
use crate::latch::{Latch, LatchPass};
use crate::waking::handed_back;
use cqs_cancel::{AtOnce, Left, cancel, cancel_at_once};
use cqs_resume::resume;
use cqs_rule::{CancelMode, Carries, Under, Wait};

impl<T: Carries + Send> Latch<T> {
    /// Ends a wait: the caller leaves, or the latch was opened and the wait served before. Where a
    /// resumption was left to the caller who leaves, it goes on to the next who waits.
    pub fn cancel(&self, pass: &mut LatchPass<T>, wait: Wait) -> LatchLeft
        requires belongs { IsMine self.now pass.old }
        requires ready { IsReady (pass_view pass.old).facts }
        requires has { HasWait (pass_view pass.old) wait }
        ensures belongs { IsMine self.now pass.new }
        ensures left { HasLeft (mode_of (client_of self.now.queue)) (place_of wait).index
            (pass_view pass.old) result (pass_view pass.new) }
        ensures ready { IsReadyLeft result (pass_view pass.new).facts }
        ensures keeps { KeepsOtherWaits (place_of wait).index (pass_view pass.old)
            (pass_view pass.new) }
        ensures alone { (pass_view pass.old).alone ≡ true
            → IsPlainCancel (place_of wait).index (pass_view pass.old) result }
    {
        match self.mode {
            CancelMode::Smart => self.cancel_smart(pass, wait),
            CancelMode::Simple => self.cancel_simple(pass, wait),
        }
    }

    // The canceller is counted out before the latch opens, or is refused.
    fn cancel_smart(&self, pass: &mut LatchPass<T>, wait: Wait) -> LatchLeft
        requires belongs { IsMine self.now pass.old }
        requires smart { mode_of (client_of self.now.queue) ≡ Smart }
        requires ready { IsReady (pass_view pass.old).facts }
        requires has { HasWait (pass_view pass.old) wait }
        ensures belongs { IsMine self.now pass.new }
        ensures left { HasLeft Smart (place_of wait).index (pass_view pass.old) result
            (pass_view pass.new) }
    {
        match cancel(&self.queue, pass, wait) {
            Left::Gone => LatchLeft::Gone,
            Left::GoneOwing(payload) => match self.pass_on(pass, payload) {
                None => LatchLeft::Gone,
                Some(under) => LatchLeft::GoneOwing(Owed { under, further: 0 }),
            },
            Left::Late(_) => LatchLeft::TooLate,
        }
    }

    // Goes on with the resumption that had left its value to the caller.
    fn pass_on(&self, pass: &mut LatchPass<T>, payload: u32) -> Option<Under>
        requires belongs { IsMine self.now pass.old }
        requires smart { mode_of (client_of self.now.queue) ≡ Smart }
        requires owes { (pass_view pass.old).facts.doing ≡ doing.Owes }
        requires payload { (pass_view pass.old).facts.has.payload ≡ payload }
        ensures belongs { IsMine self.now pass.new }
        ensures on { GoesOn payload (pass_view pass.old) result (pass_view pass.new) }
    {
        handed_back(resume(&self.queue, pass, payload))
    }

    // The cell is a hole from now on, and the resumption that comes ends there.
    fn cancel_simple(&self, pass: &mut LatchPass<T>, wait: Wait) -> LatchLeft
        requires belongs { IsMine self.now pass.old }
        requires simple { mode_of (client_of self.now.queue) ≡ Simple }
        requires ready { IsReady (pass_view pass.old).facts }
        requires has { HasWait (pass_view pass.old) wait }
        ensures belongs { IsMine self.now pass.new }
        ensures left { HasLeft Simple (place_of wait).index (pass_view pass.old) result
            (pass_view pass.new) }
    {
        left_at_once(cancel_at_once(&self.queue, pass, wait))
    }
}

// What a cancel that leaves at once means for the wait.
fn left_at_once(left: AtOnce) -> LatchLeft
    ensures { result ≡ as_left left }
{
    match left {
        AtOnce::Gone => LatchLeft::Gone,
        AtOnce::Late(_) => LatchLeft::TooLate,
    }
}
