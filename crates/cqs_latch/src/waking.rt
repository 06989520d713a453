//! The resumptions of an opened latch, one after the other.

ghost use Rattle.std.specs.Prelude.{◌≡◌, ◌<◌, ◌+◌, [], None, IfSome, true};
ghost use Rattle.cqs_core.specs.declared.doings.Doing.TheVariants as doing;
ghost use Rattle.cqs_latch.specs.Alone.{EndsFirst, ServesFirst};
ghost use Rattle.cqs_latch.specs.Calls.{IsMine};
ghost use Rattle.cqs_latch.specs.LatchMade.{mode_of};
ghost use Rattle.cqs_latch.specs.Owed.{owed_reached, owed_under};
ghost use Rattle.cqs_latch.specs.Waking.{HasGrown, Next, On, Wakes};
ghost use Rattle.cqs_rule.specs.Claims.{WantsSlot};
ghost use Rattle.cqs_rule.specs.Owed.{HasUnder, under_reached, under_ticket};
ghost use Rattle.cqs_rule.specs.Passes.{pass_view, client_of};
ghost use Rattle.cqs_rule_laws.specs.declared.config.CancelMode.TheVariants.{Smart, Simple};

use crate::answers::Owed;
use crate::latch::{Latch, LatchPass};
use cqs_resume::{EndedAtOnce, Resumed, begin, begin_at_once, finish, finish_at_once};
use cqs_rule::{CancelMode, Carries, Under};

impl<T: Carries + Send> Latch<T> {
    // Resumes as many as the pass owes, or hands back the one that passed over too many numbers, or
    // found no slot.
    pub(crate) fn wake(&self, pass: &mut LatchPass<T>, many: u32) -> Option<Owed>
        requires belongs { IsMine self.now pass.old }
        requires idle { (pass_view pass.old).facts.doing ≡ doing.Idle }
        requires owes { (pass_view pass.old).facts.has.further ≡ many }
        requires payload { 0 < many → (pass_view pass.old).facts.has.payload ≡ 0 }
        ensures belongs { IsMine self.now pass.new }
        ensures wakes { Wakes many (pass_view pass.old) result (pass_view pass.new) }
        ensures grown { IfSome result (λ owed. under_ticket (owed_under owed) ≡ None
            → (pass_view pass.old).facts.reached < owed_reached owed) }
        ensures in_order { (pass_view pass.old).alone ≡ true
            → mode_of (client_of self.now.queue) ≡ Smart
            → ServesFirst [] (pass_view pass.old) (pass_view pass.new) }
        ensures by_number { (pass_view pass.old).alone ≡ true
            → mode_of (client_of self.now.queue) ≡ Simple
            → EndsFirst [] (pass_view pass.old) (pass_view pass.new) }
        ensures simple { mode_of (client_of self.now.queue) ≡ Simple
            → IfSome result (λ owed. WantsSlot (owed_under owed) (pass_view pass.old)
            (pass_view pass.new)) }
    {
        let mut left = many;
        while left > 0 {
            left -= 1;
            if let Some(under) = self.wake_next(pass) {
                return Some(Owed {
                    under,
                    further: left,
                });
            }
        }
        None
    }

    // Begins the next of them. In simple mode it ends at its first number, if there is a slot for
    // that.
    fn wake_next(&self, pass: &mut LatchPass<T>) -> Option<Under>
        requires belongs { IsMine self.now pass.old }
        requires idle { (pass_view pass.old).facts.doing ≡ doing.Idle }
        requires owes { 0 < (pass_view pass.old).facts.has.further }
        requires payload { (pass_view pass.old).facts.has.payload ≡ 0 }
        ensures belongs { IsMine self.now pass.new }
        ensures next { Next (pass_view pass.old) result (pass_view pass.new) }
        ensures grown { mode_of (client_of self.now.queue) ≡ Smart
            → HasGrown (pass_view pass.old).facts.reached result (pass_view pass.new) }
        ensures in_order { (pass_view pass.old).alone ≡ true
            → mode_of (client_of self.now.queue) ≡ Smart
            → ServesFirst [] (pass_view pass.old) (pass_view pass.new) }
        ensures by_number { (pass_view pass.old).alone ≡ true
            → mode_of (client_of self.now.queue) ≡ Simple
            → EndsFirst [] (pass_view pass.old) (pass_view pass.new) }
        ensures simple { mode_of (client_of self.now.queue) ≡ Simple
            → IfSome result (λ under. WantsSlot under (pass_view pass.old)
            (pass_view pass.new)) }
    {
        match self.mode {
            CancelMode::Smart => handed_back(begin(&self.queue, pass, 0)),
            CancelMode::Simple => handed_back_at_once(begin_at_once(&self.queue, pass, 0)),
        }
    }

    // Goes on with one that was handed back.
    pub(crate) fn wake_on(&self, pass: &mut LatchPass<T>, under: Under) -> Option<Under>
        requires belongs { IsMine self.now pass.old }
        requires owes { HasUnder (pass_view pass.old).facts under }
        ensures belongs { IsMine self.now pass.new }
        ensures on { On under (pass_view pass.old) result (pass_view pass.new) }
        ensures grown { mode_of (client_of self.now.queue) ≡ Smart
            → HasGrown (under_reached under) result (pass_view pass.new) }
        ensures in_order { (pass_view pass.old).alone ≡ true
            → mode_of (client_of self.now.queue) ≡ Smart
            → ServesFirst [] (pass_view pass.old) (pass_view pass.new) }
        ensures by_number { (pass_view pass.old).alone ≡ true
            → mode_of (client_of self.now.queue) ≡ Simple
            → EndsFirst [] (pass_view pass.old) (pass_view pass.new) }
        ensures simple { mode_of (client_of self.now.queue) ≡ Simple
            → IfSome result (λ under. WantsSlot under (pass_view pass.old)
            (pass_view pass.new)) }
    {
        match self.mode {
            CancelMode::Smart => handed_back(finish(&self.queue, pass, under)),
            CancelMode::Simple => handed_back_at_once(finish_at_once(&self.queue, pass, under)),
        }
    }
}

// The resumption, where it is still owed.
pub(crate) fn handed_back(resumed: Resumed) -> Option<Under>
    ensures { result ≡ Rattle.cqs_latch.specs.Waking.handed_back resumed }
{
    match resumed {
        Resumed::Served(_) => None,
        Resumed::Left(_) => None,
        Resumed::Refused(_) => None,
        Resumed::Under(under) => Some(under),
    }
}

// The same in simple mode.
fn handed_back_at_once(ended: EndedAtOnce) -> Option<Under>
    ensures { result ≡ Rattle.cqs_latch.specs.Waking.handed_back_at_once ended }
{
    match ended {
        EndedAtOnce::Served(_) => None,
        EndedAtOnce::Left(_) => None,
        EndedAtOnce::Missed(_) => None,
        EndedAtOnce::Under(under) => Some(under),
    }
}
