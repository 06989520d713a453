//! The arrival of a party, and the resumptions that the last one still owes.

ghost use Rattle.std.specs.Prelude.{◌≡◌, ◌<◌, true, OnOk, IfOk, IfErr, IsErrOf};
ghost use Rattle.cqs_core.specs.declared.doings.Doing.TheVariants as doing;
ghost use Rattle.cqs_rule.specs.Claims.{CanExtend};
ghost use Rattle.cqs_rule.specs.Passes.{ample_of, pass_view};
ghost use Rattle.cqs_barrier.specs.Alone.{IsPlainArrive, IsPlainFinish};
ghost use Rattle.cqs_barrier.specs.Arriving.{Arrives, EndsAtCell, Finishes, IsBelow, IsCrowded, IsWorn, NextIs, WaitsForOthers};
ghost use Rattle.cqs_rule_laws.specs.CallRule.{IsReady};
ghost use Rattle.cqs_barrier.specs.Calls.{IsMine};
ghost use Rattle.cqs_barrier.specs.Resuming.{HasNoTicket, HasOwing, owing_reached, owing_under};

use crate::answers::{Arrived, Owing, PartyWait};
use crate::barrier::{Barrier, BarrierPass};
use crate::steps::arrive_once;
use crate::word::{last, parties};
use cqs_rule::{AcquireError, Carries, Counts, SUSPENDS_WORD};
use cqs_suspend::{Suspended, suspend};

impl<T: Carries + Send> Barrier<T> {
    /// A party of the pass arrives: the last one resumes the others, and any other waits for it. It
    /// is refused as worn where as many numbers were drawn as the limit allows, and else as crowded
    /// where the pass can't have two spare slots.
    pub fn arrive(&self, pass: &mut BarrierPass<T>) -> Result<Arrived, AcquireError>
        requires belongs { IsMine self.now pass.old }
        requires ready { IsReady (pass_view pass.old).facts }
        requires holds { 0 < (pass_view pass.old).facts.has.held }
        ensures belongs { IsMine self.now pass.new }
        ensures worn { IsErrOf result AcquireError.Worn
            → IsWorn (pass_view pass.old) (pass_view pass.new) }
        ensures crowded { IsErrOf result AcquireError.Crowded
            → IsCrowded (pass_view pass.old) (pass_view pass.new) }
        ensures never_crowded { ample_of self.now.queue ≡ true
            → ¬ IsErrOf result AcquireError.Crowded }
        ensures below { OnOk result (IsBelow (pass_view pass.old) (pass_view pass.new)) }
        ensures arrived { IfOk result
            (λ arrived. Arrives (pass_view pass.old) arrived (pass_view pass.new)) }
        ensures cell { IfOk result
            (λ arrived. EndsAtCell (pass_view pass.old) arrived (pass_view pass.new)) }
        ensures alone { (pass_view pass.old).alone ≡ true → IfOk result
            (λ arrived. IsPlainArrive (pass_view pass.old) arrived (pass_view pass.new)) }
    {
        if self.next_wait(pass) >= self.queue.limit() {
            return Err(AcquireError::Worn);
        }
        let Ok(()) = self.queue.claim_spares(pass, 2) else {
            return Err(AcquireError::Crowded);
        };
        let found = arrive_once(&self.queue, pass);
        if last(found) {
            let others = parties(found) - 1;
            return Ok(match self.resume_all(pass, others) {
                None => Arrived::Last,
                Some(owing) => Arrived::LastOwing(owing),
            });
        }
        Ok(self.wait_for_others(pass))
    }

    /// The last party goes on with the resumptions that it owes, and tells whether they all ended.
    pub fn finish(&self, pass: &mut BarrierPass<T>, owing: Owing) -> Result<(), Owing>
        requires belongs { IsMine self.now pass.old }
        requires owes { HasOwing (pass_view pass.old).facts owing }
        ensures belongs { IsMine self.now pass.new }
        ensures finished { Finishes (pass_view pass.old) result (pass_view pass.new) }
        ensures grown { ample_of self.now.queue ≡ true
            → IfErr result (λ again. owing_reached owing < owing_reached again) }
        ensures further { IfErr result (λ again. HasNoTicket (owing_under again)
            → owing_reached owing < owing_reached again) }
        ensures alone { (pass_view pass.old).alone ≡ true
            → IsPlainFinish (pass_view pass.old) result (pass_view pass.new) }
    {
        let Owing { under, left } = owing;
        if let Some(under) = self.resume_on(pass, under, left) {
            return Err(Owing { under, left });
        }
        match self.resume_all(pass, left) {
            None => Ok(()),
            Some(owing) => Err(owing),
        }
    }

    // Loads the suspend counter: the number that the next wait will have. A pass that finds it
    // below the limit may draw.
    #[tactic(auto, using(crate::proofs::NextFound::next_is))]
    fn next_wait(&self, pass: &mut BarrierPass<T>) -> u64
        requires belongs { IsMine self.now pass.old }
        ensures belongs { IsMine self.now pass.new }
        ensures saw { NextIs (pass_view pass.old) result (pass_view pass.new) }
    {
        self.queue.load_table::<Counts>(pass, SUSPENDS_WORD)
    }

    // Goes from the door to the line.
    fn wait_for_others(&self, pass: &mut BarrierPass<T>) -> Arrived
        requires belongs { IsMine self.now pass.old }
        requires spare { CanExtend self.now.queue pass.old }
        requires door { (pass_view pass.old).facts.doing ≡ doing.Door }
        ensures belongs { IsMine self.now pass.new }
        ensures waits { WaitsForOthers (pass_view pass.old) result (pass_view pass.new) }
    {
        match suspend(&self.queue, pass) {
            Suspended::Waits(wait) => Arrived::Later(PartyWait { wait }),
            Suspended::Took { .. } => Arrived::Last,
        }
    }
}
