//! What the number of a pass of a barrier stands for: the pass with the parties that it holds, its
//! waits, and what it owes.

ghost use Rattle.std.specs.Prelude.{◌≡◌, ◌≤◌, ◌<◌, ◌≢◌, ◌+◌, All, IsSome, None, [], IfOk, OnOk, OnErr, IfErr, vec_len, vec_capacity, true, length};
ghost use Rattle.cqs_rule_laws.specs.Lists.{Has};
ghost use Rattle.cqs_rule.specs.Passes.{ample_of, pass_view};
ghost use Rattle.cqs_rule.specs.Waits.{place_of};
ghost use Rattle.cqs_rule_laws.specs.CallRule.{IsReady};
ghost use Rattle.cqs_barrier.specs.Calls.{IsMine};
ghost use Rattle.cqs_barrier.specs.Leaving.{HasLeaving, leaving_at};
ghost use Rattle.cqs_barrier.specs.Resuming.{HasOwing};
ghost use Rattle.cqs_barrier.specs.Waits.{wait_in};
ghost use Rattle.cqs_c_latch_callers.specs.BarrierAnswers.{IsAnswered, HasResumed, HasGoneOn};
ghost use Rattle.cqs_c_latch_callers.specs.BarrierCallers.{StandsAt};
ghost use Rattle.cqs_c_latch_callers.specs.BarrierSeats.{RefusesSplit, HasSplit, RefusesMeet, TakesIn};
ghost use Rattle.cqs_c_callers.specs.Tokens.{HasTokens, wait_index};
ghost use Rattle.cqs_c_callers.specs.declared.answers.Answer.TheVariants as answer;
ghost use Rattle.cqs_c_callers.specs.declared.verb.Verb.TheVariants as verbs;

use cqs_barrier::{
    Arrived, Barrier, BarrierPass, Leaving, Owing, PartyLeft, PartyPolled, PartyWait,
};
use cqs_c_callers::{Answer, Verb, take_out};
use cqs_rule::{AcquireError, Unparked};

/// What a pass of a barrier may owe.
#[derive(Drop)]
pub enum PartyOwes {
    /// The last party owes resumptions to the others.
    Others(Owing),
    /// A wait is still to be left.
    Leave(Leaving),
}

/// A pass, its waits, for which there is room from the start, and what it owes.
#[derive(Drop)]
pub struct BarrierCaller {
    pub pass: BarrierPass<Unparked>,
    pub waits: Vec<PartyWait>,
    pub owed: Option<PartyOwes>,
}

impl BarrierCaller {
    /// The caller of a pass that has done nothing yet, with room for its waits.
    pub fn new(
        barrier: &Barrier<Unparked>,
        pass: BarrierPass<Unparked>,
        room: Vec<PartyWait>,
    ) -> BarrierCaller
        requires belongs { IsMine barrier.now pass }
        requires ready { IsReady (pass_view pass).facts }
        requires waits_for_nothing { (pass_view pass).facts.waits ≡ [] }
        requires empty { room.items ≡ [] }
        ensures stands { StandsAt barrier.now result }
        ensures pass { result.pass ≡ pass }
        ensures waits { result.waits ≡ room }
        ensures owes_nothing { result.owed ≡ None }
    {
        BarrierCaller {
            pass,
            waits: room,
            owed: None,
        }
    }

    /// One call with the pass.
    pub fn call(&mut self, barrier: &Barrier<Unparked>, verb: Verb, number: u64) -> Answer
        requires stands { StandsAt barrier.now self.old }
        ensures stands { StandsAt barrier.now self.new }
        ensures answered { IsAnswered verb number self.old result self.new }
    {
        match verb {
            Verb::Enter => self.arrive(barrier),
            Verb::Poll => self.poll(barrier, number),
            Verb::Cancel => self.cancel(barrier, number),
            Verb::Finish => self.finish(barrier),
            Verb::Sole => self.sole(barrier),
            Verb::Try | Verb::Leave | Verb::State => Answer::NoCall,
        }
    }

    /// A party of the pass arrives.
    pub fn arrive(&mut self, barrier: &Barrier<Unparked>) -> Answer
        requires stands { StandsAt barrier.now self.old }
        ensures stands { StandsAt barrier.now self.new }
        ensures owes { IsSome self.old.owed → (result ≡ answer.Owes) × (self.new ≡ self.old) }
        ensures full { self.old.owed ≡ None → vec_capacity self.old.waits ≤ vec_len self.old.waits
            → (result ≡ answer.Full) × (self.new ≡ self.old) }
        ensures no_party { self.old.owed ≡ None
            → vec_len self.old.waits < vec_capacity self.old.waits
            → (pass_view self.old.pass).facts.has.held ≡ 0
            → (result ≡ answer.NoParty) × (self.new ≡ self.old) }
        ensures never_crowded { ample_of barrier.now.queue ≡ true → result ≢ answer.Crowded }
        ensures answered { IsAnswered verbs.Enter 0 self.old result self.new }
    {
        if self.owed.is_some() {
            return Answer::Owes;
        }
        if self.waits.len() >= self.waits.capacity() {
            return Answer::Full;
        }
        if self.pass.held() == 0 {
            return Answer::NoParty;
        }
        match barrier.arrive(&mut self.pass) {
            Ok(Arrived::Last) => Answer::Last,
            Ok(Arrived::LastOwing(owing)) => {
                let reached = owing.reached();
                self.owed = Some(PartyOwes::Others(owing));
                Answer::LastOwing(reached)
            }
            Ok(Arrived::Later(wait)) => {
                let number = wait.number();
                self.waits.push_reserved(wait);
                Answer::Later(number)
            }
            Err(AcquireError::Worn) => Answer::Worn,
            Err(AcquireError::Crowded) => Answer::Crowded,
        }
    }

    /// Looks at the wait of this number.
    pub fn poll(&mut self, barrier: &Barrier<Unparked>, number: u64) -> Answer
        requires stands { StandsAt barrier.now self.old }
        ensures stands { StandsAt barrier.now self.new }
        ensures owes { IsSome self.old.owed → (result ≡ answer.Owes) × (self.new ≡ self.old) }
        ensures no_wait { self.old.owed ≡ None
            → All (λ wait. (place_of (wait_in wait)).index ≢ number) self.old.waits.items
            → (result ≡ answer.NoWait) × (self.new ≡ self.old) }
        ensures answered { IsAnswered verbs.Poll number self.old result self.new }
    {
        if self.owed.is_some() {
            return Answer::Owes;
        }
        let Some(wait) = take_out(&mut self.waits, number) else {
            return Answer::NoWait;
        };
        match barrier.poll(&mut self.pass, wait) {
            PartyPolled::Through => Answer::Through,
            PartyPolled::Pending(wait) => {
                self.waits.push_reserved(wait);
                Answer::Pending
            }
        }
    }

    /// Gives the wait of this number up.
    pub fn cancel(&mut self, barrier: &Barrier<Unparked>, number: u64) -> Answer
        requires stands { StandsAt barrier.now self.old }
        ensures stands { StandsAt barrier.now self.new }
        ensures owes { IsSome self.old.owed → (result ≡ answer.Owes) × (self.new ≡ self.old) }
        ensures no_wait { self.old.owed ≡ None
            → All (λ wait. (place_of (wait_in wait)).index ≢ number) self.old.waits.items
            → (result ≡ answer.NoWait) × (self.new ≡ self.old) }
        ensures answered { IsAnswered verbs.Cancel number self.old result self.new }
    {
        if self.owed.is_some() {
            return Answer::Owes;
        }
        let Some(wait) = take_out(&mut self.waits, number) else {
            return Answer::NoWait;
        };
        match barrier.cancel(&mut self.pass, wait) {
            PartyLeft::Withdrawn => Answer::Cancelled,
            PartyLeft::TooLate => Answer::TooLate,
            PartyLeft::Contended {
                saw,
                found,
                leaving,
            } => {
                self.owed = Some(PartyOwes::Leave(leaving));
                Answer::Contended {
                    saw: i64::from(saw),
                    found: i64::from(found),
                }
            }
        }
    }

    /// Goes on with what is owed.
    pub fn finish(&mut self, barrier: &Barrier<Unparked>) -> Answer
        requires stands { StandsAt barrier.now self.old }
        ensures stands { StandsAt barrier.now self.new }
        ensures owes_nothing { self.old.owed ≡ None
            → (result ≡ answer.OwesNothing) × (self.new ≡ self.old) }
        ensures answered { IsAnswered verbs.Finish 0 self.old result self.new }
    {
        match self.owed.take() {
            None => Answer::OwesNothing,
            Some(PartyOwes::Others(owing)) => self.resume(barrier, owing),
            Some(PartyOwes::Leave(leaving)) => self.leave(barrier, leaving),
        }
    }

    /// Whether no other pass is there.
    pub fn sole(&mut self, barrier: &Barrier<Unparked>) -> Answer
        requires stands { StandsAt barrier.now self.old }
        ensures stands { StandsAt barrier.now self.new }
        ensures answered { IsAnswered verbs.Sole 0 self.old result self.new }
        ensures kept { (pass_view self.old.pass).alone ≡ true
            → (pass_view self.new.pass).alone ≡ true }
    {
        Answer::Sole(barrier.sole(&mut self.pass))
    }

    /// A new caller, with so many of the parties, and this room for its waits.
    pub fn split(
        &mut self,
        barrier: &Barrier<Unparked>,
        room: Vec<PartyWait>,
        gives: u32,
    ) -> Result<BarrierCaller, Answer>
        requires stands { StandsAt barrier.now self.old }
        requires empty { room.items ≡ [] }
        ensures stands { StandsAt barrier.now self.new }
        ensures made { IfOk result (λ made. StandsAt barrier.now made) }
        ensures split { IfOk result (HasSplit barrier.now gives self.old self.new) }
        ensures refused { IfErr result (RefusesSplit barrier.now gives self.old self.new) }
        ensures number { (pass_view self.new.pass).number ≡ (pass_view self.old.pass).number }
    {
        if self.owed.is_some() {
            return Err(Answer::Owes);
        }
        if self.pass.held() < gives {
            return Err(Answer::NoParty);
        }
        match barrier.split(&mut self.pass, gives) {
            Ok(pass) => Ok(BarrierCaller::new(barrier, pass, room)),
            Err(_) => Err(Answer::Crowd),
        }
    }

    /// The caller takes in the given one, which has no waits and owes nothing, with its parties.
    pub fn meet(
        &mut self,
        barrier: &Barrier<Unparked>,
        given: BarrierCaller,
    ) -> Result<(), (BarrierCaller, Answer)>
        requires stands { StandsAt barrier.now self.old }
        requires given { StandsAt barrier.now given }
        ensures stands { StandsAt barrier.now self.new }
        ensures back { IfErr result (λ refused. refused.0 ≡ given) }
        ensures refused { IfErr result (λ refused. RefusesMeet self.old given refused.1) }
        ensures unchanged { OnErr result (self.new ≡ self.old) }
        ensures met { OnOk result (TakesIn self.old given self.new) }
        ensures number { (pass_view self.new.pass).number ≡ (pass_view self.old.pass).number }
    {
        if self.owed.is_some() {
            return Err((given, Answer::Owes));
        }
        if given.owed.is_some() {
            return Err((given, Answer::Busy));
        }
        let BarrierCaller { pass, waits, owed } = given;
        match barrier.meet(&mut self.pass, pass) {
            Ok(()) => Ok(()),
            Err((pass, _)) => Err((BarrierCaller { pass, waits, owed }, Answer::Busy)),
        }
    }

    // Goes on with the resumptions that the last party owes.
    fn resume(&mut self, barrier: &Barrier<Unparked>, owing: Owing) -> Answer
        requires belongs { IsMine barrier.now self.old.pass }
        requires free { self.old.owed ≡ None }
        requires owes { HasOwing (pass_view self.old.pass).facts owing }
        requires waits { HasTokens wait_in (pass_view self.old.pass) self.old.waits.items }
        requires every { length self.old.waits.items
            ≡ length (pass_view self.old.pass).facts.waits }
        ensures stands { StandsAt barrier.now self.new }
        ensures resumed { HasResumed (pass_view self.old.pass) result (pass_view self.new.pass) }
    {
        match barrier.finish(&mut self.pass, owing) {
            Ok(()) => Answer::Finished,
            Err(owing) => {
                let reached = owing.reached();
                self.owed = Some(PartyOwes::Others(owing));
                Answer::Under(reached)
            }
        }
    }

    // Goes on with a leaving.
    fn leave(&mut self, barrier: &Barrier<Unparked>, leaving: Leaving) -> Answer
        requires belongs { IsMine barrier.now self.old.pass }
        requires free { self.old.owed ≡ None }
        requires owes { HasLeaving (pass_view self.old.pass) leaving }
        requires waits { HasTokens wait_in (pass_view self.old.pass) self.old.waits.items }
        requires apart { All (λ x. wait_index (wait_in x) ≢ (leaving_at leaving).index)
            self.old.waits.items }
        requires every { length self.old.waits.items + 1
            ≡ length (pass_view self.old.pass).facts.waits }
        requires has_yet { Has (leaving_at leaving).index (pass_view self.old.pass).facts.waits }
        ensures stands { StandsAt barrier.now self.new }
        ensures went { HasGoneOn (leaving_at leaving).index (pass_view self.old.pass) result
            (pass_view self.new.pass) }
    {
        match barrier.leave_again(&mut self.pass, leaving) {
            PartyLeft::Withdrawn => Answer::Cancelled,
            PartyLeft::TooLate => Answer::TooLate,
            PartyLeft::Contended {
                saw,
                found,
                leaving,
            } => {
                self.owed = Some(PartyOwes::Leave(leaving));
                Answer::Contended {
                    saw: i64::from(saw),
                    found: i64::from(found),
                }
            }
        }
    }
}
