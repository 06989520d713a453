//! What the number of a pass of a latch stands for: the pass, its waits, and what it owes.

ghost use Rattle.std.specs.Prelude.{◌≡◌, ◌≤◌, ◌<◌, ◌≢◌, All, IsSome, None, [], IfOk, OnOk, OnErr, IfErr, vec_len, vec_capacity, true};
ghost use Rattle.cqs_rule.specs.Passes.{ample_of, pass_view};
ghost use Rattle.cqs_rule.specs.Waits.{place_of};
ghost use Rattle.cqs_rule_laws.specs.CallRule.{IsReady};
ghost use Rattle.cqs_latch.specs.Calls.{IsMine};
ghost use Rattle.cqs_c_latch_callers.specs.LatchAnswers.{IsAnswered};
ghost use Rattle.cqs_c_latch_callers.specs.LatchSeats.{RefusesSplit, HasSplit, RefusesMeet, TakesIn};
ghost use Rattle.cqs_c_latch_callers.specs.LatchCallers.{StandsAt};
ghost use Rattle.cqs_c_callers.specs.declared.answers.Answer.TheVariants as answer;
ghost use Rattle.cqs_c_callers.specs.declared.verb.Verb.TheVariants as verbs;

use cqs_c_callers::{Answer, Verb, take_out};
use cqs_latch::{Down, Latch, LatchLeft, LatchPass, LatchPolled, LatchWait, Owed};
use cqs_rule::{AcquireError, Unparked, Wait};

/// A pass, its waits, for which there is room from the start, and what it owes.
#[derive(Drop)]
pub struct LatchCaller {
    pub pass: LatchPass<Unparked>,
    pub waits: Vec<Wait>,
    pub owed: Option<Owed>,
}

impl LatchCaller {
    /// The caller of a pass that has done nothing yet, with room for its waits.
    pub fn new(latch: &Latch<Unparked>, pass: LatchPass<Unparked>, room: Vec<Wait>) -> LatchCaller
        requires belongs { IsMine latch.now pass }
        requires ready { IsReady (pass_view pass).facts }
        requires waits_for_nothing { (pass_view pass).facts.waits ≡ [] }
        requires empty { room.items ≡ [] }
        ensures stands { StandsAt latch.now result }
        ensures pass { result.pass ≡ pass }
        ensures waits { result.waits ≡ room }
        ensures owes_nothing { result.owed ≡ None }
    {
        LatchCaller {
            pass,
            waits: room,
            owed: None,
        }
    }

    /// One call with the pass.
    pub fn call(&mut self, latch: &Latch<Unparked>, verb: Verb, number: u64) -> Answer
        requires stands { StandsAt latch.now self.old }
        ensures stands { StandsAt latch.now self.new }
        ensures answered { IsAnswered latch.now verb number self.old result self.new }
    {
        match verb {
            Verb::Enter => self.wait(latch),
            Verb::Poll => self.poll(latch, number),
            Verb::Cancel => self.cancel(latch, number),
            Verb::Leave => self.count_down(latch),
            Verb::Finish => self.finish(latch),
            Verb::Sole => self.sole(latch),
            Verb::Try | Verb::State => Answer::NoCall,
        }
    }

    /// Waits for the latch.
    pub fn wait(&mut self, latch: &Latch<Unparked>) -> Answer
        requires stands { StandsAt latch.now self.old }
        ensures stands { StandsAt latch.now self.new }
        ensures owes { IsSome self.old.owed → (result ≡ answer.Owes) × (self.new ≡ self.old) }
        ensures full { self.old.owed ≡ None → vec_capacity self.old.waits ≤ vec_len self.old.waits
            → (result ≡ answer.Full) × (self.new ≡ self.old) }
        ensures never_crowded { ample_of latch.now.queue ≡ true → result ≢ answer.Crowded }
        ensures answered { IsAnswered latch.now verbs.Enter 0 self.old result self.new }
    {
        if self.owed.is_some() {
            return Answer::Owes;
        }
        if self.waits.len() >= self.waits.capacity() {
            return Answer::Full;
        }
        match latch.wait(&mut self.pass) {
            Ok(LatchWait::Passed) => Answer::Passed,
            Ok(LatchWait::Later(wait)) => {
                let number = wait.number();
                self.waits.push_reserved(wait);
                Answer::Later(number)
            }
            Err(AcquireError::Worn) => Answer::Worn,
            Err(AcquireError::Crowded) => Answer::Crowded,
        }
    }

    /// Looks at the wait of this number.
    pub fn poll(&mut self, latch: &Latch<Unparked>, number: u64) -> Answer
        requires stands { StandsAt latch.now self.old }
        ensures stands { StandsAt latch.now self.new }
        ensures owes { IsSome self.old.owed → (result ≡ answer.Owes) × (self.new ≡ self.old) }
        ensures no_wait { self.old.owed ≡ None
            → All (λ wait. (place_of wait).index ≢ number) self.old.waits.items
            → (result ≡ answer.NoWait) × (self.new ≡ self.old) }
        ensures answered { IsAnswered latch.now verbs.Poll number self.old result self.new }
    {
        if self.owed.is_some() {
            return Answer::Owes;
        }
        let Some(wait) = take_out(&mut self.waits, number) else {
            return Answer::NoWait;
        };
        match latch.poll(&mut self.pass, wait) {
            LatchPolled::Through => Answer::Through,
            LatchPolled::Pending(wait) => {
                self.waits.push_reserved(wait);
                Answer::Pending
            }
        }
    }

    /// Gives the wait of this number up.
    pub fn cancel(&mut self, latch: &Latch<Unparked>, number: u64) -> Answer
        requires stands { StandsAt latch.now self.old }
        ensures stands { StandsAt latch.now self.new }
        ensures owes { IsSome self.old.owed → (result ≡ answer.Owes) × (self.new ≡ self.old) }
        ensures no_wait { self.old.owed ≡ None
            → All (λ wait. (place_of wait).index ≢ number) self.old.waits.items
            → (result ≡ answer.NoWait) × (self.new ≡ self.old) }
        ensures answered { IsAnswered latch.now verbs.Cancel number self.old result self.new }
    {
        if self.owed.is_some() {
            return Answer::Owes;
        }
        let Some(wait) = take_out(&mut self.waits, number) else {
            return Answer::NoWait;
        };
        match latch.cancel(&mut self.pass, wait) {
            LatchLeft::Gone => Answer::Cancelled,
            LatchLeft::GoneOwing(owed) => {
                let reached = owed.reached();
                self.owed = Some(owed);
                Answer::CancelledOwing(reached)
            }
            LatchLeft::TooLate => Answer::TooLate,
        }
    }

    /// Counts the latch down.
    pub fn count_down(&mut self, latch: &Latch<Unparked>) -> Answer
        requires stands { StandsAt latch.now self.old }
        ensures stands { StandsAt latch.now self.new }
        ensures owes { IsSome self.old.owed → (result ≡ answer.Owes) × (self.new ≡ self.old) }
        ensures never_crowded { ample_of latch.now.queue ≡ true → result ≢ answer.Crowded }
        ensures answered { IsAnswered latch.now verbs.Leave 0 self.old result self.new }
    {
        if self.owed.is_some() {
            return Answer::Owes;
        }
        match latch.count_down(&mut self.pass) {
            Ok(Down::Left(left)) => Answer::Counted(left),
            Ok(Down::Last) => Answer::Last,
            Ok(Down::LastOwing(owed)) => {
                let reached = owed.reached();
                self.owed = Some(owed);
                Answer::LastOwing(reached)
            }
            Ok(Down::Already) => Answer::Already,
            Err(_) => Answer::Crowded,
        }
    }

    /// Goes on with what is owed.
    pub fn finish(&mut self, latch: &Latch<Unparked>) -> Answer
        requires stands { StandsAt latch.now self.old }
        ensures stands { StandsAt latch.now self.new }
        ensures owes_nothing { self.old.owed ≡ None
            → (result ≡ answer.OwesNothing) × (self.new ≡ self.old) }
        ensures answered { IsAnswered latch.now verbs.Finish 0 self.old result self.new }
    {
        let Some(owed) = self.owed.take() else {
            return Answer::OwesNothing;
        };
        match latch.finish(&mut self.pass, owed) {
            Ok(()) => Answer::Finished,
            Err(owed) => {
                let reached = owed.reached();
                self.owed = Some(owed);
                Answer::Under(reached)
            }
        }
    }

    /// Whether no other pass is there.
    pub fn sole(&mut self, latch: &Latch<Unparked>) -> Answer
        requires stands { StandsAt latch.now self.old }
        ensures stands { StandsAt latch.now self.new }
        ensures answered { IsAnswered latch.now verbs.Sole 0 self.old result self.new }
        ensures kept { (pass_view self.old.pass).alone ≡ true
            → (pass_view self.new.pass).alone ≡ true }
    {
        Answer::Sole(latch.sole(&mut self.pass))
    }

    /// A new caller, with this room for its waits.
    pub fn split(&mut self, latch: &Latch<Unparked>, room: Vec<Wait>) -> Result<LatchCaller, Answer>
        requires stands { StandsAt latch.now self.old }
        requires empty { room.items ≡ [] }
        ensures stands { StandsAt latch.now self.new }
        ensures made { IfOk result (λ made. StandsAt latch.now made) }
        ensures split { IfOk result (HasSplit latch.now self.old self.new) }
        ensures refused { IfErr result (RefusesSplit latch.now self.old self.new) }
        ensures number { (pass_view self.new.pass).number ≡ (pass_view self.old.pass).number }
    {
        if self.owed.is_some() {
            return Err(Answer::Owes);
        }
        match latch.split(&mut self.pass) {
            Ok(pass) => Ok(LatchCaller::new(latch, pass, room)),
            Err(_) => Err(Answer::Crowd),
        }
    }

    /// The caller takes in the given one, which has no waits and owes nothing.
    pub fn meet(
        &mut self,
        latch: &Latch<Unparked>,
        given: LatchCaller,
    ) -> Result<(), (LatchCaller, Answer)>
        requires stands { StandsAt latch.now self.old }
        requires given { StandsAt latch.now given }
        ensures stands { StandsAt latch.now self.new }
        ensures back { IfErr result (λ refused. refused.0 ≡ given) }
        ensures refused { IfErr result (λ refused. RefusesMeet self.old given refused.1) }
        ensures unchanged { OnErr result (self.new ≡ self.old) }
        ensures met { OnOk result (TakesIn self.old given self.new) }
        ensures number { (pass_view self.new.pass).number ≡ (pass_view self.old.pass).number }
    {
        if self.owed.is_some() {
            return Err((given, Answer::Owes));
        }
        let LatchCaller { pass, waits, owed } = given;
        match latch.meet(&mut self.pass, pass) {
            Ok(()) => Ok(()),
            Err((pass, _)) => Err((LatchCaller { pass, waits, owed }, Answer::Busy)),
        }
    }
}
