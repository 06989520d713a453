//! What the number of a pass of a synchronous semaphore stands for: the pass, the places of its
//! waits, and what it owes.

ghost use Rattle.std.specs.Prelude.{◌≡◌, ◌≤◌, ◌<◌, ◌≢◌, All, IsSome, IfSome, None, [], IfOk, OnOk, IfErr, OnErr, vec_len, vec_capacity, true, length};
ghost use Rattle.cqs_rule.specs.Passes.{ample_of, pass_view};
ghost use Rattle.cqs_rule_laws.specs.CallRule.{IsReady};
ghost use Rattle.cqs_sync_semaphore.specs.Calls.{IsMine};
ghost use Rattle.cqs_c_callers.specs.Waits.{HasAt, Apart};
ghost use Rattle.cqs_c_callers.specs.declared.answers.Answer.TheVariants as answer;
ghost use Rattle.cqs_c_callers.specs.declared.verb.Verb.TheVariants as verbs;
ghost use Rattle.cqs_c_sync_callers.specs.Answers.{IsAnswered};
ghost use Rattle.cqs_c_sync_callers.specs.Callers.{StandsAt, OwesJust, IsToken, owed_after};
ghost use Rattle.cqs_c_sync_callers.specs.Seats.{RefusesSplit, HasSplit, RefusesMeet, TakesIn};
ghost use Rattle.cqs_c_sync_callers.specs.Told.{told_released};

use cqs_c_callers::{Answer, Verb, find};
use cqs_rule::{AcquireError, Place, Unparked, Wait};
use cqs_semaphore::{Polled, SemPass, Tried};
use cqs_sync_semaphore::{SyncAcquired, SyncLeft, SyncReleased, SyncSemaphore, Under};

/// A pass, the places of its waits, for which there is room from the start, and what it owes.
#[derive(Drop)]
pub struct SyncSemaphoreCaller {
    pub pass: SemPass<Unparked>,
    pub waits: Vec<Place>,
    pub under: Option<Under>,
}

impl SyncSemaphoreCaller {
    /// The caller of a pass that has done nothing yet, with room for its waits.
    pub fn new(
        semaphore: &SyncSemaphore<Unparked>,
        pass: SemPass<Unparked>,
        room: Vec<Place>,
    ) -> SyncSemaphoreCaller
        requires belongs { IsMine semaphore.now pass }
        requires ready { IsReady (pass_view pass).facts }
        requires waits_for_nothing { (pass_view pass).facts.waits ≡ [] }
        requires empty { room.items ≡ [] }
        ensures stands { StandsAt semaphore.now result }
        ensures pass { result.pass ≡ pass }
        ensures waits { result.waits ≡ room }
        ensures owes_nothing { result.under ≡ None }
    {
        SyncSemaphoreCaller {
            pass,
            waits: room,
            under: None,
        }
    }

    /// One call with the pass.
    pub fn call(&mut self, semaphore: &SyncSemaphore<Unparked>, verb: Verb, number: u64) -> Answer
        requires stands { StandsAt semaphore.now self.old }
        ensures stands { StandsAt semaphore.now self.new }
        ensures answered { IsAnswered verb number self.old result self.new }
    {
        match verb {
            Verb::Enter => self.acquire(semaphore),
            Verb::Try => self.try_acquire(semaphore),
            Verb::Poll => self.poll(semaphore, number),
            Verb::Cancel => self.cancel(semaphore, number),
            Verb::Leave => self.release(semaphore),
            Verb::Finish => self.finish(semaphore),
            Verb::State => self.state(semaphore),
            Verb::Sole => self.sole(semaphore),
        }
    }

    /// Acquires.
    pub fn acquire(&mut self, semaphore: &SyncSemaphore<Unparked>) -> Answer
        requires stands { StandsAt semaphore.now self.old }
        ensures stands { StandsAt semaphore.now self.new }
        ensures owes { IsSome self.old.under → (result ≡ answer.Owes) × (self.new ≡ self.old) }
        ensures full { self.old.under ≡ None → vec_capacity self.old.waits ≤ vec_len self.old.waits
            → (result ≡ answer.Full) × (self.new ≡ self.old) }
        ensures never_crowded { ample_of semaphore.now.queue ≡ true → result ≢ answer.Crowded }
        ensures answered { IsAnswered verbs.Enter 0 self.old result self.new }
    {
        if self.under.is_some() {
            return Answer::Owes;
        }
        if self.waits.len() >= self.waits.capacity() {
            return Answer::Full;
        }
        match semaphore.acquire(&mut self.pass) {
            Ok(SyncAcquired::Now(permit)) => Answer::Now(permit.number()),
            Ok(SyncAcquired::Later(wait)) => {
                let at = semaphore.queue().spend_wait(&mut self.pass, wait);
                self.waits.push_reserved(at);
                Answer::Later(at.index)
            }
            Ok(SyncAcquired::Broke(number)) => Answer::Broke(number),
            Err(AcquireError::Worn) => Answer::Worn,
            Err(AcquireError::Crowded) => Answer::Crowded,
        }
    }

    /// Tries.
    pub fn try_acquire(&mut self, semaphore: &SyncSemaphore<Unparked>) -> Answer
        requires stands { StandsAt semaphore.now self.old }
        ensures stands { StandsAt semaphore.now self.new }
        ensures owes { IsSome self.old.under → (result ≡ answer.Owes) × (self.new ≡ self.old) }
        ensures answered { IsAnswered verbs.Try 0 self.old result self.new }
    {
        if self.under.is_some() {
            return Answer::Owes;
        }
        match semaphore.try_acquire(&mut self.pass) {
            Tried::Got(_) => Answer::Got,
            Tried::Busy => Answer::NoneFree,
            Tried::Contended { saw, found } => Answer::Contended { saw, found },
        }
    }

    /// Looks at the wait of this number.
    pub fn poll(&mut self, semaphore: &SyncSemaphore<Unparked>, number: u64) -> Answer
        requires stands { StandsAt semaphore.now self.old }
        ensures stands { StandsAt semaphore.now self.new }
        ensures owes { IsSome self.old.under → (result ≡ answer.Owes) × (self.new ≡ self.old) }
        ensures no_wait { self.old.under ≡ None → All (λ at. at.index ≢ number) self.old.waits.items
            → (result ≡ answer.NoWait) × (self.new ≡ self.old) }
        ensures answered { IsAnswered verbs.Poll number self.old result self.new }
    {
        if self.under.is_some() {
            return Answer::Owes;
        }
        let Some((i, wait)) = self.token(semaphore, number) else {
            return Answer::NoWait;
        };
        match semaphore.poll(&mut self.pass, wait) {
            Polled::Granted(_) => {
                self.waits.remove(i);
                Answer::Granted
            }
            Polled::Pending(_) => Answer::Pending,
        }
    }

    /// Gives the wait of this number up.
    pub fn cancel(&mut self, semaphore: &SyncSemaphore<Unparked>, number: u64) -> Answer
        requires stands { StandsAt semaphore.now self.old }
        ensures stands { StandsAt semaphore.now self.new }
        ensures owes { IsSome self.old.under → (result ≡ answer.Owes) × (self.new ≡ self.old) }
        ensures no_wait { self.old.under ≡ None → All (λ at. at.index ≢ number) self.old.waits.items
            → (result ≡ answer.NoWait) × (self.new ≡ self.old) }
        ensures answered { IsAnswered verbs.Cancel number self.old result self.new }
    {
        if self.under.is_some() {
            return Answer::Owes;
        }
        let Some((i, wait)) = self.token(semaphore, number) else {
            return Answer::NoWait;
        };
        match semaphore.cancel(&mut self.pass, wait) {
            SyncLeft::Cancelled => {
                self.waits.remove(i);
                Answer::Cancelled
            }
            SyncLeft::TooLate(_) => {
                self.waits.remove(i);
                Answer::TooLate
            }
        }
    }

    /// Gives a permit back. One that is taken back from a broken cell is the pass's again.
    pub fn release(&mut self, semaphore: &SyncSemaphore<Unparked>) -> Answer
        requires stands { StandsAt semaphore.now self.old }
        ensures stands { StandsAt semaphore.now self.new }
        ensures owes { IsSome self.old.under → (result ≡ answer.Owes) × (self.new ≡ self.old) }
        ensures no_permit { self.old.under ≡ None → (pass_view self.old.pass).facts.has.held ≡ 0
            → (result ≡ answer.NoPermit) × (self.new ≡ self.old) }
        ensures never_crowded { ample_of semaphore.now.queue ≡ true → result ≢ answer.Crowded }
        ensures answered { IsAnswered verbs.Leave 0 self.old result self.new }
    {
        if self.under.is_some() {
            return Answer::Owes;
        }
        if self.pass.held() == 0 {
            return Answer::NoPermit;
        }
        let permit = semaphore.permit_of(&self.pass);
        match semaphore.release(&mut self.pass, permit) {
            Ok(released) => self.keep(semaphore, released),
            Err(_) => Answer::Crowded,
        }
    }

    /// Goes on with what is owed.
    pub fn finish(&mut self, semaphore: &SyncSemaphore<Unparked>) -> Answer
        requires stands { StandsAt semaphore.now self.old }
        ensures stands { StandsAt semaphore.now self.new }
        ensures owes_nothing { self.old.under ≡ None
            → (result ≡ answer.OwesNothing) × (self.new ≡ self.old) }
        ensures answered { IsAnswered verbs.Finish 0 self.old result self.new }
    {
        let Some(under) = self.under.take() else {
            return Answer::OwesNothing;
        };
        let released = semaphore.finish(&mut self.pass, under);
        self.keep(semaphore, released)
    }

    /// The state of the semaphore.
    pub fn state(&mut self, semaphore: &SyncSemaphore<Unparked>) -> Answer
        requires stands { StandsAt semaphore.now self.old }
        ensures stands { StandsAt semaphore.now self.new }
        ensures owes { IsSome self.old.under → (result ≡ answer.Owes) × (self.new ≡ self.old) }
        ensures answered { IsAnswered verbs.State 0 self.old result self.new }
    {
        if self.under.is_some() {
            return Answer::Owes;
        }
        Answer::State(semaphore.state(&mut self.pass))
    }

    /// Whether no other pass is there.
    pub fn sole(&mut self, semaphore: &SyncSemaphore<Unparked>) -> Answer
        requires stands { StandsAt semaphore.now self.old }
        ensures stands { StandsAt semaphore.now self.new }
        ensures answered { IsAnswered verbs.Sole 0 self.old result self.new }
        ensures kept { (pass_view self.old.pass).alone ≡ true
            → (pass_view self.new.pass).alone ≡ true }
    {
        Answer::Sole(semaphore.sole(&mut self.pass))
    }

    /// A new caller, with this room for its waits.
    pub fn split(
        &mut self,
        semaphore: &SyncSemaphore<Unparked>,
        room: Vec<Place>,
    ) -> Result<SyncSemaphoreCaller, Answer>
        requires stands { StandsAt semaphore.now self.old }
        requires empty { room.items ≡ [] }
        ensures stands { StandsAt semaphore.now self.new }
        ensures made { IfOk result (λ made. StandsAt semaphore.now made) }
        ensures split { IfOk result (HasSplit semaphore.now self.old self.new) }
        ensures refused { IfErr result (RefusesSplit semaphore.now self.old self.new) }
        ensures number { (pass_view self.new.pass).number ≡ (pass_view self.old.pass).number }
    {
        if self.under.is_some() {
            return Err(Answer::Owes);
        }
        match semaphore.split(&mut self.pass) {
            Ok(pass) => Ok(SyncSemaphoreCaller::new(semaphore, pass, room)),
            Err(_) => Err(Answer::Crowd),
        }
    }

    /// The caller takes in the given one, which has no waits and owes nothing.
    pub fn meet(
        &mut self,
        semaphore: &SyncSemaphore<Unparked>,
        given: SyncSemaphoreCaller,
    ) -> Result<(), (SyncSemaphoreCaller, Answer)>
        requires stands { StandsAt semaphore.now self.old }
        requires given { StandsAt semaphore.now given }
        ensures stands { StandsAt semaphore.now self.new }
        ensures back { IfErr result (λ refused. refused.0 ≡ given) }
        ensures refused { IfErr result (λ refused. RefusesMeet self.old given refused.1) }
        ensures unchanged { OnErr result (self.new ≡ self.old) }
        ensures met { OnOk result (TakesIn self.old given self.new) }
        ensures number { (pass_view self.new.pass).number ≡ (pass_view self.old.pass).number }
    {
        if self.under.is_some() {
            return Err((given, Answer::Owes));
        }
        let SyncSemaphoreCaller { pass, waits, under } = given;
        match semaphore.meet(&mut self.pass, pass) {
            Ok(()) => Ok(()),
            Err((pass, _)) => Err((SyncSemaphoreCaller { pass, waits, under }, Answer::Busy)),
        }
    }

    // The token of the wait of this number, and where it stands among the waits.
    fn token(&mut self, semaphore: &SyncSemaphore<Unparked>, number: u64) -> Option<(usize, Wait)>
        requires stands { StandsAt semaphore.now self.old }
        ensures same { self.new ≡ self.old }
        ensures stands { StandsAt semaphore.now self.new }
        ensures found { IfSome result (λ found. IsToken number self.new found.0 found.1) }
        ensures none { result ≡ None → All (λ at. at.index ≢ number) self.old.waits.items }
    {
        let i = find(self.waits.as_slice(), number)?;
        let at = self.waits[i];
        Some((i, semaphore.queue().wait_of(&mut self.pass, at)))
    }

    // Keeps the token of what is still owed.
    fn keep(&mut self, semaphore: &SyncSemaphore<Unparked>, released: SyncReleased) -> Answer
        requires belongs { IsMine semaphore.now self.old.pass }
        requires free { self.old.under ≡ None }
        requires owes { OwesJust (pass_view self.old.pass).facts (owed_after released) }
        requires waits { All (HasAt (pass_view self.old.pass)) self.old.waits.items }
        requires apart { Apart self.old.waits.items }
        requires every { length self.old.waits.items
            ≡ length (pass_view self.old.pass).facts.waits }
        ensures stands { StandsAt semaphore.now self.new }
        ensures told { result ≡ told_released released }
        ensures pass { self.new.pass ≡ self.old.pass }
    {
        match released {
            SyncReleased::Freed => Answer::Freed,
            SyncReleased::Sent(number) => Answer::Sent(number),
            SyncReleased::Void(number) => Answer::Void(number),
            SyncReleased::Broke(number, _) => Answer::Broke(number),
            SyncReleased::Handling(number, under) => {
                self.under = Some(under);
                Answer::Handling(number)
            }
            SyncReleased::Under(under) => {
                let reached = under.reached();
                self.under = Some(under);
                Answer::Under(reached)
            }
        }
    }
}
