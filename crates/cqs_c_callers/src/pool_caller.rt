//! What the number of a pass of a pool stands for: the pass, its waits, the elements that it has in
//! hand, and what it owes.

ghost use Rattle.std.specs.Prelude.{◌≡◌, ◌≤◌, ◌<◌, ◌≢◌, All, IsSome, None, [], IfOk, OnOk, OnErr, IfErr, vec_len, vec_capacity, true, length};
ghost use Rattle.cqs_rule.specs.Passes.{ample_of, pass_view};
ghost use Rattle.cqs_rule.specs.Waits.{place_of};
ghost use Rattle.cqs_rule_laws.specs.CallRule.{IsReady};
ghost use Rattle.cqs_pool.specs.Calls.{IsMine};
ghost use Rattle.cqs_pool.specs.Owed.{owed_after};
ghost use Rattle.cqs_pool.specs.Elements.{number_of};
ghost use Rattle.cqs_c_callers.specs.PoolAnswers.{IsAnswered};
ghost use Rattle.cqs_c_callers.specs.PoolSeats.{RefusesSplit, HasSplit, RefusesMeet, TakesIn};
ghost use Rattle.cqs_c_callers.specs.PoolTold.{told_placed};
ghost use Rattle.cqs_c_callers.specs.PoolCallers.{StandsAt, OwesJust, HasElements};
ghost use Rattle.cqs_c_callers.specs.Tokens.{HasTokens};
ghost use Rattle.cqs_c_callers.specs.declared.answers.Answer.TheVariants as answer;
ghost use Rattle.cqs_c_callers.specs.declared.verb.Verb.TheVariants as verbs;

use crate::answers::Answer;
use crate::tokens::take_out;
use crate::verb::Verb;
use cqs_pool::{Element, Placed, Pool, PoolLeft, PoolPass, PoolPolled, Taking};
use cqs_rule::{AcquireError, Under, Unparked, Wait};

/// A pass, its waits and its elements, for which there is room from the start, and what it owes.
#[derive(Drop)]
pub struct PoolCaller {
    pub pass: PoolPass<Unparked>,
    pub waits: Vec<Wait>,
    pub elements: Vec<Element>,
    pub under: Option<Under>,
}

impl PoolCaller {
    /// The caller of a pass that has done nothing yet, with room for its waits and its elements.
    pub fn new(
        pool: &Pool<Unparked>,
        pass: PoolPass<Unparked>,
        waits: Vec<Wait>,
        elements: Vec<Element>,
    ) -> PoolCaller
        requires belongs { IsMine pool.now pass }
        requires ready { IsReady (pass_view pass).facts }
        requires waits_for_nothing { (pass_view pass).facts.waits ≡ [] }
        requires has_nothing { (pass_view pass).facts.has.slots ≡ [] }
        requires no_waits { waits.items ≡ [] }
        requires no_elements { elements.items ≡ [] }
        ensures stands { StandsAt pool.now result }
        ensures pass { result.pass ≡ pass }
        ensures waits { result.waits ≡ waits }
        ensures elements { result.elements ≡ elements }
        ensures owes_nothing { result.under ≡ None }
    {
        PoolCaller {
            pass,
            waits,
            elements,
            under: None,
        }
    }

    /// One call with the pass. `number` is that of a wait or of an element.
    pub fn call(&mut self, pool: &Pool<Unparked>, verb: Verb, number: u64) -> Answer
        requires stands { StandsAt pool.now self.old }
        ensures stands { StandsAt pool.now self.new }
        ensures answered { IsAnswered verb number self.old result self.new }
    {
        match verb {
            Verb::Enter => self.take(pool),
            Verb::Poll => self.poll(pool, number),
            Verb::Cancel => self.cancel(pool, number),
            Verb::Leave => self.put(pool, number),
            Verb::Finish => self.finish(pool),
            Verb::Sole => self.sole(pool),
            Verb::Try | Verb::State => Answer::NoCall,
        }
    }

    /// Takes an element.
    pub fn take(&mut self, pool: &Pool<Unparked>) -> Answer
        requires stands { StandsAt pool.now self.old }
        ensures stands { StandsAt pool.now self.new }
        ensures owes { IsSome self.old.under → (result ≡ answer.Owes) × (self.new ≡ self.old) }
        ensures full { self.old.under ≡ None → vec_capacity self.old.waits ≤ vec_len self.old.waits
            → (result ≡ answer.Full) × (self.new ≡ self.old) }
        ensures never_crowded { ample_of pool.now.queue ≡ true → result ≢ answer.Crowded }
        ensures answered { IsAnswered verbs.Enter 0 self.old result self.new }
    {
        if self.under.is_some() {
            return Answer::Owes;
        }
        if self.waits.len() >= self.waits.capacity() {
            return Answer::Full;
        }
        if self.elements.len() >= self.elements.capacity() {
            return Answer::Full;
        }
        match pool.take(&mut self.pass) {
            Ok(Taking::Took(element)) => {
                let number = element.number();
                self.elements.push_reserved(element);
                Answer::Took(number)
            }
            Ok(Taking::Later(wait)) => {
                let number = wait.number();
                self.waits.push_reserved(wait);
                Answer::Later(number)
            }
            Err(AcquireError::Worn) => Answer::Worn,
            Err(AcquireError::Crowded) => Answer::Crowded,
        }
    }

    /// Looks at the wait of this number.
    pub fn poll(&mut self, pool: &Pool<Unparked>, number: u64) -> Answer
        requires stands { StandsAt pool.now self.old }
        ensures stands { StandsAt pool.now self.new }
        ensures owes { IsSome self.old.under → (result ≡ answer.Owes) × (self.new ≡ self.old) }
        ensures no_wait { self.old.under ≡ None
            → vec_len self.old.elements < vec_capacity self.old.elements
            → All (λ wait. (place_of wait).index ≢ number) self.old.waits.items
            → (result ≡ answer.NoWait) × (self.new ≡ self.old) }
        ensures answered { IsAnswered verbs.Poll number self.old result self.new }
    {
        if self.under.is_some() {
            return Answer::Owes;
        }
        if self.elements.len() >= self.elements.capacity() {
            return Answer::Full;
        }
        let Some(wait) = take_out(&mut self.waits, number) else {
            return Answer::NoWait;
        };
        match pool.poll(&mut self.pass, wait) {
            PoolPolled::Granted(element) => {
                let number = element.number();
                self.elements.push_reserved(element);
                Answer::Took(number)
            }
            PoolPolled::Pending(wait) => {
                self.waits.push_reserved(wait);
                Answer::Pending
            }
        }
    }

    /// Gives the wait of this number up.
    pub fn cancel(&mut self, pool: &Pool<Unparked>, number: u64) -> Answer
        requires stands { StandsAt pool.now self.old }
        ensures stands { StandsAt pool.now self.new }
        ensures owes { IsSome self.old.under → (result ≡ answer.Owes) × (self.new ≡ self.old) }
        ensures no_wait { self.old.under ≡ None
            → vec_len self.old.elements < vec_capacity self.old.elements
            → All (λ wait. (place_of wait).index ≢ number) self.old.waits.items
            → (result ≡ answer.NoWait) × (self.new ≡ self.old) }
        ensures answered { IsAnswered verbs.Cancel number self.old result self.new }
    {
        if self.under.is_some() {
            return Answer::Owes;
        }
        if self.elements.len() >= self.elements.capacity() {
            return Answer::Full;
        }
        let Some(wait) = take_out(&mut self.waits, number) else {
            return Answer::NoWait;
        };
        match pool.cancel(&mut self.pass, wait) {
            PoolLeft::Cancelled(None) => Answer::Cancelled,
            PoolLeft::Cancelled(Some(under)) => {
                let reached = under.reached();
                self.under = Some(under);
                Answer::CancelledOwing(reached)
            }
            PoolLeft::TooLate(element) => {
                let number = element.number();
                self.elements.push_reserved(element);
                Answer::LateTook(number)
            }
        }
    }

    /// Puts the element of this number back. One that is refused as crowded stays with the pass.
    pub fn put(&mut self, pool: &Pool<Unparked>, number: u64) -> Answer
        requires stands { StandsAt pool.now self.old }
        ensures stands { StandsAt pool.now self.new }
        ensures owes { IsSome self.old.under → (result ≡ answer.Owes) × (self.new ≡ self.old) }
        ensures no_element { self.old.under ≡ None
            → All (λ x. number_of x ≢ number) self.old.elements.items
            → (result ≡ answer.NoElement) × (self.new ≡ self.old) }
        ensures never_crowded { ample_of pool.now.queue ≡ true → result ≢ answer.Crowded }
        ensures answered { IsAnswered verbs.Leave number self.old result self.new }
    {
        if self.under.is_some() {
            return Answer::Owes;
        }
        let Some(element) = take_out(&mut self.elements, number) else {
            return Answer::NoElement;
        };
        match pool.put(&mut self.pass, element) {
            Ok(placed) => self.keep(pool, placed),
            Err((element, _)) => {
                self.elements.push_reserved(element);
                Answer::Crowded
            }
        }
    }

    /// Goes on with what is owed.
    pub fn finish(&mut self, pool: &Pool<Unparked>) -> Answer
        requires stands { StandsAt pool.now self.old }
        ensures stands { StandsAt pool.now self.new }
        ensures owes_nothing { self.old.under ≡ None
            → (result ≡ answer.OwesNothing) × (self.new ≡ self.old) }
        ensures answered { IsAnswered verbs.Finish 0 self.old result self.new }
    {
        let Some(under) = self.under.take() else {
            return Answer::OwesNothing;
        };
        let placed = pool.finish(&mut self.pass, under);
        self.keep(pool, placed)
    }

    /// Whether no other pass is there.
    pub fn sole(&mut self, pool: &Pool<Unparked>) -> Answer
        requires stands { StandsAt pool.now self.old }
        ensures stands { StandsAt pool.now self.new }
        ensures answered { IsAnswered verbs.Sole 0 self.old result self.new }
        ensures kept { (pass_view self.old.pass).alone ≡ true
            → (pass_view self.new.pass).alone ≡ true }
    {
        Answer::Sole(pool.sole(&mut self.pass))
    }

    /// A new caller, with this room for its waits and its elements.
    pub fn split(
        &mut self,
        pool: &Pool<Unparked>,
        waits: Vec<Wait>,
        elements: Vec<Element>,
    ) -> Result<PoolCaller, Answer>
        requires stands { StandsAt pool.now self.old }
        requires no_waits { waits.items ≡ [] }
        requires no_elements { elements.items ≡ [] }
        ensures stands { StandsAt pool.now self.new }
        ensures made { IfOk result (λ made. StandsAt pool.now made) }
        ensures split { IfOk result (HasSplit pool.now self.old self.new) }
        ensures refused { IfErr result (RefusesSplit pool.now self.old self.new) }
        ensures number { (pass_view self.new.pass).number ≡ (pass_view self.old.pass).number }
    {
        if self.under.is_some() {
            return Err(Answer::Owes);
        }
        match pool.split(&mut self.pass) {
            Ok(pass) => Ok(PoolCaller::new(pool, pass, waits, elements)),
            Err(_) => Err(Answer::Crowd),
        }
    }

    /// The caller takes in the given one, which has no waits and no elements, and owes nothing.
    pub fn meet(
        &mut self,
        pool: &Pool<Unparked>,
        given: PoolCaller,
    ) -> Result<(), (PoolCaller, Answer)>
        requires stands { StandsAt pool.now self.old }
        requires given { StandsAt pool.now given }
        ensures stands { StandsAt pool.now self.new }
        ensures back { IfErr result (λ refused. refused.0 ≡ given) }
        ensures refused { IfErr result (λ refused. RefusesMeet self.old given refused.1) }
        ensures unchanged { OnErr result (self.new ≡ self.old) }
        ensures met { OnOk result (TakesIn self.old given self.new) }
        ensures number { (pass_view self.new.pass).number ≡ (pass_view self.old.pass).number }
    {
        if self.under.is_some() {
            return Err((given, Answer::Owes));
        }
        if !given.elements.is_empty() {
            return Err((given, Answer::Busy));
        }
        let PoolCaller {
            pass,
            waits,
            elements,
            under,
        } = given;
        match pool.meet(&mut self.pass, pass) {
            Ok(()) => Ok(()),
            Err((pass, _)) => {
                let given = PoolCaller {
                    pass,
                    waits,
                    elements,
                    under,
                };
                Err((given, Answer::Busy))
            }
        }
    }

    // Keeps the token of what is still owed.
    fn keep(&mut self, pool: &Pool<Unparked>, placed: Placed) -> Answer
        requires belongs { IsMine pool.now self.old.pass }
        requires free { self.old.under ≡ None }
        requires owes { OwesJust (pass_view self.old.pass).facts (owed_after placed) }
        requires waits { HasTokens (λ wait. wait) (pass_view self.old.pass) self.old.waits.items }
        requires every { length self.old.waits.items
            ≡ length (pass_view self.old.pass).facts.waits }
        requires elements { HasElements (pass_view self.old.pass).facts self.old.elements.items }
        ensures stands { StandsAt pool.now self.new }
        ensures told { result ≡ told_placed placed }
        ensures pass { self.new.pass ≡ self.old.pass }
    {
        match placed {
            Placed::Sent(number) => Answer::Sent(number),
            Placed::Left(number) => Answer::Left(number),
            Placed::Under(under) => {
                let reached = under.reached();
                self.under = Some(under);
                Answer::Under(reached)
            }
        }
    }
}
