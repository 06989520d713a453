//! A semaphore with one caller, and what the caller has: its permits, its waits, and what it owes.

ghost use Rattle.std.specs.Prelude.{◌≡◌, ◌<◌, All, IfOk, OnOk, None};
ghost use Rattle.cqs_rule.specs.Passes.{pass_view};
ghost use Rattle.cqs_rule.specs.Waits.{HasWait};
ghost use Rattle.cqs_semaphore.specs.Calls.{IsMine};
ghost use Rattle.cqs_semaphore.specs.Owed.{owed_after};
ghost use Rattle.cqs_test_semaphore.specs.Callers.{Stands, HasParted, IsTaken, OwesJust};

use crate::answers::Answer;
use cqs_rule::{AcquireError, Config, MakeError, Under, Wait};
use cqs_semaphore::{Acquired, CancelAnswer, Permit, Polled, Released, SemPass, Semaphore, Tried};
use std::alloc::{AllocError, Global};

/// A semaphore with one caller.
#[derive(Drop)]
pub struct Caller {
    pub semaphore: Semaphore,
    pub pass: SemPass,
    pub permits: Vec<Permit>,
    pub waits: Vec<Wait>,
    pub under: Option<Under>,
}

impl Caller {
    /// A caller of a new semaphore, who has nothing.
    pub fn new(alloc: Global, permits: u32, config: Config) -> Result<Caller, MakeError>
        ensures { IfOk result (λ caller. Stands caller) }
    {
        let (semaphore, pass) = Semaphore::new(alloc, permits, config)?;
        Ok(Caller {
            semaphore,
            pass,
            permits: Vec::new(alloc),
            waits: Vec::new(alloc),
            under: None,
        })
    }

    /// Acquires.
    pub fn acquire(&mut self) -> Result<Answer, AllocError>
        requires stands { Stands self.old }
        requires free { self.old.under ≡ None }
        ensures { OnOk result (Stands self.new) }
    {
        match self.semaphore.acquire(&mut self.pass) {
            Ok(Acquired::Now(permit)) => {
                let number = permit.number();
                self.permits.push(permit)?;
                Ok(Answer::Now(number))
            }
            Ok(Acquired::Later(wait)) => {
                let number = wait.number();
                self.waits.push(wait)?;
                Ok(Answer::Later(number))
            }
            Err(error) => Ok(Answer::Failed(error)),
        }
    }

    /// Tries.
    pub fn try_acquire(&mut self) -> Result<Answer, AllocError>
        requires stands { Stands self.old }
        requires free { self.old.under ≡ None }
        ensures { OnOk result (Stands self.new) }
    {
        match self.semaphore.try_acquire(&mut self.pass) {
            Tried::Got(permit) => {
                self.permits.push(permit)?;
                Ok(Answer::Got)
            }
            Tried::Busy => Ok(Answer::Busy),
            Tried::Contended { saw, found } => Ok(Answer::Contended { saw, found }),
        }
    }

    /// Looks at the wait of this number.
    pub fn poll(&mut self, alloc: Global, number: u64) -> Result<Answer, AllocError>
        requires stands { Stands self.old }
        requires free { self.old.under ≡ None }
        ensures { OnOk result (Stands self.new) }
    {
        let Some(wait) = self.take_wait(alloc, number)? else {
            return Ok(Answer::Refused);
        };
        match self.semaphore.poll(&mut self.pass, wait) {
            Polled::Granted(permit) => {
                self.permits.push(permit)?;
                Ok(Answer::Granted)
            }
            Polled::Pending(wait) => {
                self.waits.push(wait)?;
                Ok(Answer::Pending)
            }
        }
    }

    /// Gives the wait of this number up.
    pub fn cancel(&mut self, alloc: Global, number: u64) -> Result<Answer, AllocError>
        requires stands { Stands self.old }
        requires free { self.old.under ≡ None }
        ensures { OnOk result (Stands self.new) }
    {
        let Some(wait) = self.take_wait(alloc, number)? else {
            return Ok(Answer::Refused);
        };
        match self.semaphore.cancel(&mut self.pass, wait) {
            CancelAnswer::Cancelled(None) => Ok(Answer::Cancelled),
            CancelAnswer::Cancelled(Some(under)) => {
                let reached = under.reached();
                self.under = Some(under);
                Ok(Answer::Owing(reached))
            }
            CancelAnswer::TooLate(permit) => {
                self.permits.push(permit)?;
                Ok(Answer::TooLate)
            }
        }
    }

    /// Gives back the permit that came last.
    pub fn release(&mut self) -> Result<Answer, AllocError>
        requires stands { Stands self.old }
        requires free { self.old.under ≡ None }
        ensures { OnOk result (Stands self.new) }
    {
        if self.pass.held() == 0 {
            return Ok(Answer::Refused);
        }
        let Some(permit) = self.permits.pop() else {
            return Ok(Answer::Refused);
        };
        match self.semaphore.release(&mut self.pass, permit) {
            Ok(released) => Ok(self.keep(released)),
            Err((permit, _)) => {
                self.permits.push(permit)?;
                Ok(Answer::Failed(AcquireError::Crowded))
            }
        }
    }

    /// Goes on with what is owed.
    pub fn finish(&mut self) -> Answer
        requires stands { Stands self.old }
        ensures { Stands self.new }
    {
        let Some(under) = self.under.take() else {
            return Answer::Refused;
        };
        let released = self.semaphore.finish(&mut self.pass, under);
        self.keep(released)
    }

    /// The state of the semaphore.
    pub fn state(&mut self) -> i64
        requires stands { Stands self.old }
        requires free { self.old.under ≡ None }
        ensures { Stands self.new }
    {
        self.semaphore.state(&mut self.pass)
    }

    /// Whether no other pass is there.
    pub fn sole(&mut self) -> bool
        requires { Stands self.old }
        ensures { Stands self.new }
    {
        self.semaphore.sole(&mut self.pass)
    }

    // Keeps the token of what is still owed.
    fn keep(&mut self, released: Released) -> Answer
        requires belongs { IsMine self.old.semaphore self.old.pass }
        requires free { self.old.under ≡ None }
        requires owes { OwesJust (pass_view self.old.pass).facts (owed_after released) }
        requires waits { All (HasWait (pass_view self.old.pass)) self.old.waits.items }
        ensures { Stands self.new }
    {
        match released {
            Released::Freed => Answer::Freed,
            Released::Sent(number) => Answer::Sent(number),
            Released::Left(number) => Answer::Left(number),
            Released::Void(number) => Answer::Void(number),
            Released::Under(under) => {
                let reached = under.reached();
                self.under = Some(under);
                Answer::Under(reached)
            }
        }
    }

    // Takes the wait of this number from the others.
    fn take_wait(&mut self, alloc: Global, number: u64) -> Result<Option<Wait>, AllocError>
        requires stands { Stands self.old }
        requires free { self.old.under ≡ None }
        ensures parted { OnOk result (HasParted number self.new) }
        ensures taken { IfOk result (λ taken. IsTaken number self.new taken) }
    {
        let mut taken = None;
        let mut others = Vec::new(alloc);
        for wait in std::mem::replace(&mut self.waits, Vec::new(alloc)) {
            if wait.number() == number {
                taken = Some(wait);
            } else {
                others.push(wait)?;
            }
        }
        self.waits = others;
        Ok(taken)
    }
}
