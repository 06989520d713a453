//! A future that acquires.

ghost use Rattle.std.specs.Prelude.{◌≡◌, ◌⊎◌, true, Some, None, IsSome, IsSomeAnd, IfSome};
ghost use mathlib.Core.Logic.{◌↔◌};
ghost use Rattle.cqs_rule_laws.specs.Crew.{IsBetween};
ghost use Rattle.cqs_rule.specs.Passes.{pass_view};
ghost use Rattle.cqs_rule.specs.Waits.{HasWait};
ghost use Rattle.futures.specs.Poll.{IfReady, OnPending};
ghost use Rattle.futures.specs.Task.{Covers, Keeps};
ghost use Rattle.cqs_rule_laws.specs.CallRule.{IsReady};
ghost use Rattle.cqs_semaphore.specs.Calls.{IsMine};
ghost use Rattle.cqs_waiter.specs.AcquireFutures.{Acquires, AcquirePends, EndsWait, GotWait, IsIn, Waits};
ghost use Rattle.cqs_waiter.specs.Futures.{CanPoll, Gives, LookPended, GivesUp};
ghost use Rattle.cqs_waiter.specs.Permits.{PermitBegins};

use cqs_rule::{AcquireError, Wait};
use cqs_semaphore::{Acquired, CancelAnswer, Permit, Polled, SemPass, Semaphore};
use futures::Future;
use futures::task::{Context, Poll};

/// What the future comes to: its pass again, and a permit, or that no further number may be drawn.
#[derive(Drop)]
pub struct Acquisition {
    pub pass: SemPass,
    pub got: Result<Permit, AcquireError>,
}

/// A future that acquires a permit. Its first poll acquires, and where a wait came of that, looks
/// at it too; each later poll looks. A poll whose look is pending asks to be polled again at once,
/// so an executor that has nothing else to do keeps its processor busy.
///
/// A future that is dropped leaves its wait in the line, and its pass is gone with it: a permit
/// that comes to that wait stays held for good. `give_up` ends the wait and hands the pass back.
#[derive(Drop)]
pub struct AcquireFuture<'a> {
    semaphore: &'a Semaphore,
    pass: Option<SemPass>,
    wait: Option<Wait>,
}

impl<'a> AcquireFuture<'a> {
    /// A future that hasn't begun. The pass comes back with what it acquires.
    pub fn new(semaphore: &'a Semaphore, pass: SemPass) -> AcquireFuture<'a>
        requires belongs { IsMine semaphore.now pass }
        requires ready { IsReady (pass_view pass).facts }
        ensures can_poll { CanPoll (IsIn result.semaphore.now) Waits result.pass result.wait }
        ensures semaphore { result.semaphore.now ≡ semaphore.now }
        ensures pass { result.pass ≡ Some pass }
        ensures no_wait { result.wait ≡ None }
    {
        AcquireFuture {
            semaphore,
            pass: Some(pass),
            wait: None,
        }
    }

    /// Ends the wait, if there is one, and hands the pass back.
    pub fn give_up(self) -> (SemPass, Option<CancelAnswer>)
        requires not_ready { IsSome self.pass }
        requires can_poll { CanPoll (IsIn self.semaphore.now) Waits self.pass self.wait }
        ensures belongs { IsMine self.entry.semaphore.now result.0 }
        ensures between { IsBetween (pass_view result.0).facts }
        ensures gave_up { IsSomeAnd self.entry.pass
            (λ pass. GivesUp EndsWait pass self.entry.wait result.0 result.1) }
        ensures none { (result.1 ≡ None) ↔ (self.entry.wait ≡ None) }
    {
        let AcquireFuture {
            semaphore,
            pass,
            wait,
        } = self;
        let Some(mut pass) = pass else { unreachable!() };
        match wait {
            None => (pass, None),
            Some(wait) => {
                let answer = semaphore.cancel(&mut pass, wait);
                (pass, Some(answer))
            }
        }
    }
}

// The wait that the future has, or what its acquire gets.
#[tactic(auto, using(crate::proofs::PermitWaits::acquire_begins))]
fn begin(
    semaphore: &Semaphore,
    pass: &mut SemPass,
    wait: Option<Wait>,
) -> Result<Acquired, AcquireError>
    requires belongs { IsMine semaphore.now pass.old }
    requires ready { IsReady (pass_view pass.old).facts }
    requires has { IfSome wait (HasWait (pass_view pass.old)) }
    ensures belongs { IsMine semaphore.now pass.new }
    ensures ready { IsReady (pass_view pass.new).facts }
    ensures begins { PermitBegins (pass_view pass.old) wait result (pass_view pass.new) }
    ensures waits { GotWait result (pass_view pass.new) }
{
    match wait {
        Some(wait) => Ok(Acquired::Later(wait)),
        None => semaphore.acquire(pass),
    }
}

impl Future for AcquireFuture<'_> {
    type Output = Acquisition;

    ghost can_poll = { λ f. CanPoll (IsIn f.semaphore.now) Waits f.pass f.wait };

    ghost gives = { λ f out. Gives (IsIn f.semaphore.now) Acquires f.pass f.wait out.pass
        out.got };

    fn poll(&mut self, cx: &mut Context<'_>) -> Poll<Acquisition>
        requires { CanPoll (IsIn self.old.semaphore.now) Waits self.old.pass self.old.wait }
        ensures value { IfReady result (λ out. Gives (IsIn self.old.semaphore.now) Acquires
            self.old.pass self.old.wait out.pass out.got) }
        ensures again { OnPending result (CanPoll (IsIn self.new.semaphore.now) Waits self.new.pass
            self.new.wait) }
        ensures same { OnPending result ((out : Acquisition)
            → Gives (IsIn self.new.semaphore.now) Acquires self.new.pass self.new.wait out.pass
            out.got
            → Gives (IsIn self.old.semaphore.now) Acquires self.old.pass self.old.wait out.pass
            out.got) }
        ensures registered { OnPending result (Covers cx.new (λ _. ⊥)) }
        ensures kept { Keeps cx.old cx.new }
        ensures pending { (result ≡ Poll.Pending) ↔ ((self.old.pass ≡ None)
            ⊎ LookPended AcquirePends self.old.pass self.old.wait self.new.pass self.new.wait) }
        ensures yields { OnPending result (cx.new.is_woken ≡ true) }
    {
        let Some(mut pass) = self.pass.take() else {
            return cx.yield_now();
        };
        let wait = match begin(self.semaphore, &mut pass, self.wait.take()) {
            Ok(Acquired::Later(wait)) => wait,
            Ok(Acquired::Now(permit)) => {
                let got = Ok(permit);
                return Poll::Ready(Acquisition { pass, got });
            }
            Err(refused) => {
                let got = Err(refused);
                return Poll::Ready(Acquisition { pass, got });
            }
        };
        match self.semaphore.poll(&mut pass, wait) {
            Polled::Granted(permit) => {
                let got = Ok(permit);
                Poll::Ready(Acquisition { pass, got })
            }
            Polled::Pending(wait) => {
                self.pass = Some(pass);
                self.wait = Some(wait);
                cx.yield_now()
            }
        }
    }
}
