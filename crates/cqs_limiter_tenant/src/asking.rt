//! The requests of a tenant's clients.

ghost use Rattle.std.specs.Prelude.{◌≡◌};
ghost use Rattle.cqs_limiter_requests.specs.declared.asks.Ask.TheVariants as ask;
ghost use Rattle.cqs_limiter_tenant.specs.declared.tenant.Seat.TheVariants.{Out, Waiting, Holding};
ghost use Rattle.cqs_limiter_tenant.specs.Seats.{seat_of};
ghost use Rattle.cqs_limiter_tenant.specs.Tenants.{tenant_sight};
ghost use Rattle.cqs_limiter_workers.specs.Sights.{Answers, IsNext};

use crate::sending::send;
use crate::tenant::{Seat, Tenant};
use cqs_limiter_requests::{Answer, Ask, Line};
use cqs_limiter_workers::Desk;
use cqs_rule::Place;
use cqs_semaphore::{Acquired, CancelAnswer, Polled, Released};

impl Tenant {
    fn enter(&mut self, line: Line) -> Answer
        requires next { IsNext tenant_sight self.old line }
        requires ask { line.ask ≡ ask.Enter }
        requires seat { seat_of self.old line.client ≡ Out }
        ensures { Answers tenant_sight self.old line result self.new }
    {
        match self.semaphore.acquire(&mut self.pass) {
            Ok(Acquired::Now(_)) => {
                self.sit(line.client, Seat::Holding);
                Answer::Now
            }
            Ok(Acquired::Later(wait)) => {
                let place = self.semaphore.queue().spend_wait(&mut self.pass, wait);
                self.sit(line.client, Seat::Waiting(place));
                Answer::Waits(place.index)
            }
            Err(_) => unreachable!(),
        }
    }

    fn look(&mut self, line: Line, place: Place) -> Answer
        requires next { IsNext tenant_sight self.old line }
        requires ask { line.ask ≡ ask.Look }
        requires seat { seat_of self.old line.client ≡ Waiting place }
        ensures { Answers tenant_sight self.old line result self.new }
    {
        let wait = self.semaphore.queue().wait_of(&mut self.pass, place);
        match self.semaphore.poll(&mut self.pass, wait) {
            Polled::Pending(_) => Answer::Pending,
            Polled::Granted(_) => {
                self.sit(line.client, Seat::Holding);
                Answer::Granted
            }
        }
    }

    fn quit(&mut self, line: Line, place: Place) -> Answer
        requires next { IsNext tenant_sight self.old line }
        requires ask { line.ask ≡ ask.Quit }
        requires seat { seat_of self.old line.client ≡ Waiting place }
        ensures { Answers tenant_sight self.old line result self.new }
    {
        let wait = self.semaphore.queue().wait_of(&mut self.pass, place);
        match self.semaphore.cancel(&mut self.pass, wait) {
            CancelAnswer::Cancelled(None) => {
                self.sit(line.client, Seat::Out);
                Answer::Gone
            }
            CancelAnswer::Cancelled(Some(_)) => unreachable!(),
            CancelAnswer::TooLate(_) => {
                self.sit(line.client, Seat::Holding);
                Answer::Late
            }
        }
    }

    fn leave(&mut self, line: Line) -> Answer
        requires next { IsNext tenant_sight self.old line }
        requires ask { line.ask ≡ ask.Leave }
        requires seat { seat_of self.old line.client ≡ Holding }
        ensures { Answers tenant_sight self.old line result self.new }
    {
        let permit = self.semaphore.permit_of(&self.pass);
        match self.semaphore.release(&mut self.pass, permit) {
            Ok(Released::Freed) => {
                self.sit(line.client, Seat::Out);
                Answer::Freed
            }
            Ok(Released::Sent(number)) => {
                self.sit(line.client, Seat::Out);
                Answer::Sent(number)
            }
            Ok(Released::Under(under)) => {
                let number = send(&self.semaphore, &mut self.pass, under);
                self.sit(line.client, Seat::Out);
                Answer::Sent(number)
            }
            Ok(Released::Left(_)) => unreachable!(),
            Ok(Released::Void(_)) => unreachable!(),
            Err(_) => unreachable!(),
        }
    }

    /// Answers a request of a client of this tenant. It takes no memory.
    pub fn ask(&mut self, line: Line) -> Answer
        requires { IsNext tenant_sight self.old line }
        ensures { Answers tenant_sight self.old line result self.new }
    {
        match (line.ask, self.seat(line.client)) {
            (Ask::Enter, Seat::Out) => self.enter(line),
            (Ask::Look, Seat::Waiting(place)) => self.look(line, place),
            (Ask::Quit, Seat::Waiting(place)) => self.quit(line, place),
            (Ask::Leave, Seat::Holding) => self.leave(line),
            _ => Answer::Refused,
        }
    }
}

impl Desk for Tenant {
    ghost use Rattle.cqs_limiter_tenant.specs.Tenants.{tenant_sight};

    ghost sight = { tenant_sight };

    fn ask(&mut self, line: Line) -> Answer {
        Tenant::ask(self, line)
    }
}
